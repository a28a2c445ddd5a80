// The program: reads a sheet from standard input and prints its numbers, or why it is refused. What is printed is settled by crates/printing; here is only
// what is read and written. Where standard input cannot be read nothing is printed, and where the output cannot be written that is said: both on standard error.
#![tactic(auto)]

ghost use Rattle.std.specs.Prelude.{◌≤◌, length, IfOk};
ghost use Rattle.printing.specs.Laid.{InFront};

use std::io;
use std::io::{Print, Read};

// How many bytes were read until the input ended or the room was full. By hand: `read_exact` does not say how many, and `read_to_end` takes a heap.
fn read_all<R: Read>(input: &mut R, room: &mut [u8]) -> io::Result<usize>
    ensures { IfOk result (λ n. n ≤ length room.new) }
{
    let mut n = 0;
    while n < room.len() {
        let more = input.read(&mut room[n..])?;
        if more == 0 {
            break;
        }
        n += more;
    }
    Ok(n)
}

// Where even this cannot be written there is nobody left to tell.
fn complain<E: Print>(error: &E, words: &[u8]) {
    let _ = error.write_all(words);
}

fn write_out<O: Print, E: Print>(output: &O, error: &E, page: &[u8]) {
    if output.write_all(page).is_err() {
        complain(error, b"outline: standard output cannot be written\n");
    }
}

// The output of a text at the front of a page that has room for every output.
fn print_on(page: &mut [u8], text: &[u8]) -> usize
    requires { 8192 ≤ length page.old }
    ensures { InFront text.now page.old page.new result }
{
    printing::print_sheet(text, page).unwrap()
}

// Prints a text's sheet.
fn print<O: Print, E: Print>(output: &O, error: &E, text: &[u8]) {
    let mut page = [0u8; 8192];
    let printed = print_on(&mut page, text);
    write_out(output, error, &page[..printed]);
}

// One byte more than a text may have is enough to see that it has too many.
fn main(rt: HostRuntime) {
    let mut room = [0u8; 20481];
    let mut input = rt.stdin();
    match read_all(&mut input, &mut room) {
        Ok(n) => print(&rt.stdout(), &rt.stderr(), &room[..n]),
        Err(_) => complain(&rt.stderr(), b"outline: standard input cannot be read\n"),
    }
}
