// What the program prints: a text in, the bytes of the output out, on plain slices. specs/Output.antt says what they are.
#![tactic(auto)]

mod bytes;
mod lines;

ghost use Rattle.std.specs.Prelude.{◌≡◌, ◌≤◌, pos, length, replicate};
ghost use Rattle.numbering.specs.Outcome.{lent, outcome};
ghost use Rattle.printing.specs.Output.{outcome_lines, lent_for, printed};
ghost use Rattle.printing.specs.Laid.{Put, Page};

use bytes::Output;
use sheet::Edge;

// That the page lent is too short for what is printed.
#[derive(Clone, Copy, Debug, PartialEq, Eq)]
pub struct TooShort;

// The numbers that the program lends: 512 edges of 5, lists of one an edge, a journal of 8 an edge, 256 rows of 8.
const EDGES: usize = 2560;

const LIST: usize = 512;

const JOURNAL: usize = 4096;

const ROWS: usize = 2048;

// Prints a text's sheet: its numbers, or why it is refused. Answers how many bytes that are. Takes every text and every length of `out`. Bytes that do not
// fit are left out.
pub fn print_sheet(text: &[u8], out: &mut [u8]) -> Result<usize, TooShort>
    ensures { Page text.now out.old out.new result }
{
    let room = out.len();
    let mut output = Output::new(out);
    put_sheet(text, &mut output);
    let count = output.at;
    if room < count {
        return Err(TooShort);
    }
    Ok(count)
}

// The text is read, and its edges are numbered.
fn put_sheet(text: &[u8], output: &mut Output)
    requires { output.old.at ≡ 0 }
    ensures { Put output.old (printed text.now) output.new }
{
    let mut edges = [0i32; EDGES];
    match text::read(text, &mut edges) {
        Ok(n) => put_edges(&edges[..Edge::NUMBERS * n], n, output),
        Err(refusal) => output.put_refusal(refusal.number(), refusal.place()),
    }
}

// The edges are numbered, with lists and a journal of zeros.
fn put_edges(edges: &[i32], n: usize, output: &mut Output)
    requires { (output.old.at ≡ 0) × (n ≤ 512) }
    ensures { Put output.old (outcome_lines n (outcome (lent_for n edges.now))) output.new }
{
    let mut polygons = [0u32; LIST];
    let mut sequences = [0u32; LIST];
    let mut turns = [0u32; LIST];
    let mut journal = [0i32; JOURNAL];
    put_numbered(
        edges,
        &mut polygons[..n],
        &mut sequences[..n],
        &mut turns[..n],
        &mut journal[..Edge::JOURNAL_NUMBERS * n],
        output,
    )
}

// The edges are numbered with the program's rows, and the answer is printed.
fn put_numbered(
    edges: &[i32],
    polygons: &mut [u32],
    sequences: &mut [u32],
    turns: &mut [u32],
    journal: &mut [i32],
    output: &mut Output,
)
    requires { (output.old.at ≡ 0) × (length polygons.old ≤ 512) × (length sequences.old ≡ length polygons.old) }
    ensures { Put output.old (outcome_lines (length polygons.old) (outcome (lent edges.now polygons.old sequences.old (length turns.old) journal.old (replicate 2048 (pos 0))))) output.new }
{
    let mut rows = [0i32; ROWS];
    match assembly::assemble(edges, polygons, sequences, turns, journal, &mut rows) {
        Ok(numbered) => output.put_accepted(numbered, polygons, sequences),
        Err(refusal) => output.put_refusal(refusal.number(), refusal.place()),
    }
}
