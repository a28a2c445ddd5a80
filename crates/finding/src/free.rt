// Rows in use, noted as bits beside the rows; specs/Free.antt says how. The search for the lowest free row starts at the first row whose bit is not set.
// A bit that is set is a row in use; one that is not says nothing, so the search looks at the row.
ghost use Rattle.std.specs.Prelude.{◌≡◌, ◌≤◌, length};
ghost use Rattle.steps.specs.Rows.{lowest_free};
ghost use Rattle.rows.specs.Layout.{look_row};
ghost use Rattle.finding.specs.Free.{peak_in, NotedTo, InUse, taken_in, given_back_in};

use rows::{is_used, rows_in};

// The counts come as one slice and not as a struct: `InUse`, `Indexed` and the laws of both speak of that list.

// Which of the counts is the peak, which the first word worth a look, and where the words start.
pub const PEAK: usize = 1;

const LOW: usize = 2;

const WORDS: usize = 3;

// Bits in a word.
const BITS: usize = 64;

// No more words are looked at, so that 64 times their number fits.
const MOST_WORDS: usize = usize::MAX / BITS;

// Row r noted. It was the lowest free one, so that no word before its own is worth a look.
pub fn take(counts: &mut [u64], r: usize)
    requires { 3 ≤ length counts.old }
    ensures { counts.new ≡ taken_in counts.old r }
{
    let w = WORDS + r / BITS;
    counts[LOW] = (r / BITS) as u64;
    // By index: of an element that `get_mut` lends no proof learns what it is written.
    if w < counts.len() {
        counts[w] |= 1 << (r % BITS);
    }
}

// Row r no longer noted, and its word worth a look.
pub fn give_back(counts: &mut [u64], r: usize)
    requires { 3 ≤ length counts.old }
    ensures { counts.new ≡ given_back_in counts.old r }
{
    let w = WORDS + r / BITS;
    counts[LOW] = counts[LOW].min((r / BITS) as u64);
    // By index, as in `take`.
    if w < counts.len() {
        counts[w] &= !(1 << (r % BITS));
    }
}

// The first row from the first word worth a look on whose bit is not set, or the one past the last word's.
fn first_unset(counts: &[u64]) -> usize
    requires { 3 ≤ length counts.now }
    ensures { NotedTo counts.now result }
{
    let words = (counts.len() - WORDS).min(MOST_WORDS);
    let low = counts[LOW] as usize;
    for w in low.min(words)..words {
        let word = counts[WORDS + w];
        if word != u64::MAX {
            return BITS * w + word.trailing_ones() as usize;
        }
    }
    BITS * words
}

// The lowest free row below the peak, or the peak where all are in use; the number of rows where the peak is past it. That is so where what
// is noted is so, whatever is not noted. A number in each case and no Option, as `lowest_free` of the steps has it: the peak is a row that may be opened, too.
pub fn lowest_free(rows: &[i32], counts: &[u64]) -> usize
    requires { 3 ≤ length counts.now }
    ensures { InUse counts.now rows.now → result ≡ lowest_free look_row rows.now (peak_in counts.now) }
{
    let peak = counts[PEAK] as usize;
    let n = peak.min(rows_in(rows));
    for r in first_unset(counts).min(n)..n {
        if !is_used(rows, r) {
            return r;
        }
    }
    n
}
