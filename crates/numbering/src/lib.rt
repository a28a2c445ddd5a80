// The numbering: checks, sweep up, sweep down, answer sheet, on the five slices that a caller lends.
#![tactic(auto)]

ghost use Rattle.std.specs.Prelude.{◌≡◌, ◌*◌, ◌≤◌, length};
ghost use Rattle.numbering.specs.OnSlices.{fitted, sweeps, sweeps_on};
ghost use Rattle.numbering.specs.Outcome.{lent, left_as};
ghost use Rattle.numbering.specs.Promised.{Promised};
ghost use Rattle.sweep.specs.Slices.{PlacesNumbered};
ghost use Rattle.sheet.specs.Amounts.{journal_numbers_per_edge, most_edges};
ghost use Rattle.sheet.specs.Edges.{edges_in};

use checks::lengths::Lengths;
use sheet::{Edge, Numbered, Refusal};
use sweep::up::Checked;

// Each end of a list, two for an edge: its place has a number.
const MOST_ENDS: usize = 2 * Edge::MOST;

// Gives every edge its polygon number and its place round the polygon, or says why not.
// Takes every list and every size of the lent slices, and the length of the turn list that a caller goes on to fill, which 3 compares too.
// Accepted: both lists filled, the records in the journal followed by zeros, the rows all zeros.
pub fn number(
    edges: &[i32],
    polygons: &mut [u32],
    sequences: &mut [u32],
    turns: usize,
    journal: &mut [i32],
    rows: &mut [i32],
) -> Result<Numbered, Refusal>
    ensures { Promised (lent edges.now polygons.old sequences.old turns journal.old rows.old) (left_as result polygons.new sequences.new journal.new rows.new) }
{
    let mut apart = [false; Edge::MOST];
    let mut numbers = [0u16; MOST_ENDS];
    let lengths = Lengths {
        polygons: polygons.len(),
        sequences: sequences.len(),
        turns,
        journal: journal.len(),
    };
    checks::check(edges, lengths, &mut apart, &mut numbers)?;
    let list = Checked {
        edges,
        count: edges.len() / Edge::NUMBERS,
        apart: &apart,
        numbers: &numbers,
    };
    number_checked(list, polygons, sequences, journal, rows)
}

// A list that passed its checks: the sweeps work in the journal's first numbers, and the rest of it is set to zero. The four slices are those that `number` is lent,
// by the C interface: a struct of them would be taken apart again at the cut of the journal and at either sweep.
fn number_checked(
    list: Checked,
    polygons: &mut [u32],
    sequences: &mut [u32],
    journal: &mut [i32],
    rows: &mut [i32],
) -> Result<Numbered, Refusal>
    requires lengths { (list.count ≡ edges_in list.edges.now) × (list.count ≤ most_edges) × (journal_numbers_per_edge * list.count ≤ length journal.old) }
    requires numbers { PlacesNumbered list.edges.now list.count list.numbers.now }
    ensures { left_as result polygons.new sequences.new journal.new rows.new ≡ sweeps_on (fitted list.entry.edges.now polygons.old sequences.old journal.old rows.old) }
{
    let used = Edge::JOURNAL_NUMBERS * list.count;
    let answer = sweep_both(list, polygons, sequences, &mut journal[..used], rows);
    journal[used..].fill(0);
    answer
}

// The two sweeps, and what they leave. An end that is not done gives up the row table and the journal.
fn sweep_both(
    list: Checked,
    polygons: &mut [u32],
    sequences: &mut [u32],
    journal: &mut [i32],
    rows: &mut [i32],
) -> Result<Numbered, Refusal>
    requires lengths { (list.count ≡ edges_in list.edges.now) × (list.count ≤ most_edges) × (length journal.old ≡ journal_numbers_per_edge * list.count) }
    requires numbers { PlacesNumbered list.edges.now list.count list.numbers.now }
    ensures { left_as result polygons.new sequences.new journal.new rows.new ≡ sweeps (fitted list.entry.edges.now polygons.old sequences.old journal.old rows.old) }
{
    let swept = sweep::up::sweep_up(list, journal, rows);
    let progress = swept.progress;
    if !progress.is_done() {
        journal::zero_from(journal, 0);
        rows::clear(rows);
        return Err(Refusal::NoRow(swept.edge as u32));
    }
    let records = progress.records;
    let count = sweep::down::sweep_down(journal, records, rows, polygons, sequences);
    journal::zero_from(journal, records);
    rows::clear(rows);
    Ok(Numbered {
        polygons: count as u32,
        peak: progress.peak as u32,
        records: records as u32,
    })
}
