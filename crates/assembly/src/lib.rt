// One call for a whole sheet: the edges are numbered, and the turn list is laid from their numbers (02, M-101).
#![tactic(auto)]

mod laying;

ghost use Rattle.std.specs.Prelude.{length};
ghost use Rattle.numbering.specs.Outcome.{lent, left_as};
ghost use Rattle.assembly.specs.Assembled.{Assembled};

use laying::lay_turns;
use sheet::{Numbered, Refusal};

// Gives every edge its polygon number and its place round the polygon, and puts the edges' places in the order in which they are cut; or says why not.
// Takes every list and every size of the lent slices, one by one as the C interface lends them. A refusal leaves the three lists as they are.
pub fn assemble(
    edges: &[i32],
    polygons: &mut [u32],
    sequences: &mut [u32],
    turns: &mut [u32],
    journal: &mut [i32],
    rows: &mut [i32],
) -> Result<Numbered, Refusal>
    ensures { Assembled (lent edges.now polygons.old sequences.old (length turns.old) journal.old rows.old) turns.old (left_as result polygons.new sequences.new journal.new rows.new) turns.new }
{
    let numbered = numbering::number(edges, polygons, sequences, turns.len(), journal, rows)?;
    lay_turns(polygons, sequences, numbered.polygons as usize, turns);
    Ok(numbered)
}
