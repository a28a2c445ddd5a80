// 1 to 4: the lengths of the lists, compared. 1 and 2 ask about the edge list alone, for calls that are lent other lists.
ghost use Rattle.std.specs.Prelude.{◌≡◌};
ghost use Rattle.checks.specs.Stages.{call, list_checked, lengths_checked};

use crate::MOST_EDGES;
use sheet::{Edge, Refusal};

// The least numbers that the journal has for each edge.
const JOURNAL_NUMBERS: usize = Edge::JOURNAL_NUMBERS;

// How many numbers long the lists are that are lent beside the edge list.
#[derive(Clone, Copy, Debug, PartialEq, Eq)]
pub struct Lengths {
    pub polygons: usize,
    pub sequences: usize,
    pub turns: usize,
    pub journal: usize,
}

// 1 and 2.
pub fn check_list(edges: &[i32]) -> Result<(), Refusal>
    ensures { result ≡ list_checked edges.now }
{
    if edges.len() % Edge::NUMBERS != 0 {
        return Err(Refusal::NotWhole);
    }
    if MOST_EDGES < edges.len() / Edge::NUMBERS {
        return Err(Refusal::TooMany);
    }
    Ok(())
}

// 1 to 4.
pub fn check(edges: &[i32], lengths: Lengths) -> Result<(), Refusal>
    ensures { result ≡ lengths_checked (call edges.now lengths) }
{
    check_list(edges)?;
    let n = edges.len() / Edge::NUMBERS;
    if lengths.polygons != n || lengths.sequences != n || lengths.turns != n {
        return Err(Refusal::ListsDiffer);
    }
    if lengths.journal < JOURNAL_NUMBERS * n {
        return Err(Refusal::JournalShort);
    }
    Ok(())
}
