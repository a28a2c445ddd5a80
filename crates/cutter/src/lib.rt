// Instructions for the flatbed and the roll feeder (02, M-102): of all that the two machines take for the outlines of a sheet, the k-th. What the whole list
// is, specs/Programme.antt and specs/Outlines.antt say; the refusals and their order specs/Instructed.antt.
#![tactic(auto)]

pub mod blade;
mod joining;
pub mod machines;
mod outlines;
mod programming;
mod turning;

ghost use Rattle.std.specs.Prelude.{◌≡◌};
ghost use Rattle.checks.specs.Stages.{and_then, list_checked, edges_alone_checked};
ghost use Rattle.cutter.specs.declared.CutRefusal.TheVariants.{Edges, Numbers};
ghost use Rattle.cutter.specs.Instructed.{cut_number_of, cut_place_of, Instructs};

use blade::Instruction;
use machines::Machine;
use outlines::Outlines;
use sheet::{Edge, Refusal, TurnRefusal};

// Why an instruction is refused: for the edges (1, 2, 5, 16, 6), for the numbers (11 to 14), for the turn list (24), for outlines that are not closed (25),
// or since there are not so many (18).
#[derive(Clone, Copy, Debug, PartialEq, Eq)]
pub enum CutRefusal {
    Edges(Refusal),
    Numbers(TurnRefusal),
    TurnsDiffer(u32),
    HeadNotTail(u32),
    PastLast,
}

impl CutRefusal {
    pub fn number(self) -> u32
        ensures { result ≡ cut_number_of self }
    {
        match self {
            CutRefusal::Edges(refusal) => refusal.number(),
            CutRefusal::Numbers(refusal) => refusal.number(),
            CutRefusal::TurnsDiffer(_) => 24,
            CutRefusal::HeadNotTail(_) => 25,
            CutRefusal::PastLast => 18,
        }
    }

    pub fn place(self) -> u32
        ensures { result ≡ cut_place_of self }
    {
        match self {
            CutRefusal::Edges(refusal) => refusal.place(),
            CutRefusal::Numbers(refusal) => refusal.place(),
            CutRefusal::TurnsDiffer(position) => position,
            CutRefusal::HeadNotTail(e) => e,
            CutRefusal::PastLast => 0,
        }
    }
}

impl From<Refusal> for CutRefusal {
    ghost from_gives = { λ refusal cut. cut ≡ Edges refusal };

    fn from(refusal: Refusal) -> CutRefusal {
        CutRefusal::Edges(refusal)
    }
}

impl From<TurnRefusal> for CutRefusal {
    ghost from_gives = { λ refusal cut. cut ≡ Numbers refusal };

    fn from(refusal: TurnRefusal) -> CutRefusal {
        CutRefusal::Numbers(refusal)
    }
}

// 1 and 2; then the first edge with 5, 16 or 6.
fn check_edges(edges: &[i32]) -> Result<(), Refusal>
    ensures { result ≡ and_then (list_checked edges.now) (edges_alone_checked edges.now) }
{
    checks::lengths::check_list(edges)?;
    checks::faults::check_alone(edges)
}

// The k-th instruction of a machine, counted from 0, for the outlines of a sheet whose edges are numbered and put in turn order; or why not.
// Takes every list and every k, and writes nothing. The lists go one by one, as the C interface lends them.
pub fn instruction(
    machine: Machine,
    edges: &[i32],
    polygons: &[u32],
    sequences: &[u32],
    turns: &[u32],
    k: u32,
) -> Result<Instruction, CutRefusal>
    ensures { Instructs machine edges.now polygons.now sequences.now turns.now k result }
{
    check_edges(edges)?;
    turning::check(polygons, sequences, turns, edges.len() / Edge::NUMBERS)?;
    let outlines = Outlines {
        edges,
        polygons,
        sequences,
        turns,
    };
    if let Some(i) = outlines.first_broken() {
        return Err(CutRefusal::HeadNotTail(turns[i]));
    }
    outlines.instruction_at(machine, k as usize)
}
