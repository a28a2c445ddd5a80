// The checks before the sweeps: refusals 1 to 9, 16 and 17, in the papers' order. What the answer is, `checked` of the crate sheet says.
// They come in three stages, each of which can be called alone: the lengths (1 to 4), the edges one by one (5, 16, 6 and 7), the places (8, 9 and 17).
// A place is told by the words of its ends, which the crate ends puts in order.
#![tactic(auto)]

mod corners;
pub mod faults;
pub mod lengths;
mod numbers;
pub mod places;
mod visits;

ghost use Rattle.std.specs.Prelude.{◌≡◌};
ghost use Rattle.sheet.specs.Answers.{checked};
ghost use Rattle.checks.specs.Stages.{call};
ghost use Rattle.checks.specs.Corners.{no_marks, MarksAfter};
ghost use Rattle.checks.specs.Numbers.{no_numbers, NumbersAfter};

use crate::lengths::Lengths;
use sheet::{Edge, Refusal};

// The most edges that a list holds.
const MOST_EDGES: usize = Edge::MOST;

// What the eleven checks answer. Only the lengths of the other lists matter here. Nothing is written but the marks of edges whose tops are apart
// and, where all eleven pass, the numbers of the ends' places. Marks and numbers are lent one by one: the walk for 17 writes the ones, `number_places` the
// others, and a struct of both would be taken apart at each.
pub fn check(
    edges: &[i32],
    lengths: Lengths,
    apart: &mut [bool],
    numbers: &mut [u16],
) -> Result<(), Refusal>
    requires { (apart.old ≡ no_marks) × (numbers.old ≡ no_numbers) }
    ensures marks_after { MarksAfter edges.now result apart.new }
    ensures value { result ≡ checked (call edges.now lengths) }
    ensures numbers_after { NumbersAfter edges.now result numbers.new }
{
    lengths::check(edges, lengths)?;
    faults::check(edges)?;
    places::check(edges, apart, numbers)
}
