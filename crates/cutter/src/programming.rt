// The k-th instruction of outlines that are closed. A position of the turn list tells how many instructions there are up to its cut, so the position that k
// belongs to is found without laying out the list.
ghost use Rattle.std.specs.Prelude.{◌≡◌, true, ◌<◌, ltb, length};
ghost use Rattle.laws.specs.Counting.{IsFirst};
ghost use Rattle.sheet.specs.Points.{in_range};
ghost use Rattle.cutter.specs.Places.{place_for};
ghost use Rattle.cutter.specs.Programme.{programme};
ghost use Rattle.cutter.specs.Outlines.{outlines_of};
ghost use Rattle.cutter.specs.Instructed.{kth};
ghost use Rattle.cutter.specs.Position.{up_to_cut, past_last, before_end};
ghost use Rattle.cutter.specs.Joined.{Drawable};

use crate::CutRefusal;
use crate::blade::Instruction;
use crate::machines::Machine;
use crate::outlines::Outlines;
use sheet::Edge;

impl Outlines<'_> {
    // How many instructions there are up to the cut of the edge at a position: a cut for each position so far, a travel for each polygon that was begun and
    // a lift for each that was ended.
    #[tactic(auto, unfolding(crate::specs::Position::up_to_cut))]
    fn up_to_cut(&self, i: usize) -> usize
        requires { i < length self.now.turns.now }
        ensures { result ≡ up_to_cut self.now.polygons.now self.now.turns.now i }
    {
        let e = self.turns[i] as usize;
        i + 2 * (self.polygons[e] as usize)
    }

    // The first position whose cut is not before k.
    fn position_of(&self, k: usize) -> Option<usize>
        ensures { IsFirst (λ i. ltb k (up_to_cut self.now.polygons.now self.now.turns.now i)) (length self.now.turns.now) result }
    {
        (0..self.turns.len()).find(|i| k < self.up_to_cut(*i))
    }

    // 18: behind the last cut comes one lift and nothing more.
    #[tactic(auto, unfolding(crate::specs::Position::past_last))]
    fn past_last(&self, k: usize) -> bool
        ensures { result ≡ past_last self.now.polygons.now self.now.turns.now k }
    {
        let n = self.turns.len();
        n == 0 || self.up_to_cut(n - 1) < k
    }

    // The k-th instruction, or 18.
    pub fn instruction_at(&self, machine: Machine, k: usize) -> Result<Instruction, CutRefusal>
        requires { Drawable self.now.edges.now self.now.polygons.now self.now.sequences.now self.now.turns.now }
        ensures { result ≡ kth (programme (place_for machine) (outlines_of self.now.edges.now self.now.sequences.now self.now.turns.now)) k }
    {
        if self.past_last(k) {
            return Err(CutRefusal::PastLast);
        }
        let Some(i) = self.position_of(k) else {
            return Ok(Instruction::Lift);
        };
        let edge = Edge::at(self.edges, self.turns[i] as usize);
        Ok(before_end(machine, edge, self.up_to_cut(i) - k))
    }
}

// The instruction that comes some before the end of those up to the cut of a position: the cut is the last of them, before it comes the travel where an
// outline begins there, and before that the lift of the outline before.
#[tactic(auto, unfolding(crate::specs::Position::before_end))]
fn before_end(machine: Machine, edge: Edge, back: usize) -> Instruction
    requires { (in_range edge.tail ≡ true) × (in_range edge.head ≡ true) }
    ensures { result ≡ before_end machine edge back }
{
    match back {
        1 => Instruction::Cut(machine.place_for(edge.head)),
        2 => Instruction::Travel(machine.place_for(edge.tail)),
        _ => Instruction::Lift,
    }
}
