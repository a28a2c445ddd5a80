// 11 to 14 and 24: whether a turn list is the one that the numbers give. A right one is its own witness, so one pass settles it; only a wrong one costs the
// sort that says what is wrong.
ghost use Rattle.std.specs.Prelude.{◌≡◌, true, ◌↔◌, ◌≤◌, length};
ghost use Rattle.laws.specs.Counting.{IsFirst};
ghost use Rattle.sheet.specs.Amounts.{most_edges};
ghost use Rattle.sheet.specs.TurnList.{number_lists};
ghost use Rattle.cutter.specs.Instructed.{turn_differs};
ghost use Rattle.cutter.specs.Runs.{Runs};
ghost use Rattle.cutter.specs.Turning.{comes_next, TurnsChecked};

use crate::CutRefusal;
use sheet::{Edge, TurnRefusal};

// Whether polygon q, sequence t comes right behind polygon p, sequence s.
#[tactic(auto, unfolding(crate::specs::Turning::comes_next))]
fn comes_next(p: u32, s: u32, q: u32, t: u32) -> bool
    ensures { result ≡ comes_next p s q t }
{
    if t == 0 {
        q != 0 && q - 1 == p
    } else {
        q == p && t - 1 == s
    }
}

// 24: the first position where the turn list differs from the right one.
fn first_different(turns: &[u32], right: &[u32]) -> Option<usize>
    requires { length turns.now ≤ length right.now }
    ensures { IsFirst (turn_differs turns.now right.now) (length turns.now) result }
{
    (0..turns.len()).find(|i| turns[*i] != right[*i])
}

// The numbers of as many edges as the turn list has.
#[derive(Clone, Copy)]
struct Turns<'a> {
    polygons: &'a [u32],
    sequences: &'a [u32],
    turns: &'a [u32],
    ghost sequences_long: { length sequences.now ≡ length polygons.now },
    ghost turns_long: { length turns.now ≡ length polygons.now },
    ghost few: { length polygons.now ≤ most_edges },
}

impl Turns<'_> {
    // Whether the numbers run along the turn list from edge to edge, as they do along the right one and no other. It is so exactly then: a right list never
    // costs the sort. Before the first pair stands polygon 0, with the sequence number that none comes behind.
    // Two numbers and no Option of them, which is no plainer: every edge would be asked if it is the first.
    fn runs(&self) -> bool
        ensures { (result ≡ true) ↔ Runs (number_lists self.now.polygons.now self.now.sequences.now) self.now.turns.now }
    {
        let mut polygon = 0;
        let mut sequence = u32::MAX;
        for turn in self.turns {
            let e = *turn as usize;
            if self.turns.len() <= e {
                return false;
            }
            if !comes_next(polygon, sequence, self.polygons[e], self.sequences[e]) {
                return false;
            }
            polygon = self.polygons[e];
            sequence = self.sequences[e];
        }
        true
    }

    // 12 to 14 and 24 with the right turn list made anew in the room that is lent.
    fn compare(&self, room: &mut [u32]) -> Result<(), CutRefusal>
        requires { length room.old ≡ length self.now.polygons.now }
        ensures { TurnsChecked self.now.polygons.now self.now.sequences.now self.now.turns.now (length self.now.polygons.now) result }
    {
        turns::turn_list(self.polygons, self.sequences, room)?;
        match first_different(self.turns, room) {
            Some(position) => Err(CutRefusal::TurnsDiffer(position as u32)),
            None => Ok(()),
        }
    }
}

// 11 to 14 and 24 of lists for n edges, which go one by one, as the C interface lends them. The room of the right turn list takes 16 KB of stack.
pub fn check(polygons: &[u32], sequences: &[u32], turns: &[u32], n: usize) -> Result<(), CutRefusal>
    requires { n ≤ most_edges }
    ensures { TurnsChecked polygons.now sequences.now turns.now n result }
{
    if polygons.len() != n || sequences.len() != n || turns.len() != n {
        return Err(CutRefusal::Numbers(TurnRefusal::TurnLengths));
    }
    let lists = Turns {
        polygons,
        sequences,
        turns,
    };
    if lists.runs() {
        return Ok(());
    }
    let mut room = [0u32; Edge::MOST];
    lists.compare(&mut room[..n])
}
