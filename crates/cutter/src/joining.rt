// 25: whether each head is the tail of the next edge round its outline, in turn order.
ghost use Rattle.std.specs.Prelude.{◌≡◌, ◌<◌, length};
ghost use Rattle.laws.specs.Counting.{IsFirst};
ghost use Rattle.cutter.specs.Outlines.{next_at, head_not_tail};

use crate::outlines::Outlines;
use sheet::Edge;

impl Outlines<'_> {
    // Where the next edge round the outline stands in the turn list.
    fn next_at(&self, i: usize) -> usize
        requires { i < length self.now.turns.now }
        ensures { (result ≡ next_at self.now.sequences.now self.now.turns.now i) × (result < length self.now.turns.now) }
    {
        if i + 1 < self.turns.len() {
            let behind = self.turns[i + 1] as usize;
            if self.sequences[behind] != 0 {
                return i + 1;
            }
        }
        let e = self.turns[i] as usize;
        i - self.sequences[e] as usize
    }

    // Whether the head of the edge at a position is not the tail of the next.
    fn head_not_tail(&self, i: usize) -> bool
        requires { i < length self.now.turns.now }
        ensures { result ≡ head_not_tail self.now.edges.now self.now.sequences.now self.now.turns.now i }
    {
        let next = self.next_at(i);
        let edge = Edge::at(self.edges, self.turns[i] as usize);
        let follower = Edge::at(self.edges, self.turns[next] as usize);
        !edge.head.same(follower.tail)
    }

    // The first position of such an edge.
    pub fn first_broken(&self) -> Option<usize>
        ensures { IsFirst (head_not_tail self.now.edges.now self.now.sequences.now self.now.turns.now) (length self.now.turns.now) result }
    {
        (0..self.turns.len()).find(|i| self.head_not_tail(*i))
    }
}
