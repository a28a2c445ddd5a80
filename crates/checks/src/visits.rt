// A walk over the ends in order, place by place: where the ends of each place stand, and the least edge among them.
ghost use Rattle.std.specs.Prelude.{◌≡◌, Bool, ℕ, ◌-◌, ◌<◌, ◌≤◌, length};
ghost use Rattle.std.specs.Iterator.{at_most};
ghost use Rattle.ends.specs.Ends.{edge_in};
ghost use Rattle.checks.specs.Places.{lower, Least, Walks, Visited, AtPlace};
ghost use Rattle.checks.specs.Visits.{Walking, NextPlace};

// The places of ends in order, from that of the end at `from` on. Of each comes where its ends stand: from its first end to the first of the next place.
// The words, `from` and `to` are no struct: it would hold a slice, so each `ensures` would say `place.entry.words.now` for `words.now`, which is no plainer.
#[derive(Drop)]
pub struct Places<'a> {
    pub words: &'a [u64],
    pub from: usize,
}

impl<'a> Iterator for Places<'a> {
    type Item = (usize, usize);

    ghost can_next = { Walking };

    ghost next_gives = { NextPlace };

    ghost remaining = { λ s. at_most (length s.words.now - s.from) };

    fn next(&mut self) -> Option<(usize, usize)> {
        let from = self.from;
        if from == self.words.len() {
            return None;
        }
        let to = place_end(self.words, from);
        self.from = to;
        Some((from, to))
    }
}

// Where the ends stop that have the place of the end at from.
fn place_end(words: &[u64], from: usize) -> usize
    requires walks { Walks words.now (length words.now) × Visited words.now (length words.now) from }
    requires some { from < length words.now }
    ensures { AtPlace words.now (length words.now) from result }
{
    let place = ends::place_of(words[from]);
    (from + 1..words.len())
        .find(|&k| ends::place_of(words[k]) != place)
        .unwrap_or(words.len())
}

// The lower of two edges, where there are two. By hand, since the order of `Option` has `None` below all.
pub fn lower(a: Option<usize>, b: Option<usize>) -> Option<usize>
    ensures { result ≡ lower a b }
{
    match (a, b) {
        (Some(a), Some(b)) => Some(a.min(b)),
        _ => a.or(b),
    }
}

// Of the ends from `from` to `to` that pass a test the least edge. Few places ask for it, so it stays out of the walks' loops.
#[inline(never)]
pub fn least_edge<F: Fn(usize) -> bool>(
    words: &[u64],
    from: usize,
    to: usize,
    test: F,
) -> Option<usize>
    requires within { (from ≤ to) × (to ≤ length words.now) }
    requires callable { (k : ℕ) → from ≤ k → k < to → F.pre test k }
    ensures { (p : ℕ → Bool) → ((k : ℕ) (r : Bool) → from ≤ k → k < to → F.post test k r → r ≡ p k) → Least p (edge_in words.now) from to result }
{
    let mut least = None;
    for k in from..to {
        if test(k) {
            least = lower(least, Some(ends::edge_of(words[k])));
        }
    }
    least
}
