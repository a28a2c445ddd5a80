// A numbering of no more than the most edges: the polygon and the sequence number of each edge, and the key that the two make.
ghost use Rattle.std.specs.Prelude.{◌≡◌, ℕ, ◌≤◌, ◌<◌, None, length, get_or};
ghost use Rattle.laws.specs.Counting.{IsFirst};
ghost use Rattle.sheet.specs.TurnList.{pair_repeated, gap};
ghost use Rattle.turns.specs.Keys.{key_at, Sizes, Keyed, place_from};
ghost use Rattle.turns.specs.Answers.{without_polygon};
ghost use Rattle.turns.specs.Order.{Ordered};

use crate::rising::{Rising, key};

// Lists that pass 11. A sequence number has 32 bits.
#[derive(Clone, Copy)]
pub struct Numbers<'a> {
    pub polygons: &'a [u32],
    pub sequences: &'a [u32],
    ghost sizes: { Sizes polygons.now sequences.now },
    ghost narrow: { (e : ℕ) → get_or sequences.now e 0 < 4294967296 },
}

impl Numbers<'_> {
    ghost use Rattle.turns.specs.Numbered.{lists_of};

    // 12: the first edge with the polygon number 0.
    pub fn first_without(&self) -> Option<usize>
        ensures { IsFirst (without_polygon self.now.polygons.now) (length self.now.polygons.now) result }
    {
        self.polygons.iter().position(|polygon| *polygon == 0)
    }

    // The key of an edge.
    #[tactic(auto, unfolding(sheet::specs::TurnList::number_lists))]
    fn key(&self, e: usize) -> u64
        requires { e < length self.now.polygons.now }
        ensures { result ≡ key_at (lists_of self.now) e }
    {
        key(self.polygons[e], self.sequences[e])
    }

    // The keys of all the edges, in order.
    pub fn order_keys(&self, keys: &mut [u64])
        requires { length keys.old ≡ length self.now.polygons.now }
        ensures long { length keys.new ≡ length self.now.polygons.now }
        ensures keyed { Keyed (lists_of self.now) keys.new }
    {
        self.pack_keys(keys);
        sorting::sort(keys);
    }

    fn pack_keys(&self, keys: &mut [u64])
        requires { length keys.old ≡ length self.now.polygons.now }
        ensures { (e : ℕ) → e < length self.now.polygons.now → get_or keys.new e 0 ≡ key_at (lists_of self.now) e }
    {
        for (e, word) in keys.iter_mut().enumerate() {
            *word = self.key(e);
        }
    }

    // The place of an edge's key.
    fn place(&self, keys: &Rising, e: usize) -> usize
        requires keys { Keyed (lists_of self.now) keys.now.words.now }
        requires long { length keys.now.words.now ≡ length self.now.polygons.now }
        requires edge { e < length self.now.polygons.now }
        ensures place { result ≡ place_from keys.now.words.now (length self.now.polygons.now) (key_at (lists_of self.now) e) }
        ensures within { result < length self.now.polygons.now }
    {
        keys.place_from(self.key(e))
    }

    // 13: the first edge with a pair that an earlier edge has. Each edge before it is written into the order, at the place of its key. What stands at a
    // place is asked for its key: where none was written there, it is no earlier edge or has another key.
    pub fn first_again(&self, keys: &Rising, order: &mut [u32]) -> Option<usize>
        requires keys { Keyed (lists_of self.now) keys.now.words.now }
        requires long { length keys.now.words.now ≡ length self.now.polygons.now }
        requires order { length order.old ≡ length self.now.polygons.now }
        ensures again { IsFirst (pair_repeated (lists_of self.now)) (length self.now.polygons.now) result }
        ensures order { result ≡ None → Ordered (lists_of self.now) keys.now.words.now order.new }
    {
        for later in 0..self.polygons.len() {
            let place = self.place(keys, later);
            let earlier = order[place] as usize;
            if earlier < later && self.key(earlier) == self.key(later) {
                return Some(later);
            }
            order[place] = later as u32;
        }
        None
    }

    // Whether 14 holds of an edge.
    fn has_gap(&self, keys: &Rising, e: usize) -> bool
        requires keys { Keyed (lists_of self.now) keys.now.words.now }
        requires long { length keys.now.words.now ≡ length self.now.polygons.now }
        requires edge { e < length self.now.polygons.now }
        ensures { result ≡ gap (lists_of self.now) e }
    {
        let polygon = self.polygons[e];
        keys.lacks_sequence(polygon, self.sequences[e]) || keys.lacks_polygon(polygon)
    }

    // 14: the first edge that it holds of. Of keys that leave no number out it holds nowhere, and no edge is asked.
    pub fn first_gap(&self, keys: &Rising) -> Option<usize>
        requires keys { Keyed (lists_of self.now) keys.now.words.now }
        requires long { length keys.now.words.now ≡ length self.now.polygons.now }
        ensures { IsFirst (gap (lists_of self.now)) (length self.now.polygons.now) result }
    {
        if keys.are_whole() {
            return None;
        }
        (0..self.polygons.len()).find(|e| self.has_gap(keys, *e))
    }
}
