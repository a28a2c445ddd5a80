// Keys that rise, and what is asked of them: where a key stands is found by halving.
ghost use Rattle.std.specs.Prelude.{◌≡◌, ◌↔◌, true, length};
ghost use Rattle.turns.specs.Keys.{key_of, Rising, place_from, stands_between, goes_on, Whole};
ghost use Rattle.turns.specs.Answers.{sequence_missing, polygon_missing, last_polygon};

// How many keys a polygon has: one for each sequence number.
const KEYS: u64 = 4_294_967_296;

// The key of a polygon and a sequence number.
#[tactic(auto, unfolding(crate::specs::Keys::key_of))]
pub fn key(polygon: u32, sequence: u32) -> u64
    ensures { result ≡ key_of polygon sequence }
{
    u64::from(polygon) * KEYS + u64::from(sequence)
}

// Whether a key goes on from the one before.
#[tactic(auto, unfolding(crate::specs::Keys::goes_on))]
fn goes_on(key: u64, next: u64) -> bool
    ensures { result ≡ goes_on key next }
{
    if next % KEYS == 0 {
        next / KEYS == key / KEYS + 1
    } else {
        next - 1 == key
    }
}

#[derive(Clone, Copy)]
pub struct Rising<'a> {
    pub words: &'a [u64],
    ghost rising: { Rising words.now (length words.now) },
}

impl Rising<'_> {
    // The first that is not below a key.
    pub fn place_from(&self, key: u64) -> usize
        ensures { result ≡ place_from self.now.words.now (length self.now.words.now) key }
    {
        self.words.partition_point(|word| *word < key)
    }

    // Whether one of the keys is from low on and below high.
    fn stands(&self, low: u64, high: u64) -> bool
        ensures { result ≡ stands_between self.now.words.now (length self.now.words.now) low high }
    {
        let place = self.place_from(low);
        place < self.words.len() && self.words[place] < high
    }

    // Whether the sequence number before is missing in the polygon.
    #[tactic(auto, unfolding(crate::specs::Answers::sequence_missing))]
    pub fn lacks_sequence(&self, polygon: u32, sequence: u32) -> bool
        ensures { result ≡ sequence_missing self.now.words.now (length self.now.words.now) polygon sequence }
    {
        sequence != 0 && !self.stands(key(polygon, sequence - 1), key(polygon, sequence))
    }

    // Whether the polygon before is missing.
    #[tactic(auto, unfolding(crate::specs::Answers::polygon_missing))]
    pub fn lacks_polygon(&self, polygon: u32) -> bool
        ensures { result ≡ polygon_missing self.now.words.now (length self.now.words.now) polygon }
    {
        1 < polygon && !self.stands(key(polygon - 1, 0), key(polygon, 0))
    }

    // Whether they leave no number out. One pass tells it, where 14 asks for each edge.
    pub fn are_whole(&self) -> bool
        ensures { (result ≡ true) ↔ Whole self.now.words.now (length self.now.words.now) }
    {
        if self.words.is_empty() {
            return true;
        }
        if self.words[0] != key(1, 0) {
            return false;
        }
        self.words.is_sorted_by(|word, next| goes_on(*word, *next))
    }

    // The polygon of the last key, 0 where there is none. It has 32 bits, as is proved: TryFrom is no plainer, with a case that never comes.
    pub fn last_polygon(&self) -> u32
        ensures { result ≡ last_polygon self.now.words.now (length self.now.words.now) }
    {
        match self.words.last() {
            Some(word) => (*word / KEYS) as u32,
            None => 0,
        }
    }
}
