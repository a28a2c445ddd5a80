// The places of a list's ends by number, of a list that passes the checks. In order the ends of one place stand together, so a place is told by how many
// ends stand before it: half of them, since a place has two ends or four.
ghost use Rattle.std.specs.Prelude.{◌≡◌, ◌/◌, ◌%◌, length};
ghost use Rattle.checks.specs.Places.{Walks};
ghost use Rattle.checks.specs.Numbers.{no_numbers, OneEach, NumbersSoFar};

// Gives each end the number of its place: half the ends that are lower. On the way it keeps the place of the end before and where that place begins, so that
// no place is looked at twice; at the first end both choices are 0.
pub fn number_places(words: &[u64], numbers: &mut [u16])
    requires words { Walks words.now (length words.now) × OneEach words.now (length words.now / 2) }
    requires whole { length words.now % 2 ≡ 0 }
    requires numbers { numbers.old ≡ no_numbers }
    ensures { NumbersSoFar words.now (length words.now / 2) (length words.now) numbers.new }
{
    let mut place: u64 = 0;
    let mut first: usize = 0;
    for (k, &word) in words.iter().enumerate() {
        let here = ends::place_of(word);
        first = if here == place { first } else { k };
        place = here;
        numbers[2 * ends::edge_of(word) + ends::arrival_of(word)] = (first / 2) as u16;
    }
}
