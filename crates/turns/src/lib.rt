// The turn list: the places of the edges, polygon by polygon, each polygon in sequence order, read from a numbering; refusals 11 to 14.
// What is right, specs/TurnList.antt of the crate sheet says. An edge's polygon and sequence number make one key, and the keys are put in order: an
// edge's place among them is its place in the turn list. 13 and 14 ask where a key stands, by halving. All in all that is n log n steps.
#![tactic(auto)]

mod numbers;
mod rising;

ghost use Rattle.std.specs.Prelude.{◌≡◌, ℕ, ◌<◌, ◌≤◌, length, get_or};
ghost use Rattle.sheet.specs.TurnList.{lengths_differ, turned, TurnsAfter};
ghost use Rattle.sheet.specs.Sound.{AcceptsExactly};
ghost use Rattle.turns.specs.Answers.{numbers_turned};

use numbers::Numbers;
use rising::Rising;
use sheet::{Edge, TurnRefusal};

// Reads the turn list of a numbering. A refusal leaves the turns as they are. The lists go one by one, as the C interface lends them.
pub fn turn_list(polygons: &[u32], sequences: &[u32], turns: &mut [u32]) -> Result<u32, TurnRefusal>
    ensures answer { result ≡ turned polygons.now sequences.now (length turns.old) }
    ensures exactly { AcceptsExactly polygons.now sequences.now (length turns.old) result }
    ensures turns { TurnsAfter polygons.now sequences.now result turns.old turns.new }
{
    if lengths_differ(polygons.len(), sequences.len(), turns.len()) {
        return Err(TurnRefusal::TurnLengths);
    }
    let numbers = Numbers {
        polygons,
        sequences,
    };
    turn_numbers(&numbers, turns)
}

// 11
#[tactic(auto, unfolding(sheet::specs::TurnList::lengths_differ))]
fn lengths_differ(polygons: usize, sequences: usize, turns: usize) -> bool
    ensures { result ≡ lengths_differ polygons sequences turns }
{
    polygons != sequences || polygons != turns || Edge::MOST < polygons
}

// 12, 13 and 14, each looked for over the whole list and answered in that order, and the turns of what has none of them.
// The keys take 32 KB of stack and the order 16 KB.
fn turn_numbers(numbers: &Numbers, turns: &mut [u32]) -> Result<u32, TurnRefusal>
    requires { length turns.old ≡ length numbers.now.polygons.now }
    ensures answer { result ≡ numbers_turned numbers.now.polygons.now numbers.now.sequences.now }
    ensures turns { TurnsAfter numbers.now.polygons.now numbers.now.sequences.now result turns.old turns.new }
{
    let n = numbers.polygons.len();
    let mut words = [0u64; Edge::MOST];
    let words = &mut words[..n];
    numbers.order_keys(words);
    let keys = Rising { words };
    let mut order = [0u32; Edge::MOST];
    let order = &mut order[..n];
    if let Some(e) = numbers.first_without() {
        return Err(TurnRefusal::NoPolygon(e as u32));
    }
    if let Some(e) = numbers.first_again(&keys, order) {
        return Err(TurnRefusal::PairRepeated(e as u32));
    }
    if let Some(e) = numbers.first_gap(&keys) {
        return Err(TurnRefusal::Gap(e as u32));
    }
    turns.copy_from_slice(order);
    Ok(keys.last_polygon())
}
