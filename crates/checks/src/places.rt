// 8 and 9: what is wrong at a place. One walk over all ends in order visits the places in rising order, each once. What is done at a place is
// `at_place`, and what the walk carries is `AtFault`: whoever wants something else of the places walks by `Places` with a step of its own, as 17 does, which
// asks for lists that pass 8 and 9.
ghost use Rattle.std.specs.Prelude.{◌≡◌, ◌+◌, ◌*◌, ◌<◌, ◌≤◌, length};
ghost use Rattle.laws.specs.Counting.{count};
ghost use Rattle.sheet.specs.Edges.{edges_in};
ghost use Rattle.ends.specs.Fitting.{EndsFit};
ghost use Rattle.checks.specs.Stages.{places_checked};
ghost use Rattle.ends.specs.Ends.{edge_in, arrives_in, Ordered};
ghost use Rattle.checks.specs.Places.{FirstAtFault, Least, repeats_in, uneven_at, passed_through, Walks, AtPlace, FoundSoFar};
ghost use Rattle.checks.specs.Corners.{no_marks, MarksAfter};
ghost use Rattle.checks.specs.Numbers.{no_numbers, NumbersAfter};

use crate::visits::{Places, least_edge, lower};
use crate::{MOST_EDGES, corners, numbers};
use sheet::{Edge, Refusal};

// Each end of a list, two for an edge.
const MOST_ENDS: usize = 2 * MOST_EDGES;

// For so few edges room for few words does.
const FEW: usize = 32;

// The least edge of a kind that an earlier edge has at the same place, and the least with an end at a place where the arriving and the leaving edges
// differ in number.
#[derive(Clone, Copy, Debug, PartialEq, Eq)]
pub struct AtFault {
    pub repeated: Option<usize>,
    pub uneven: Option<usize>,
}

// Whether the end before has the same key: it is of an earlier edge, of the same kind at the same place.
fn repeats(words: &[u64], k: usize) -> bool
    requires { (0 < k) × (k < length words.now) }
    ensures { result ≡ repeats_in words.now k }
{
    ends::key_of(words[k - 1]) == ends::key_of(words[k])
}

// How many of the ends at a place are of edges that arrive.
fn arriving(words: &[u64], from: usize, to: usize) -> usize
    requires { (from ≤ to) × (to ≤ length words.now) × (to ≤ 8192) }
    ensures { result + count (arrives_in words.now) from ≡ count (arrives_in words.now) to }
{
    let mut number: usize = 0;
    for k in from..to {
        number += ends::arrival_of(words[k]);
    }
    number
}

// The least edge with an end at a place, where the arriving and the leaving edges differ in number.
fn least_uneven(words: &[u64], from: usize, to: usize) -> Option<usize>
    requires { Walks words.now (length words.now) × AtPlace words.now (length words.now) from to }
    ensures { Least (uneven_at words.now (length words.now)) (edge_in words.now) from to result }
{
    if 2 * arriving(words, from, to) == to - from {
        return None;
    }
    least_edge(words, from, to, |_| true)
}

// Whether a place has two ends, one that arrives and one that leaves. Nearly all places do.
fn passed_through(words: &[u64], from: usize, to: usize) -> bool
    requires { (from < to) × (to ≤ length words.now) }
    ensures { result ≡ passed_through words.now from to }
{
    to - from == 2 && ends::arrival_of(words[from]) != ends::arrival_of(words[from + 1])
}

// What is done at a place, whose ends stand from `from` to `to`. One that is passed through has neither 8 nor 9.
fn at_place(words: &[u64], from: usize, to: usize, found: AtFault) -> AtFault
    requires place { Walks words.now (length words.now) × AtPlace words.now (length words.now) from to }
    requires found { FoundSoFar words.now (length words.now) from found }
    ensures { FoundSoFar words.now (length words.now) to result }
{
    if passed_through(words, from, to) {
        return found;
    }
    let repeated = least_edge(words, from + 1, to, |k| repeats(words, k));
    let uneven = least_uneven(words, from, to);
    AtFault {
        repeated: lower(found.repeated, repeated),
        uneven: lower(found.uneven, uneven),
    }
}

// The walk over ends in order, place by place.
fn walk(words: &[u64]) -> AtFault
    requires { Walks words.now (length words.now) }
    ensures { FoundSoFar words.now (length words.now) (length words.now) result }
{
    let mut found = AtFault {
        repeated: None,
        uneven: None,
    };
    for (from, to) in (Places { words, from: 0 }) {
        found = at_place(words, from, to, found);
    }
    found
}

// The words of all ends in order, the first edge with 8 and the first with 9.
fn first_at_fault(edges: &[i32], words: &mut [u64]) -> AtFault
    requires { EndsFit edges.now (edges_in edges.now) × (length words.old ≡ 2 * edges_in edges.now) }
    ensures value { FirstAtFault edges.now result }
    ensures ordered { Ordered edges.now words.new (edges_in edges.now) × Walks words.new (2 * edges_in edges.now) }
{
    ends::ordering::order(edges, words, edges.len() / Edge::NUMBERS);
    walk(words)
}

// 8 over the whole list, then 9, then 17, of a list that passes 2, 5, 16 and 6. Leaves a mark for each edge whose top is apart, and, where all are passed, the number of each
// end's place. The words take 64 KB of stack, 8,192 of 8 bytes, and while they are put in order a digit's counts 4 KB more; of few edges they take 512 bytes.
pub fn check(edges: &[i32], apart: &mut [bool], numbers: &mut [u16]) -> Result<(), Refusal>
    requires { EndsFit edges.now (edges_in edges.now) × (apart.old ≡ no_marks) × (numbers.old ≡ no_numbers) }
    ensures { (result ≡ places_checked edges.now) × MarksAfter edges.now result apart.new × NumbersAfter edges.now result numbers.new }
{
    if edges.len() / Edge::NUMBERS <= FEW {
        let mut few = [0u64; 2 * FEW];
        return check_ends(edges, &mut few, apart, numbers);
    }
    let mut many = [0u64; MOST_ENDS];
    check_ends(edges, &mut many, apart, numbers)
}

// The same with room lent for the words, two for each edge.
fn check_ends(
    edges: &[i32],
    room: &mut [u64],
    apart: &mut [bool],
    numbers: &mut [u16],
) -> Result<(), Refusal>
    requires room { 2 * edges_in edges.now ≤ length room.old }
    requires list { EndsFit edges.now (edges_in edges.now) × (apart.old ≡ no_marks) × (numbers.old ≡ no_numbers) }
    ensures { (result ≡ places_checked edges.now) × MarksAfter edges.now result apart.new × NumbersAfter edges.now result numbers.new }
{
    let words = &mut room[..2 * (edges.len() / Edge::NUMBERS)];
    let AtFault { repeated, uneven } = first_at_fault(edges, words);
    if let Some(e) = repeated {
        return Err(Refusal::Repeated(e as u32));
    }
    if let Some(e) = uneven {
        return Err(Refusal::Uneven(e as u32));
    }
    if let Some(e) = corners::walk(edges, words, apart) {
        return Err(Refusal::NotAlternating(e as u32));
    }
    numbers::number_places(words, numbers);
    Ok(())
}
