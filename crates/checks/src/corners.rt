// 17, and a mark for each edge whose top is apart, of a list that passes 8 and 9: a place then has two ends, or four, an edge of each kind. The walk over
// places is that of 8 and 9; what is done at a place is `at_place`.
ghost use Rattle.std.specs.Prelude.{◌≡◌, ◌+◌, ◌*◌, ◌<◌, length};
ghost use Rattle.sheet.specs.Turning.{cross};
ghost use Rattle.sheet.specs.Edges.{edges_in, drawing_of};
ghost use Rattle.ends.specs.Fitting.{EndsFit};
ghost use Rattle.checks.specs.Places.{AtPlace};
ghost use Rattle.checks.specs.Corners.{SoundEnds, CornersSoFar, no_marks};

use crate::visits::{Places, least_edge, lower};
use sheet::Edge;

// The turn from the way that an edge came to the way that another one leaves from there.
fn turn(edges: &[i32], arriving: usize, leaving: usize) -> i64
    requires list { EndsFit edges.now (edges_in edges.now) × (arriving < edges_in edges.now) × (leaving < edges_in edges.now) }
    requires meet { (drawing_of edges.now).tail leaving ≡ (drawing_of edges.now).head arriving }
    ensures { result ≡ cross ((drawing_of edges.now).back arriving) ((drawing_of edges.now).ahead leaving) }
{
    let came = Edge::at(edges, arriving);
    let goes = Edge::at(edges, leaving);
    corner::turn(came.head, came.tail, goes.head)
}

// What is done at a place with four ends. They stand by kind: up and away from it, down and away, from above to it, from below to it. Below and above, one
// turns the same way from the arriving edge to the leaving one where the four alternate. The two lower ones do not join where that way is above 0.
fn at_four(
    edges: &[i32],
    words: &[u64],
    from: usize,
    apart: &mut [bool],
    found: Option<usize>,
) -> Option<usize>
    requires place { SoundEnds edges.now words.now (edges_in edges.now) × AtPlace words.now (2 * edges_in edges.now) from (from + 4) }
    requires found { CornersSoFar edges.now words.now (edges_in edges.now) from found apart.old }
    ensures { CornersSoFar edges.now words.now (edges_in edges.now) (from + 4) result apart.new }
{
    let arriving = ends::edge_of(words[from + 3]);
    let leaving = ends::edge_of(words[from + 1]);
    let incoming = ends::edge_of(words[from + 2]);
    let outgoing = ends::edge_of(words[from]);
    let low = turn(edges, arriving, leaving);
    let high = turn(edges, incoming, outgoing);
    if !corner::alternate(low, high) {
        return lower(found, least_edge(words, from, from + 4, |_| true));
    }
    if low > 0 {
        apart[arriving] = true;
        apart[leaving] = true;
    }
    found
}

// What is done at a place, whose ends stand from `from` to `to`: with two ends there is nothing to do. What is handed over goes one by one, as `CornersSoFar`
// speaks of it.
fn at_place(
    edges: &[i32],
    words: &[u64],
    from: usize,
    to: usize,
    apart: &mut [bool],
    found: Option<usize>,
) -> Option<usize>
    requires place { SoundEnds edges.now words.now (edges_in edges.now) × AtPlace words.now (2 * edges_in edges.now) from to }
    requires found { CornersSoFar edges.now words.now (edges_in edges.now) from found apart.old }
    ensures { CornersSoFar edges.now words.now (edges_in edges.now) to result apart.new }
{
    if to - from == 4 {
        at_four(edges, words, from, apart, found)
    } else {
        found
    }
}

// The walk over all the ends in order. Finds the least edge with an end at a place that 17 is given for.
pub fn walk(edges: &[i32], words: &[u64], apart: &mut [bool]) -> Option<usize>
    requires list { SoundEnds edges.now words.now (edges_in edges.now) × (length words.now ≡ 2 * edges_in edges.now) }
    requires marks { apart.old ≡ no_marks }
    ensures { CornersSoFar edges.now words.now (edges_in edges.now) (2 * edges_in edges.now) result apart.new }
{
    let mut found = None;
    for (from, to) in (Places { words, from: 0 }) {
        found = at_place(edges, words, from, to, apart, found);
    }
    found
}
