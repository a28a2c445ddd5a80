// 5, 16, 6 and 7: what is wrong with one edge, or with its top after the top of the edge before.
ghost use Rattle.std.specs.Prelude.{◌≡◌, ◌+◌, ◌*◌, ◌<◌, ◌≤◌, ℕ, Bool, Ok, IfSome, length};
ghost use Rattle.laws.specs.Counting.{IsFirst};
ghost use Rattle.sheet.specs.Edges.{edges_in};
ghost use Rattle.sheet.specs.Answers.{edge_fault, fault_of, refuse_first};
ghost use Rattle.checks.specs.Faults.{end_past_range, film_past, limits_passed, ends_equal, fault_alone};
ghost use Rattle.checks.specs.Stages.{edge_fault_alone, edges_checked, edges_alone_checked};
ghost use Rattle.sheet.specs.Amounts.{numbers_per_edge, most_edges};

use sheet::{Edge, Refusal};

// 5: an end is out of the range.
fn past_range(edge: Edge) -> bool
    ensures { result ≡ end_past_range edge }
{
    !(edge.tail.in_range() && edge.head.in_range())
}

// 16: the film is out of its range.
fn film_past_range(edge: Edge) -> bool
    ensures { result ≡ film_past edge }
{
    !edge.film_in_range()
}

// 6: both ends are one point.
fn equal_ends(edge: Edge) -> bool
    ensures { result ≡ ends_equal edge }
{
    edge.tail.same(edge.head)
}

// Whether an edge has 5 or 16.
fn past_limits(edge: Edge) -> bool
    ensures { result ≡ limits_passed edge }
{
    past_range(edge) || film_past_range(edge)
}

// Whether an edge has 5, 16 or 6.
fn alone_at_fault(edge: Edge) -> bool
    ensures { result ≡ fault_alone edge }
{
    past_limits(edge) || equal_ends(edge)
}

// The first edge with 5, 16, 6 or 7. Of an edge within the limits 6 and 7 are told by ranks: both ends have one, or the top's is lower than that of
// the top before. No rank is lower than 0, which stands before the first edge.
fn first_fault(edges: &[i32]) -> Option<usize>
    ensures { IsFirst (edge_fault edges.now) (edges_in edges.now) result }
{
    let mut last: u64 = 0;
    for e in 0..edges.len() / Edge::NUMBERS {
        let edge = Edge::at(edges, e);
        if past_limits(edge) {
            return Some(e);
        }
        let top = edge.top_rank();
        if edge.tail_rank() == edge.head_rank() || top < last {
            return Some(e);
        }
        last = top;
    }
    None
}

// The first edge with 5, 16 or 6.
fn first_alone(edges: &[i32]) -> Option<usize>
    ensures { IsFirst (edge_fault_alone edges.now) (edges_in edges.now) result }
{
    (0..edges.len() / Edge::NUMBERS).find(|&e| alone_at_fault(Edge::at(edges, e)))
}

// Which of the four an edge has that has one: 5 before 16, 16 before 6, and 7 where it is none of them.
fn fault_of(edges: &[i32], e: usize) -> Refusal
    requires { (numbers_per_edge * e + 4 < length edges.now) × (e < 4096) }
    ensures { result ≡ fault_of edges.now e }
{
    let edge = Edge::at(edges, e);
    let place = e as u32;
    match (past_range(edge), film_past_range(edge), equal_ends(edge)) {
        (true, _, _) => Refusal::PastRange(place),
        (_, true, _) => Refusal::FilmPastRange(place),
        (_, _, true) => Refusal::EqualEnds(place),
        _ => Refusal::TopFalls(place),
    }
}

// The refusal of the first edge with one of the four, where there is one.
fn refuse(edges: &[i32], first: Option<usize>) -> Result<(), Refusal>
    requires { (edges_in edges.now ≤ most_edges) × IfSome first (λ e. e < edges_in edges.now) }
    ensures { (test : ℕ → Bool) → IsFirst test (edges_in edges.now) first → result ≡ refuse_first test (edges_in edges.now) (fault_of edges.now) (Ok tt) }
{
    match first {
        Some(e) => Err(fault_of(edges, e)),
        None => Ok(()),
    }
}

// 5, 16 and 6 of a list that passes 2, for calls that don't ask for an order of the edges.
pub fn check_alone(edges: &[i32]) -> Result<(), Refusal>
    requires { edges_in edges.now ≤ most_edges }
    ensures { result ≡ edges_alone_checked edges.now }
{
    refuse(edges, first_alone(edges))
}

// 5, 16, 6 and 7 of a list that passes 2.
pub fn check(edges: &[i32]) -> Result<(), Refusal>
    requires { edges_in edges.now ≤ most_edges }
    ensures { result ≡ edges_checked edges.now }
{
    refuse(edges, first_fault(edges))
}
