// The sweep up: the edges of a list treated in order at level 0.
ghost use Rattle.std.specs.Prelude.{◌≡◌, ◌+◌, ◌*◌, ◌≤◌, ◌<◌, length, get_or, replicate};
ghost use Rattle.steps.specs.SweepUp.{sweep_up, start};
ghost use Rattle.sweep.specs.Slices.{lent_room, edge_of, progress, list_edges, TopsMarked, PlacesNumbered, swept};
ghost use Rattle.sheet.specs.Amounts.{numbers_per_edge};
ghost use Rattle.steps.specs.Swept.{numbers_per_record};

use crate::treating::Writer;
use crate::{NamedEdge, Progress, Swept};
use sheet::Edge;
use steps::Halt;

// For so few edges a short index and few counts do.
const FEW: usize = 32;

// What stands in the counts before the words: a place that no one uses, the peak and the first word worth a look. A word is for 64 rows. The places are
// numbers, and not fields, since `InUse` and `Indexed` of the crate finding speak of the counts as one list.
const FIRST_COUNTS: usize = 3;

// The first edges of a list: a mark tells whether an edge's top is apart, and two numbers which places its ends have.
// The count stands beside the list, which may not be cut to it: `sweep_up` promises which tops are apart by the whole list.
#[derive(Clone, Copy)]
pub struct Checked<'a> {
    pub edges: &'a [i32],
    pub count: usize,
    pub apart: &'a [bool],
    pub numbers: &'a [u16],
    ghost there: { (numbers_per_edge * count ≤ length edges.now) × (count ≤ length apart.now) × (2 * count ≤ length numbers.now) },
    ghost marked: { TopsMarked edges.now count apart.now },
}

impl<'a> Checked<'a> {
    // An edge of the list, named by its place: rising length 1, falling length 0. Whether its top is apart was found beforehand, and so were the numbers of its places.
    fn edge(&self, i: usize) -> NamedEdge
        requires { i < self.now.count }
        ensures { (edge_of result ≡ list_edges self.now.edges.now i) × (result.falling ≡ 0) × (result.tails ≡ get_or self.now.numbers.now (2 * i) 0) × (result.heads ≡ get_or self.now.numbers.now (2 * i + 1) 0) }
    {
        let edge = Edge::at(self.edges, i);
        NamedEdge {
            name: i,
            tail: edge.tail,
            head: edge.head,
            film: edge.film,
            rising: 1,
            falling: 0,
            apart: self.apart[i],
            tails: self.numbers[2 * i],
            heads: self.numbers[2 * i + 1],
        }
    }
}

impl<'a> Writer<'a> {
    ghost use Rattle.sweep.specs.Treated.{slices, room_of, SameLent};

    // What a sweep has come to, with the edge that was treated last.
    fn swept(&self, end: Result<(), Halt>, edge: usize) -> Swept
        ensures { result ≡ record { progress = progress self.now.records self.now.counts.now end; edge = edge } }
    {
        let progress = Progress {
            records: self.records,
            peak: self.peak(),
            end,
        };
        Swept { progress, edge }
    }

    // The edges of a list treated in order, until one is not done. Nothing is written yet, and all counts are zeros.
    fn treat_all(&mut self, list: Checked) -> Swept
        requires numbers { PlacesNumbered list.edges.now list.count list.numbers.now }
        requires unwritten { (self.old.records ≡ 0) × (self.old.counts.now ≡ replicate (length self.old.counts.now) 0) }
        ensures lent { SameLent self.old self.new }
        ensures result_after { swept self.new.rows.now self.new.journal.now result ≡ sweep_up (room_of (slices self.old)) (list_edges list.entry.edges.now) (start 0 self.old.rows.now self.old.journal.now) list.entry.count }
    {
        let mut edge = 0;
        for i in 0..list.count {
            match self.treat_first(list.edge(i)) {
                Ok(()) => edge = i,
                Err(halt) => return self.swept(Err(halt), i),
            }
        }
        self.swept(Ok(()), edge)
    }
}

// A list swept until an edge is not done. The index takes 48 KB of stack, and where there are few edges, 384 bytes.
pub fn sweep_up(list: Checked, journal: &mut [i32], rows: &mut [i32]) -> Swept
    requires numbers { PlacesNumbered list.edges.now list.count list.numbers.now }
    ensures result_after { swept rows.new journal.new result ≡ sweep_up (lent_room rows.old journal.old) (list_edges list.entry.edges.now) (start 0 rows.old journal.old) list.entry.count }
    ensures records_in_bounds { numbers_per_record * result.progress.records ≤ length journal.old }
{
    if list.count <= FEW {
        let mut few_index = [0u16; finding::index::BLOCK * FEW];
        let mut few_counts = [0u64; FIRST_COUNTS + 1];
        return sweep_list(list, &mut few_index, &mut few_counts, journal, rows);
    }
    let mut index = [0u16; finding::index::BLOCK * Edge::MOST];
    let mut counts = [0u64; FIRST_COUNTS + 64];
    sweep_list(list, &mut index, &mut counts, journal, rows)
}

// The same with an index and counts that are lent, all zeros. One function for both sizes: a const parameter would compile the sweep twice.
fn sweep_list(
    list: Checked,
    index: &mut [u16],
    counts: &mut [u64],
    journal: &mut [i32],
    rows: &mut [i32],
) -> Swept
    requires numbers { PlacesNumbered list.edges.now list.count list.numbers.now }
    requires counts { (3 ≤ length counts.old) × (counts.old ≡ replicate (length counts.old) 0) }
    ensures result_after { swept rows.new journal.new result ≡ sweep_up (lent_room rows.old journal.old) (list_edges list.entry.edges.now) (start 0 rows.old journal.old) list.entry.count }
    ensures records_in_bounds { numbers_per_record * result.progress.records ≤ length journal.old }
{
    let mut writer = Writer {
        rows,
        journal,
        index,
        counts,
        records: 0,
    };
    writer.treat_all(list)
}
