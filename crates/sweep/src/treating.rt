// An edge of any level treated: step 1 finds or opens its chain's row, steps 2 and 3 attach it, step 4 finishes branches that meet, and frees and passes up
// each row that is finished on both sides. A row passed up is an edge of the next level, so raising it calls itself one level up, with one level less left.
// Beside the rows lie the index and the counts, which spare searches (crate finding); what they rest on is handed on as it is.
ghost use Rattle.std.specs.Prelude.{◌≡◌, ◌+◌, ◌-◌, ◌≤◌, ◌<◌, ◌↔◌, IsTrue, Ok, max, length, get_or};
ghost use Rattle.steps.specs.Rows.{on, other_side};
ghost use Rattle.steps.specs.SweepUp as up;
ghost use Rattle.steps.specs.SweepUp.{levels};
ghost use Rattle.rows.specs.Layout.{HasRow, look_row, opened_in, moved_in};
ghost use Rattle.finding.specs.Free.{peak_in};
ghost use Rattle.finding.specs.Index.{tip_at, numbered_in};
ghost use Rattle.journal.specs.Layout.{records_in};
ghost use Rattle.sweep.specs.Slices.{edge_of, number_below};
ghost use Rattle.sweep.specs.Beside.{Opened, HasFound, Meets};

use crate::NamedEdge;
use finding::{free, index};
use steps::{Halt, Side};

// The largest length that a row holds.
const MOST_LENGTH: u64 = 2_147_483_647;

// The levels that an edge of the list has above it.
const LEVELS: u32 = 12;

// The functions that write rows and index stand beside the methods: tried as methods, which read `self.rows` while `self.index` is lent, and the proof did not close.
// What is inlined was measured: where it is not, the sweep up takes half as many instructions again.

// An offset with its sign: a minus on the falling side.
fn signed(side: Side, n: u32) -> i32
    requires { n < 2147483648 }
    ensures { result ≡ up.signed side n }
{
    match side {
        Side::Rising => n as i32,
        Side::Falling => 0 - n as i32,
    }
}

// The lowest free row opened at an edge's bottom, where the edge works on the side: its tip there is moved at once, and not marked. As the rows below it are in
// use, its name tells the peak.
#[inline(never)]
fn open_lowest(
    rows: &mut [i32],
    index: &mut [u16],
    counts: &mut [u64],
    r: usize,
    level: u32,
    side: Side,
    e: NamedEdge,
)
    requires { HasRow rows.old r × (level < 2147483647) × (3 ≤ length counts.old) }
    ensures rows_after { rows.new ≡ opened_in rows.old r level (up.bottom side (edge_of e)) }
    ensures opened { Opened rows.old index.old counts.old r side (up.bottom side (edge_of e)) (number_below side e) rows.new index.new counts.new }
{
    let number = e.bottom_number(side);
    rows::open_row(rows, r, level, e.bottom(side));
    index::set_number(rows, index, r, Side::Rising, number);
    index::set_number(rows, index, r, Side::Falling, number);
    index::mark(rows, index, level, side.other(), number, r);
    free::take(counts, r);
    counts[free::PEAK] = counts[free::PEAK].max((r + 1) as u64);
}

// A tip moved to an edge's top, with its number and the chain's new length. It is not marked yet: it may be finished at once.
fn move_tip(rows: &mut [i32], index: &mut [u16], r: usize, side: Side, e: NamedEdge, length: u32)
    requires { HasRow rows.old r × (length < 2147483648) }
    ensures rows_after { rows.new ≡ moved_in rows.old r side (up.top side (edge_of e)) length }
    ensures index_after { index.new ≡ numbered_in index.old r side (number_below (other_side side) e) }
{
    let other = side.other();
    rows::move_tip(rows, r, side, e.bottom(other), length);
    index::set_number(rows, index, r, side, e.bottom_number(other));
}

// The end of step 4: with no row that meets it, the tip of row r at an edge's top is marked; otherwise both branches are finished. The answer is the two rows then.
fn meet(
    rows: &mut [i32],
    index: &mut [u16],
    level: u32,
    side: Side,
    e: NamedEdge,
    r: usize,
    found: Option<usize>,
) -> Option<(usize, usize)>
    requires { HasRow rows.old r × HasFound rows.old found }
    ensures { Meets rows.old index.old level side e r found result rows.new index.new }
{
    let other = side.other();
    let Some(q) = found else {
        index::mark(rows, index, level, side, e.bottom_number(other), r);
        return None;
    };
    rows::finish(rows, q, other);
    rows::finish(rows, r, side);
    Some((q, r))
}

// A sweep up on its way: the rows and the journal that it fills, the index and the counts beside the rows, and how many records are written. Its methods take level,
// side and edge one by one, as the steps do.
#[derive(Drop)]
pub struct Writer<'a> {
    pub rows: &'a mut [i32],
    pub journal: &'a mut [i32],
    pub index: &'a mut [u16],
    pub counts: &'a mut [u64],
    pub records: usize,
    ghost counted: { 3 ≤ length counts.now },
}

impl<'a> Writer<'a> {
    ghost use Rattle.sweep.specs.Treated.{slices, room_of, state_of, SameLent, OnlyWritten, Found, Met, Free, Chained, Attached, Stepped, Numbered, Treated};

    // Whether the journal holds no record more.
    fn is_full(&self) -> bool
        ensures { IsTrue result ↔ records_in self.now.journal.now ≤ self.now.records }
    {
        journal::records_in(self.journal) <= self.records
    }

    // As many rows as were ever in use at once.
    pub fn peak(&self) -> usize
        ensures { result ≡ peak_in self.now.counts.now }
    {
        self.counts[free::PEAK] as usize
    }

    // A closing edge: only a record.
    #[inline(always)]
    fn close(&mut self, level: u32, e: NamedEdge) -> Result<(), Halt>
        requires { e.falling < 2147483648 }
        ensures lent { SameLent self.old self.new }
        ensures beside { OnlyWritten (slices self.old) (slices self.new) }
        ensures closed { state_of (slices self.new) result ≡ up.close (room_of (slices self.old)) (state_of (slices self.old) (Ok tt)) level (edge_of e) }
    {
        if self.is_full() {
            return Err(Halt::Overrun);
        }
        journal::write(
            self.journal,
            self.records,
            level,
            e.name,
            None,
            e.falling as i32,
        );
        self.records += 1;
        Ok(())
    }

    // The row whose branch on the side has its tip at the place of an edge's bottom there; on the edge's other side that is its top.
    #[inline(always)]
    fn find(&self, level: u32, side: Side, e: NamedEdge) -> Option<usize>
        requires { level < 2147483647 }
        ensures { Found (slices self.now) level side e result }
    {
        let slot = index::slot(level, side, e.bottom_number(side));
        index::find(
            self.rows,
            self.index,
            self.counts,
            level,
            side,
            e.bottom(side),
            slot,
        )
    }

    // Step 4's search: the row whose other branch has its tip at the place of an edge's top; none where that place is apart.
    #[inline(always)]
    fn meeting(&self, level: u32, side: Side, e: NamedEdge) -> Option<usize>
        requires { level < 2147483647 }
        ensures { Met (slices self.now) level side e result }
    {
        if e.apart {
            return None;
        }
        self.find(level, side.other(), e)
    }

    // The lowest free row.
    fn lowest_free(&self) -> Result<usize, Halt>
        ensures { Free (slices self.now) result }
    {
        let free = free::lowest_free(self.rows, self.counts);
        if free < rows::rows_in(self.rows) {
            return Ok(free);
        }
        Err(Halt::NoFreeRow)
    }

    // Step 1: the row of an edge's chain, found or opened.
    #[inline(always)]
    fn chain_row(&mut self, level: u32, side: Side, e: NamedEdge) -> Result<usize, Halt>
        requires { level < 2147483647 }
        ensures lent { SameLent self.old self.new }
        ensures chained { Chained (slices self.old) level side e result (slices self.new) }
    {
        let Some(found) = self.find(level, side, e) else {
            let r = self.lowest_free()?;
            open_lowest(self.rows, self.index, self.counts, r, level, side, e);
            return Ok(r);
        };
        Ok(found)
    }

    // The length of a row's branch.
    fn length_of(&self, r: usize, side: Side) -> u32
        requires { HasRow self.now.rows.now r }
        ensures { (result ≡ (on side (look_row self.now.rows.now r).branch).length) × (result < 2147483648) }
    {
        rows::length_of(self.rows, r, side)
    }

    // Steps 2 and 3: the record, and the tip moved to the edge's top.
    #[inline(always)]
    fn attach(&mut self, level: u32, side: Side, e: NamedEdge, r: usize) -> Result<(), Halt>
        requires { HasRow self.old.rows.now r }
        ensures lent { SameLent self.old self.new }
        ensures attached { Attached (slices self.old) level side e r result (slices self.new) }
    {
        if self.is_full() {
            return Err(Halt::Overrun);
        }
        let before = self.length_of(r, side);
        let longer = u64::from(before) + u64::from(e.falling) + u64::from(e.rising);
        if MOST_LENGTH < longer {
            return Err(Halt::Overrun);
        }
        let offset = signed(side, before + e.length(side.other()));
        journal::write(self.journal, self.records, level, e.name, Some(r), offset);
        self.records += 1;
        move_tip(self.rows, self.index, r, side, e, longer as u32);
        Ok(())
    }

    // The four steps of an edge whose ends differ, at most as far as two branches met and are finished. The answer is their rows, which may now be passed up.
    #[inline(always)]
    fn step(&mut self, level: u32, e: NamedEdge) -> Result<Option<(usize, usize)>, Halt>
        requires { level < 2147483647 }
        ensures lent { SameLent self.old self.new }
        ensures stepped { Stepped (slices self.old) level e result (slices self.new) }
    {
        let side = e.side();
        let r = self.chain_row(level, side, e)?;
        self.attach(level, side, e, r)?;
        let found = self.meeting(level, side, e);
        Ok(meet(self.rows, self.index, level, side, e, r, found))
    }

    // A row with both branches finished, as an edge of the next level.
    fn as_edge(&self, r: usize) -> NamedEdge
        requires { HasRow self.now.rows.now r }
        ensures edge { (edge_of result ≡ up.as_edge r (look_row self.now.rows.now r)) × (result.falling < 2147483648) }
        ensures numbers { (result.tails ≡ get_or self.now.index.now (tip_at r Side.Falling) 0) × (result.heads ≡ get_or self.now.index.now (tip_at r Side.Rising) 0) }
    {
        let falling_tip = rows::tip_of(self.rows, r, Side::Falling);
        let rising_tip = rows::tip_of(self.rows, r, Side::Rising);
        NamedEdge {
            name: r,
            tail: falling_tip.point,
            head: rising_tip.point,
            film: falling_tip.film,
            rising: rows::length_of(self.rows, r, Side::Rising),
            falling: rows::length_of(self.rows, r, Side::Falling),
            apart: false,
            tails: index::number_of(self.rows, self.index, r, Side::Falling),
            heads: index::number_of(self.rows, self.index, r, Side::Rising),
        }
    }

    // An edge of the list. Equal ends close an outline; any other edge goes into the row found, or a free one. As `raise` treats an edge, at level 0: out of the
    // recursion, so that it goes into the loop over the list.
    pub fn treat_first(&mut self, e: NamedEdge) -> Result<(), Halt>
        requires { e.falling < 2147483648 }
        ensures lent { SameLent self.old self.new }
        ensures treated { Treated (λ number. Numbered number (slices self.old) e) (slices self.old) (slices self.new) result (up.treat (room_of (slices self.old)) levels 0 (state_of (slices self.old) (Ok tt)) (edge_of e)) }
    {
        if e.tail.same(e.head) {
            return self.close(0, e);
        }
        let Some((q, r)) = self.step(0, e)? else {
            return Ok(());
        };
        self.pass_both(0, LEVELS, q, r)
    }

    // The row found, then this row; once where they are one. Each is passed up where both its branches are finished. Level and levels left go side by side: that
    // the left ones fall is a form that 01 asks for.
    #[cycle(pass_both_pass_up_raise)]
    fn pass_both(&mut self, level: u32, left: u32, q: usize, r: usize) -> Result<(), Halt>
        requires { HasRow self.old.rows.now q × HasRow self.old.rows.now r × (level + left ≡ levels) × (0 < left) }
        ensures lent { SameLent self.old self.new }
        ensures treated { Treated (λ number. (q < peak_in self.old.counts.now) × (r < peak_in self.old.counts.now)) (slices self.old) (slices self.new) result (up.pass_both (room_of (slices self.old)) (up.treat (room_of (slices self.old)) (left - 1) (level + 1)) (state_of (slices self.old) (Ok tt)) q r) }
    {
        self.pass_up(level, left, q)?;
        if q == r {
            return Ok(());
        }
        self.pass_up(level, left, r)
    }

    // Whether both branches of a row are finished.
    fn is_finished(&self, r: usize) -> bool
        requires { HasRow self.now.rows.now r }
        ensures { result ≡ up.both_finished (look_row self.now.rows.now r) }
    {
        rows::both_finished(self.rows, r)
    }

    // A row passed up where both its branches are finished. Most are not: the test stands before the call.
    #[cycle(pass_both_pass_up_raise)]
    fn pass_up(&mut self, level: u32, left: u32, r: usize) -> Result<(), Halt>
        requires { HasRow self.old.rows.now r × (level + left ≡ levels) × (0 < left) }
        ensures lent { SameLent self.old self.new }
        ensures treated { Treated (λ number. r < peak_in self.old.counts.now) (slices self.old) (slices self.new) result (up.pass_up (room_of (slices self.old)) (up.treat (room_of (slices self.old)) (left - 1) (level + 1)) (state_of (slices self.old) (Ok tt)) r) }
    {
        if !self.is_finished(r) {
            return Ok(());
        }
        self.raise(level, left, r)
    }

    // A row freed and treated as an edge of the next level. Its edge is read first: once free, the row may be opened again.
    #[cycle(pass_both_pass_up_raise)]
    fn raise(&mut self, under: u32, above: u32, r: usize) -> Result<(), Halt>
        requires { HasRow self.old.rows.now r × (under + above ≡ levels) × (0 < above) }
        ensures lent { SameLent self.old self.new }
        ensures treated { Treated (λ number. r < peak_in self.old.counts.now) (slices self.old) (slices self.new) result (up.treat (room_of (slices self.old)) (above - 1) (under + 1) (up.free (room_of (slices self.old)) (state_of (slices self.old) (Ok tt)) r) (up.as_edge r (look_row self.old.rows.now r))) }
    {
        let e = self.as_edge(r);
        rows::free_row(self.rows, r);
        free::give_back(self.counts, r);
        let level = under + 1;
        let left = above - 1;
        if e.tail.same(e.head) {
            return self.close(level, e);
        }
        if left == 0 {
            return Err(Halt::Overrun);
        }
        let Some((q, s)) = self.step(level, e)? else {
            return Ok(());
        };
        self.pass_both(level, left, q, s)
    }
}
