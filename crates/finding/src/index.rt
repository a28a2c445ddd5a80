// The index beside the rows: for each place, by its number, which row has a tip there; specs/Index.antt says it. A search looks at one slot and at one row; only
// where rows crowd a slot does it look at all of them. Rows and index go one by one: rows are read while the index is written.
ghost use Rattle.std.specs.Prelude.{◌≡◌, ℕ, ◌≤◌, ◌<◌, length, get_or};
ghost use Rattle.steps.specs.SweepUp.{found_below};
ghost use Rattle.rows.specs.Layout.{HasRow, has_tip_in};
ghost use Rattle.finding.specs.Free.{peak_in};
ghost use Rattle.finding.specs.Index.{upper, slot_of, tip_at, owner_in, numbered_in, live_in, told_by, number_told, crowds, marked_in, look_at, told};

use crate::free::PEAK;
use rows::{Place, has_tip, is_finished, is_used, level_of, rows_in};
use steps::Side;

// How many numbers the index has for a place and a row.
pub const BLOCK: usize = 6;

// The number in a slot where more than one row is live.
const CROWDED: u16 = u16::MAX;

// What a slot tells, whose number lies in the lent index: that no row has such a tip, the one that has, or that there may be several.
#[derive(Clone, Copy)]
enum Told {
    Nobody,
    Row(usize),
    Crowded,
}

impl From<u16> for Told {
    ghost from_gives = { λ number told. told ≡ told_by number };

    fn from(number: u16) -> Told {
        match number {
            0 => Told::Nobody,
            CROWDED => Told::Crowded,
            _ => Told::Row(usize::from(number) - 1),
        }
    }
}

// A row past the numbers that a slot holds is not told alone.
impl From<Told> for u16 {
    ghost from_gives = { λ told number. number ≡ number_told told };

    fn from(told: Told) -> u16 {
        match told {
            Told::Nobody => 0,
            Told::Row(row) => u16::try_from(row.saturating_add(1)).unwrap_or(CROWDED),
            Told::Crowded => CROWDED,
        }
    }
}

// Tips of level 0 have slots of their own: most are of that level.
fn upper(level: u32) -> usize
    ensures { (result ≡ upper level) × (result ≤ 2) }
{
    if level == 0 { 0 } else { 2 }
}

// The slot of a tip at the place with a number.
pub fn slot(level: u32, side: Side, number: u16) -> usize
    ensures { result ≡ slot_of level side number }
{
    let first = BLOCK * usize::from(number) + upper(level);
    match side {
        Side::Rising => first,
        Side::Falling => first + 1,
    }
}

// Where the number of a tip's place stands.
fn tip_at(rows: &[i32], r: usize, side: Side) -> usize
    requires { HasRow rows.now r }
    ensures { result ≡ tip_at r side }
{
    match side {
        Side::Rising => BLOCK * r + 4,
        Side::Falling => BLOCK * r + 5,
    }
}

// The number of the place where a row has its tip.
pub fn number_of(rows: &[i32], index: &[u16], r: usize, side: Side) -> u16
    requires { HasRow rows.now r }
    ensures { result ≡ get_or index.now (tip_at r side) 0 }
{
    index.get(tip_at(rows, r, side)).copied().unwrap_or(0)
}

// A row's tip is now at the place with the number.
pub fn set_number(rows: &[i32], index: &mut [u16], r: usize, side: Side, number: u16)
    requires { HasRow rows.now r }
    ensures { index.new ≡ numbered_in index.old r side number }
{
    let i = tip_at(rows, r, side);
    // By index: of an element that `get_mut` lends no proof learns what it is written.
    if i < index.len() {
        index[i] = number;
    }
}

// The first row below the peak with a tip, every row looked at. It stays a function of its own when it is compiled, so that the search by a slot, which rarely
// needs it, is short enough to go where it is called.
#[inline(never)]
fn scan(rows: &[i32], peak: usize, level: u32, side: Side, tip: Place) -> Option<usize>
    requires { level < 2147483647 }
    ensures { result ≡ found_below (has_tip_in rows.now level side tip) peak }
{
    for r in 0..peak.min(rows_in(rows)) {
        if has_tip(rows, r, level, side, tip) {
            return Some(r);
        }
    }
    None
}

// What a slot tells.
fn owner(index: &[u16], peak: usize, i: usize) -> Told
    ensures { result ≡ told_by (owner_in index.now peak i) }
{
    if i < index.len() && peak <= index.len() / BLOCK {
        Told::from(index[i])
    } else {
        Told::Crowded
    }
}

// A row that a slot tells, where it has the tip and lies below the peak.
fn look_at(rows: &[i32], peak: usize, r: usize, level: u32, side: Side, tip: Place) -> Option<usize>
    requires { level < 2147483647 }
    ensures { result ≡ look_at rows.now peak level side tip r }
{
    let found = r < peak.min(rows_in(rows)) && has_tip(rows, r, level, side, tip);
    found.then_some(r)
}

// The first row below the peak with a tip, by its slot, or nothing. Level, side and place come one by one, as `has_tip_in` and `told` in specs/ take them.
pub fn find(
    rows: &[i32],
    index: &[u16],
    counts: &[u64],
    level: u32,
    side: Side,
    tip: Place,
    i: usize,
) -> Option<usize>
    requires { (level < 2147483647) × (1 < length counts.now) }
    ensures { result ≡ told (owner_in index.now (peak_in counts.now) i) rows.now (peak_in counts.now) level side tip }
{
    let peak = counts[PEAK] as usize;
    match owner(index, peak, i) {
        Told::Nobody => None,
        Told::Row(r) => look_at(rows, peak, r, level, side, tip),
        Told::Crowded => scan(rows, peak, level, side, tip),
    }
}

// Whether a row is live and has a tip in a slot.
fn is_live(rows: &[i32], index: &[u16], side: Side, i: usize, q: usize) -> bool
    ensures { result ≡ live_in rows.now index.now side i q }
{
    q < rows_in(rows)
        && is_used(rows, q)
        && !is_finished(rows, q, side)
        && slot(level_of(rows, q), side, number_of(rows, index, q, side)) == i
}

// Whether a slot is crowded once a row has a tip there too.
fn is_crowded(rows: &[i32], index: &[u16], side: Side, i: usize, r: usize) -> bool
    requires { i < length index.now }
    ensures { result ≡ crowds rows.now index.now side i r (get_or index.now i 0) }
{
    match Told::from(index[i]) {
        Told::Nobody => false,
        Told::Row(q) => q != r && is_live(rows, index, side, i, q),
        Told::Crowded => true,
    }
}

// A row's tip marked in the slot of its place. By index, since nothing is known of what is written through `get_mut`.
pub fn mark(rows: &[i32], index: &mut [u16], level: u32, side: Side, number: u16, r: usize)
    ensures { index.new ≡ marked_in rows.now index.old level side number r }
{
    let i = slot(level, side, number);
    if i < index.len() {
        let told = if is_crowded(rows, index, side, i, r) {
            Told::Crowded
        } else {
            Told::Row(r)
        };
        index[i] = u16::from(told);
    }
}
