// Rows in the lent slice. How a row lies in its eight numbers is known here, and to the searches of the crate finding, which look at rows in place: specs/Layout.antt says
// it, and the functions here are proved equal to what the steps do with a table of rows laid out so.
#![tactic(auto, using(crate::proofs::Numbers::reads), unfolding(crate::specs::Layout::look_row, crate::specs::Layout::level_in, crate::specs::Layout::freed_number, crate::specs::Layout::freed_in, crate::specs::Layout::finished_in, crate::specs::Layout::film_in))]

ghost use Rattle.std.specs.Prelude.{◌≡◌, ◌+◌, ◌<◌, ◌&&◌, eqb, pos, negsuc, length, replicate, true};
ghost use Rattle.std.specs.Int.Signed.{lt_z, mag};
ghost use Rattle.steps.specs.Rows.{on};
ghost use Rattle.steps.specs.SweepUp.{both_finished};
ghost use Rattle.rows.specs.Layout.{HasRow, branch_at, level_in, freed_number, look_row, has_tip_in, opened_in, moved_in, finished_in, freed_in};
ghost use Rattle.steps.specs.Swept.{rows_in};

use sheet::Point;
use steps::Side;

// Functions take a row by its number in the slice as it is lent, and ask that the slice has it: the steps write two rows of one slice in turn, so a struct of slice and
// number would be made anew for each call, and each clause would say `row.entry.rows.now`. A level is asked to be below 2^31 - 1 wherever it is written or compared, as
// the row's first number is one more: a type would ask that of functions that don't need it.

// How many numbers a row has.
pub const NUMBERS: usize = 8;

// Which of them is its film.
const FILM: usize = 7;

// A point with a film. Edges meet only within a film.
#[derive(Clone, Copy, Debug, PartialEq, Eq)]
pub struct Place {
    pub point: Point,
    pub film: i32,
}

// How many rows a slice has.
pub fn rows_in(rows: &[i32]) -> usize
    ensures { result ≡ rows_in rows.now }
{
    rows.len() / NUMBERS
}

// Where a branch's numbers start. This, and `slot` and `tip_at` of the crate finding, are each a match on the side with amounts of their own: one function that is
// handed the amounts would be no plainer. So it is with the ends of `NamedEdge` in the crate sweep.
pub fn branch_at(rows: &[i32], r: usize, side: Side) -> usize
    requires { HasRow rows.now r }
    ensures { (result ≡ branch_at side r) × (result + 3 < length rows.now) }
{
    match side {
        Side::Rising => NUMBERS * r + 1,
        Side::Falling => NUMBERS * r + 4,
    }
}

// Whether a row is in use.
pub fn is_used(rows: &[i32], r: usize) -> bool
    requires { HasRow rows.now r }
    ensures { result ≡ (look_row rows.now r).used }
{
    rows[NUMBERS * r] > 0
}

// Whether a row is in use and of the level.
fn is_at_level(rows: &[i32], r: usize, level: u32) -> bool
    requires { HasRow rows.now r × (level < 2147483647) }
    ensures { result ≡ ((look_row rows.now r).used && eqb (look_row rows.now r).level level) }
{
    rows[NUMBERS * r] == level as i32 + 1
}

// Whether a row's branch on the side is finished.
pub fn is_finished(rows: &[i32], r: usize, side: Side) -> bool
    requires { HasRow rows.now r }
    ensures { result ≡ (on side (look_row rows.now r).branch).finished }
{
    rows[branch_at(rows, r, side) + 2] < 0
}

// Whether a row is in use and of the level, and its branch on the side is unfinished with its tip at the place. Level and finished mark come first, then the height
// alone, which differs in most rows: film and x are looked at only where it agrees, and a search past many rows so takes half the time.
#[tactic(auto, using(crate::proofs::Places::equal_same, crate::proofs::Places::height_first), unfolding(crate::specs::Layout::has_tip_in, steps::specs::SweepUp::has_tip))]
pub fn has_tip(rows: &[i32], r: usize, level: u32, side: Side, tip: Place) -> bool
    requires { HasRow rows.now r × (level < 2147483647) }
    ensures { result ≡ has_tip_in rows.now level side tip r }
{
    let place = tip_of(rows, r, side);
    is_at_level(rows, r, level)
        && !is_finished(rows, r, side)
        && place.point.y == tip.point.y
        && place == tip
}

// A row put into use, both tips at the place, both lengths 0, both branches unfinished.
pub fn open_row(rows: &mut [i32], r: usize, level: u32, tip: Place)
    requires { HasRow rows.old r × (level < 2147483647) }
    ensures { rows.new ≡ opened_in rows.old r level tip }
{
    let Point { x, y } = tip.point;
    let b = NUMBERS * r;
    let row = [level as i32 + 1, x, y, 0, x, y, 0, tip.film];
    rows[b..b + NUMBERS].copy_from_slice(&row);
}

// A branch's tip moved on its film, with a new length, unfinished.
pub fn move_tip(rows: &mut [i32], r: usize, side: Side, tip: Place, length: u32)
    requires { HasRow rows.old r × (length < 2147483648) }
    ensures { rows.new ≡ moved_in rows.old r side tip length }
{
    let Point { x, y } = tip.point;
    let b = branch_at(rows, r, side);
    rows[b..b + 3].copy_from_slice(&[x, y, length as i32]);
}

// The number that stands for the same length of a finished branch.
fn finished_number(z: i32) -> i32
    ensures { result ≡ negsuc (mag z) }
{
    if z < 0 { z } else { !z }
}

pub fn finish(rows: &mut [i32], r: usize, side: Side)
    requires { HasRow rows.old r }
    ensures { rows.new ≡ finished_in rows.old r side }
{
    let i = branch_at(rows, r, side) + 2;
    rows[i] = finished_number(rows[i]);
}

// A row's first number where the row is freed.
fn freed_number(z: i32) -> i32
    ensures { result ≡ freed_number z }
{
    if 0 < z { -z } else { z }
}

pub fn free_row(rows: &mut [i32], r: usize)
    requires { HasRow rows.old r }
    ensures { rows.new ≡ freed_in rows.old r }
{
    let i = NUMBERS * r;
    rows[i] = freed_number(rows[i]);
}

// The level that the first number of a row in use tells.
pub fn level_in(z: i32) -> u32
    requires { lt_z (pos 0) z ≡ true }
    ensures { result ≡ level_in z }
{
    z.unsigned_abs() - 1
}

// The level of a row in use.
pub fn level_of(rows: &[i32], r: usize) -> u32
    requires { HasRow rows.now r × ((look_row rows.now r).used ≡ true) }
    ensures { result ≡ (look_row rows.now r).level }
{
    level_in(rows[NUMBERS * r])
}

// The length that a branch's number tells, whether it is finished or not. Casts: neither is below 0, so nothing is lost.
fn length_in(z: i32) -> u32
    ensures { (result ≡ mag z) × (result < 2147483648) }
{
    if z < 0 { !z as u32 } else { z as u32 }
}

pub fn length_of(rows: &[i32], r: usize, side: Side) -> u32
    requires { HasRow rows.now r }
    ensures { (result ≡ (on side (look_row rows.now r).branch).length) × (result < 2147483648) }
{
    length_in(rows[branch_at(rows, r, side) + 2])
}

pub fn tip_of(rows: &[i32], r: usize, side: Side) -> Place
    requires { HasRow rows.now r }
    ensures { result ≡ (on side (look_row rows.now r).branch).tip }
{
    let b = branch_at(rows, r, side);
    Place {
        film: rows[NUMBERS * r + FILM],
        point: Point {
            x: rows[b],
            y: rows[b + 1],
        },
    }
}

pub fn both_finished(rows: &[i32], r: usize) -> bool
    requires { HasRow rows.now r }
    ensures { result ≡ both_finished (look_row rows.now r) }
{
    is_finished(rows, r, Side::Rising) && is_finished(rows, r, Side::Falling)
}

// Every number 0.
pub fn clear(rows: &mut [i32])
    ensures { rows.new ≡ replicate (length rows.old) (pos 0) }
{
    rows.fill(0);
}
