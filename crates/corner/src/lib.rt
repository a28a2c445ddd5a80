// Four edges at a point: the way one turns from one direction to another, and whether two turns go the same way.
#![tactic(auto)]

ghost use Rattle.std.specs.Prelude.{◌≡◌, true, ◌-ℤ◌};
ghost use Rattle.sheet.specs.Points.{in_range};
ghost use Rattle.sheet.specs.Turning.{sign, towards, cross};
ghost use Rattle.corner.specs.Turns.{alike};

use sheet::Point;

// How far it is from one coordinate to another.
fn gap(from: i32, to: i32) -> i64
    ensures { result ≡ to -ℤ from }
{
    i64::from(to) - i64::from(from)
}

// The turn at a point, from the direction of one point to that of another: below 0 where it goes clockwise, above 0 where it goes the other way.
// Coordinates in the range differ by at most 2,000,000. So each product is at most 4 * 10^12 and their difference at most 8 * 10^12, below 2^63.
pub fn turn(at: Point, from: Point, to: Point) -> i64
    requires { (in_range at ≡ true) × (in_range from ≡ true) × (in_range to ≡ true) }
    ensures { result ≡ cross (towards at from) (towards at to) }
{
    let from_right = gap(at.x, from.x);
    let from_up = gap(at.y, from.y);
    let to_right = gap(at.x, to.x);
    let to_up = gap(at.y, to.y);
    from_right * to_up - from_up * to_right
}

// Whether two turns go the same way, neither of them being none. Of the turns from arriving to leaving below and above a point, whether the four
// edges alternate round it.
pub fn alternate(low: i64, high: i64) -> bool
    ensures { result ≡ alike (sign low) (sign high) }
{
    low != 0 && low.signum() == high.signum()
}
