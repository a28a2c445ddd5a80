// The two machines: a point of the list as the place that each of them takes, in millimetres. A unit of the list is 1/64 mm.
ghost use Rattle.std.specs.Prelude.{◌≡◌, true, ◌≤◌, nat_abs, neg_ℤ};
ghost use Rattle.sheet.specs.Points.{in_range};
ghost use Rattle.cutter.specs.Places.{millimetres_of, place_for};

use sheet::Point;

#[derive(Clone, Copy, Debug, PartialEq, Eq)]
pub enum Machine {
    Flatbed,
    RollFeeder,
}

// Two numbers in the machine's own order.
#[derive(Clone, Copy, Debug, PartialEq)]
pub struct Place {
    pub first: f32,
    pub second: f32,
}

impl Machine {
    // The flatbed takes x and y, the roll feeder y and then x negated. The whole number is negated, so that zero stays plus zero.
    pub fn place_for(self, point: Point) -> Place
        requires { in_range point ≡ true }
        ensures { result ≡ place_for self point }
    {
        match self {
            Machine::Flatbed => Place {
                first: millimetres(point.x),
                second: millimetres(point.y),
            },
            Machine::RollFeeder => Place {
                first: millimetres(point.y),
                second: millimetres(-point.x),
            },
        }
    }
}

// v units in millimetres.
fn millimetres(v: i32) -> f32
    requires { nat_abs v ≤ 1000000 }
    ensures { result ≡ millimetres_of v }
{
    singles::whole(v) / 64.0
}
