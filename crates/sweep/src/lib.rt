// The two sweeps over the lent slices. Every function is equal to the step of the crate steps that it does, on the slices of specs/, so that each
// contract gives every number that is left in a slice. Here are the values that the sweeps hand on.
#![tactic(auto)]

pub mod down;
mod treating;
pub mod up;

ghost use Rattle.std.specs.Prelude.{◌≡◌, ◌+◌, ◌≤◌};
ghost use Rattle.steps.specs.Rows.{on};
ghost use Rattle.steps.specs.SweepUp as up;
ghost use Rattle.rows.specs.Layout.{film_places};
ghost use Rattle.sweep.specs.Slices.{edge_of, number_below, is_done};

use rows::Place;
use sheet::Point;
use steps::{Halt, Side};

// How far a sweep up has come: the records written, the peak, and how the last treatment ended.
#[derive(Clone, Copy, Debug, PartialEq, Eq)]
pub struct Progress {
    pub records: usize,
    pub peak: usize,
    pub end: Result<(), Halt>,
}

impl Progress {
    pub fn is_done(self) -> bool
        ensures { result ≡ is_done self.end }
    {
        self.end.is_ok()
    }
}

// An edge of any level: its name, its ends, its film, its two lengths, whether its top is apart, and the numbers of the places of its ends.
#[derive(Clone, Copy)]
struct NamedEdge {
    name: usize,
    tail: Point,
    head: Point,
    film: i32,
    rising: u32,
    falling: u32,
    apart: bool,
    tails: u16,
    heads: u16,
}

impl NamedEdge {
    // An up edge works on the rising side of its chain.
    fn side(self) -> Side
        ensures { result ≡ up.side_of film_places (edge_of self) }
    {
        if self.tail.below(self.head) {
            Side::Rising
        } else {
            Side::Falling
        }
    }

    // The lower end, where the edge works on the side; on the other side that is the higher end.
    fn bottom(self, side: Side) -> Place
        ensures { result ≡ up.bottom side (edge_of self) }
    {
        let point = match side {
            Side::Rising => self.tail,
            Side::Falling => self.head,
        };
        Place {
            film: self.film,
            point,
        }
    }

    // The number of that place.
    fn bottom_number(self, side: Side) -> u16
        ensures { result ≡ number_below side self }
    {
        match side {
            Side::Rising => self.tails,
            Side::Falling => self.heads,
        }
    }

    fn length(self, side: Side) -> u32
        ensures { (result ≡ on side (edge_of self).length) × (result ≤ self.falling + self.rising) }
    {
        match side {
            Side::Rising => self.rising,
            Side::Falling => self.falling,
        }
    }
}

// What the loop over a list ended with: the progress, and the edge that was treated last.
#[derive(Clone, Copy, Debug, PartialEq, Eq)]
pub struct Swept {
    pub progress: Progress,
    pub edge: usize,
}
