// The three instructions, and what each makes of the head.
ghost use Rattle.std.specs.Prelude.{◌≡◌};
ghost use Rattle.cutter.specs.Blade.{advanced, head_over};

use crate::machines::Place;

#[derive(Clone, Copy, Debug, PartialEq)]
pub enum Instruction {
    Travel(Place),
    Cut(Place),
    Lift,
}

// Where the head stands, in millimetres, and whether the blade is down.
// Two numbers and not a place: 02 asks for a struct of two numbers and a bool (docs/RULES.md, forms, 2).
#[derive(Clone, Copy, Debug, PartialEq)]
pub struct Head {
    pub x: f32,
    pub y: f32,
    pub down: bool,
}

impl Head {
    // Travel leaves the blade up, cut down; lift raises it in place.
    pub fn advance(self, instruction: Instruction) -> Head
        ensures { result ≡ advanced self instruction }
    {
        match instruction {
            Instruction::Travel(place) => Head::over(place, false),
            Instruction::Cut(place) => Head::over(place, true),
            Instruction::Lift => Head {
                down: false,
                ..self
            },
        }
    }

    fn over(place: Place, down: bool) -> Head
        ensures { result ≡ head_over place down }
    {
        Head {
            x: place.first,
            y: place.second,
            down,
        }
    }
}
