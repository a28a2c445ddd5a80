// The words that the steps and the code share: a branch's side, why a treatment ends early.
#![tactic(auto)]

ghost use Rattle.std.specs.Prelude.{◌≡◌};
ghost use Rattle.steps.specs.Rows.{other_side};

#[derive(Clone, Copy, Debug, PartialEq, Eq)]
pub enum Side {
    Rising,
    Falling,
}

impl Side {
    pub fn other(self) -> Side
        ensures { result ≡ other_side self }
    {
        match self {
            Side::Rising => Side::Falling,
            Side::Falling => Side::Rising,
        }
    }
}

// Why treating an edge ended early: step 1 found no free row; or the levels, the journal or the lengths ran out, which no checked list makes happen.
#[derive(Clone, Copy, Debug, PartialEq, Eq)]
pub enum Halt {
    NoFreeRow,
    Overrun,
}
