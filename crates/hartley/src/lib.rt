// The theory of the two sweeps: for a checked list the steps give every edge its polygon and sequence number, within the rows and records that the paper
// allows. proofs/ has a folder for each part of the argument, in the order of proofs/Lib.antt: paths, seams between them, the invariant, bounds, one step,
// results; results/Results.antt has the theorems. The function here is the bound of levels that the theory shows to be enough.
#![tactic(auto)]

ghost use Rattle.std.specs.Prelude.{◌≡◌};
ghost use Rattle.steps.specs.SweepUp.{levels};

// The highest level that an edge may have.
fn highest_level() -> usize
    ensures { result ≡ levels }
{
    12
}
