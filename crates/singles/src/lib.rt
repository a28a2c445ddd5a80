// Single-precision numbers that are exact: what operations on them give where nothing is rounded.
#![tactic(auto)]

ghost use Rattle.std.specs.Prelude.{◌≡◌, ◌≤◌, nat_abs};
ghost use Rattle.singles.specs.Singles.{Exactly, single};

// A whole number as a single-precision number.
pub fn whole(v: i32) -> f32
    requires { nat_abs v ≤ 16777216 }
    ensures nearest { result ≡ single v 1 }
    ensures exact { Exactly result v 1 }
{
    v as f32
}
