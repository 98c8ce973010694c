// The two orders of f32 metrics: where the larger sum wins, and where the smaller cost does.
#![tactic(auto)]

ghost use Rattle.std.specs.Prelude.{cond, ◌≡◌};
ghost use Rattle.std.specs.Float.{nan};

pub mod largest;
pub mod smallest;

// A state's metric, or a NaN where it was not reached: a sum with that is a NaN too, which is never the
// better one. So a branch needs no test of its own, and the loop of a step is vectorised well.
fn or_nan(reached: bool, m: f32) -> f32
    ensures { result ≡ cond reached m nan }
{
    if reached { m } else { 0.0 / 0.0 }
}
