// Add, compare, select: what two states lead to on either input, by metrics that are held in numbers of any type.
ghost use Rattle.std.specs.Prelude.{cond, ◌≡◌, ◌+◌, ◌<◌};
ghost use Rattle.best_path.specs.Pair.{Held, Addable, Sound, BestOf, Summable, Summed};

use crate::pair::{NewState, Wing};

// How metrics are held, and which of two is better. No candidate is worse than the least, and a state whose metric is
// not better than the floor was not reached.
pub trait Order {
    type Met: Copy;

    ghost held: { Held Self.Met };

    ghost LEAST: { Self.Met };

    const LEAST: Self::Met;

    ghost FLOOR: { Self.Met };

    const FLOOR: Self::Met;

    fn better(x: Self::Met, z: Self::Met) -> bool
        ensures { result ≡ held.better x z };

    // A candidate, of a state of metric m whose branch brings x.
    fn candidate(m: Self::Met, x: Self::Met) -> Self::Met
        requires { Addable held m x }
        ensures { result ≡ held.candidate m x };

    ghost sound: { Sound held LEAST FLOOR };
}

// The second where it is better.
pub fn better_of<O: Order>(z: O::Met, x: O::Met) -> O::Met
    ensures { result ≡ cond (O.held.better x z) x z }
{
    if O::better(x, z) { x } else { z }
}

// The state s + 1 where the second is better.
fn from_better<O: Order>(z: O::Met, x: O::Met, s: u8) -> u8
    requires { s < 255 }
    ensures { result ≡ cond (O.held.better x z) (s + 1) s }
{
    if O::better(x, z) { s + 1 } else { s }
}

// The best way into a state: the candidate x0 comes from the state s, x1 from s + 1.
fn best_of<O: Order>(x0: O::Met, x1: O::Met, s: u8) -> NewState<O::Met>
    requires { s < 255 }
    ensures { BestOf O.held O.LEAST O.FLOOR x0 x1 s result }
{
    let z = better_of::<O>(O::LEAST, x0);
    let met = better_of::<O>(z, x1);
    let from = from_better::<O>(z, x1, s);
    if O::better(met, O::FLOOR) {
        return NewState { met, from };
    }
    NewState { met, from: 0 }
}

// The states s and s + 1, of metrics m0 and m1. On the input 0 their branches bring x and y, on the
// input 1 y and x.
pub fn butterfly<O: Order>(m0: O::Met, m1: O::Met, s: u8, x: O::Met, y: O::Met) -> Wing<O::Met>
    requires { Summable O.held m0 m1 s x y }
    ensures { Summed O.held m0 m1 s x y result }
{
    let low = best_of::<O>(O::candidate(m0, x), O::candidate(m1, y), s);
    let high = best_of::<O>(O::candidate(m0, y), O::candidate(m1, x), s);
    Wing { low, high }
}
