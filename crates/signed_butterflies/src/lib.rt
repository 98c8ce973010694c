// The order of whole sums of 32 bits, of which the larger is better, and a turn of a step's loop by them.
#![tactic(auto)]

ghost use Rattle.std.specs.Prelude.{◌≡◌};
ghost use Rattle.signed_butterflies.specs.Held.{Byte, side, Turnable, Turned};

use best_path::pair::Wing;
use best_path::select::{Order, butterfly};

// −2^29 − 1: a state whose metric is not above it was not reached. Such a metric is added to like any other, and stays
// far below every sum; so a branch needs no test.
const FLOOR: i32 = -536870913;

struct Sums;

impl Order for Sums {
    ghost use Rattle.signed_butterflies.specs.Held.{least, under_floor, wholes_held};
    ghost use Rattle.signed_butterflies.specs.Sound.{wholes_sound};

    type Met = i32;

    ghost held = { wholes_held };

    ghost LEAST = { least };

    const LEAST: i32 = i32::MIN;

    ghost FLOOR = { under_floor };

    const FLOOR: i32 = FLOOR;

    fn better(x: i32, z: i32) -> bool {
        z < x
    }

    fn candidate(m: i32, x: i32) -> i32 {
        m + x
    }

    ghost sound = { wholes_sound };
}

// A reading, or its negative where the coded bit is 1. As of f32s; but here each operation is shown to fit, and one
// function over both would need a method for each operator.
fn signed(coded: u32, a: i32) -> i32
    requires { Byte a }
    ensures { result ≡ side coded a }
{
    if coded < 1 { a } else { -a }
}

// A turn of a step's loop: a butterfly, from the coded bits that the even state sends on the input 0, where the step
// reads a and b.
pub fn turn(c0: u32, c1: u32, a: i32, b: i32, m0: i32, m1: i32, s: u8) -> Wing<i32>
    requires { Turnable a b m0 m1 s }
    ensures { Turned c0 c1 a b m0 m1 s result }
{
    let x = signed(c0, a);
    let y = signed(c1, b);
    butterfly::<Sums>(m0, m1, s, x + y, -x - y)
}
