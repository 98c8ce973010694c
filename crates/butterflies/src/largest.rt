// The order of f32 sums: the larger is better.
ghost use Rattle.std.specs.Prelude.{cond, ◌≡◌, eqb};
ghost use Rattle.std.specs.Float.Ieee.{neg};

use crate::or_nan;
use best_path::select::Order;

// f32::MIN / 2: at or below it a state was not reached.
pub const MARK: f32 = -1.70141173e38;

pub struct Largest;

impl Order for Largest {
    ghost use Rattle.butterflies.specs.Largest.{mark, largest};
    ghost use Rattle.butterflies.specs.Orderly.{floats_held};
    ghost use Rattle.butterflies.specs.Orders.{largest_sound};

    type Met = f32;

    ghost held = { floats_held largest };

    ghost LEAST = { mark };

    const LEAST: f32 = MARK;

    ghost FLOOR = { mark };

    const FLOOR: f32 = MARK;

    fn better(x: f32, z: f32) -> bool {
        z < x
    }

    fn candidate(m: f32, x: f32) -> f32 {
        or_nan(MARK < m, m) + x
    }

    ghost sound = { largest_sound };
}

// A reading, or its negative where the coded bit is 1.
pub fn signed(coded: u32, a: f32) -> f32
    ensures { result ≡ cond (eqb coded 0) a (neg a) }
{
    if coded < 1 { a } else { -a }
}
