// The order of f32 costs: the smaller is better.
use crate::or_nan;
use best_path::select::Order;

// f32::MAX / 2: at or above it a state was not reached.
pub const MARK: f32 = 1.70141173e38;

pub struct Smallest;

impl Order for Smallest {
    ghost use Rattle.butterflies.specs.Smallest.{mark, smallest};
    ghost use Rattle.butterflies.specs.Orderly.{floats_held};
    ghost use Rattle.butterflies.specs.Orders.{smallest_sound};

    type Met = f32;

    ghost held = { floats_held smallest };

    ghost LEAST = { mark };

    const LEAST: f32 = MARK;

    ghost FLOOR = { mark };

    const FLOOR: f32 = MARK;

    fn better(x: f32, z: f32) -> bool {
        x < z
    }

    fn candidate(m: f32, x: f32) -> f32 {
        or_nan(m < MARK, m) + x
    }

    ghost sound = { smallest_sound };
}
