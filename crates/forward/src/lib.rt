// The block decoder of readings that are f32s, as a decoder of any kind: how it reads a place, and a turn of its steps.
#![tactic(auto)]

ghost use Rattle.f32s.specs.Readings.{values_of};

use best_path::pair::Wing;
use best_path::select::butterfly;
use butterflies::largest::{Largest, MARK, signed};
use f32s::Readings;
use steps::Decoder;

// Sums of f32s, of which the larger wins.
pub struct Soft;

impl Decoder for Soft {
    ghost use Rattle.f32s.specs.Single.{zero32};
    ghost use Rattle.std.proofs.Common.{rules};
    ghost use Rattle.butterflies.specs.Largest.{mark};
    ghost use Rattle.forward.specs.Inner.{soft_held};
    ghost use Rattle.forward.specs.Sound.{soft_sound};

    type Number = f32;

    ghost held = { soft_held };

    ghost MARK = { mark };

    const MARK: f32 = MARK;

    ghost ZERO = { zero32 };

    const ZERO: f32 = 0.0;

    fn turn(c0: u32, c1: u32, a: f32, b: f32, m0: f32, m1: f32, s: u8) -> Wing<f32> {
        let x = signed(c0, a);
        let y = signed(c1, b);
        butterfly::<Largest>(m0, m1, s, x + y, -x - y)
    }

    ghost sound = { soft_sound };

    ghost fit = { Prim.search rules };
}

impl<'a> steps::Readings<Soft> for Readings<'a> {
    ghost readings = { values_of };

    fn value_at(&self, column: u8, at: usize) -> f32 {
        if column == 1 { self.finite_at(at) } else { 0.0 }
    }
}
