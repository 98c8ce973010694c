// The block decoder of signed bytes, as a decoder of any kind: how it reads a place, and a turn of its steps.
#![tactic(auto)]

use best_path::pair::Wing;
use steps::{Decoder, Readings};

// −2^30: a state that was not reached starts here.
const MARK: i32 = -1073741824;

// Whole sums of 32 bits, of which the larger wins.
pub struct Exact;

impl Decoder for Exact {
    ghost use Rattle.std.specs.Prelude.{pos, refl};
    ghost use Rattle.std.proofs.Common.{rules};
    ghost use Rattle.signed_forward.specs.Inner.{mark, exactly_held};
    ghost use Rattle.signed_forward.specs.Sound.{exactly_sound};

    type Number = i32;

    ghost held = { exactly_held };

    ghost MARK = { mark };

    const MARK: i32 = MARK;

    ghost ZERO = { pos 0 };

    const ZERO: i32 = 0;

    fn turn(c0: u32, c1: u32, a: i32, b: i32, m0: i32, m1: i32, s: u8) -> Wing<i32> {
        signed_butterflies::turn(c0, c1, a, b, m0, m1, s)
    }

    ghost sound = { exactly_sound mark refl refl };

    ghost fit = { Prim.search rules };
}

impl<'a> Readings<Exact> for &'a [i8] {
    ghost readings = { λ bytes. bytes.now };

    fn value_at(&self, column: u8, at: usize) -> i32 {
        if column == 1 {
            if at < self.len() {
                let reading = self[at];
                return reading as i32;
            }
        }
        0
    }
}
