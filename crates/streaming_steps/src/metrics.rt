// The metrics of a symbol: add, compare, select; and normalisation.
ghost use Rattle.std.specs.Prelude.{◌≡◌, ◌^◌, ◌≤◌, length};
ghost use Rattle.refusal.specs.Lent.{lent};
ghost use Rattle.trellis.specs.Choice.{k5};
ghost use Rattle.streaming_steps.specs.Steps.{least_of, lowered, normalised};
ghost use Rattle.streaming_steps.specs.Inner.{SelectsNew, NormalisedAfter};

use crate::Front;
use crate::sent::SENT;
use best_path::select::better_of;
use butterflies::smallest::{MARK, Smallest};
use symbols::Phasor;
use symbols::forward_pass::step;

// One symbol: the new metrics go to next, the survivors to the front of froms.
pub fn select(re: f32, im: f32, pm: &[f32; 16], next: &mut [f32; 16], froms: &mut [u8])
    requires { 2 ^ k5.width ≤ length froms.old }
    ensures { SelectsNew pm.now re im (lent next) (lent froms) }
{
    step(
        trellis::conv_code(0),
        &SENT,
        Phasor { re, im },
        pm,
        next,
        froms,
    );
}

// The least reachable metric, and the mark where none is reachable.
fn least_of(pm: &[f32; 16]) -> f32
    ensures { result ≡ least_of pm.now (2 ^ k5.width) }
{
    let mut least = MARK;
    for &m in pm {
        least = better_of::<Smallest>(least, m);
    }
    least
}

// A metric with the least one subtracted, where it is reachable.
fn lower(least: f32, m: f32) -> f32
    ensures { result ≡ lowered least m }
{
    if m < MARK { m - least } else { m }
}

// The least reachable metric, if above 0, is subtracted from each reachable one.
fn subtract_least(pm: &mut [f32; 16])
    ensures { pm.new ≡ normalised (2 ^ k5.width) pm.old }
{
    let least = least_of(pm);
    if 0.0 < least {
        for m in pm {
            *m = lower(least, *m);
        }
    }
}

// Normalisation when the old count mod 256 is 255: the front by value, its counters as they come.
pub fn normalise_after(turn: u8, front: Front) -> Front
    ensures { NormalisedAfter turn front result }
{
    if turn == 255 {
        let mut pm = front.pm;
        subtract_least(&mut pm);
        return Front { pm, ..front };
    }
    front
}
