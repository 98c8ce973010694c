// The history: survivors kept, and the way back over them.
ghost use Rattle.std.specs.Prelude.{cond, ◌≡◌, ◌^◌, ◌<◌};
ghost use Rattle.best_path.specs.Run.{input_into};
ghost use Rattle.butterflies.specs.Smallest.{smallest};
ghost use Rattle.refusal.specs.Lent.{lent};
ghost use Rattle.trellis.specs.Choice.{k5};
ghost use Rattle.streaming_steps.specs.Inner.{RowAt, Keeps, InHistory, LiesBehind};

use crate::LAG;
use butterflies::smallest::MARK;

// The survivor of a state of metric m, and the old entry where no candidate won.
fn survivor(m: f32, new: u8, old: u8) -> u8
    ensures { result ≡ cond (smallest.reached m) new old }
{
    if m < MARK { new } else { old }
}

// The survivors of the states that a candidate won go to the row from `at` on.
pub fn keep(pm: &[f32; 16], froms: &[u8; 16], at: usize, history: &mut [u8; 2048])
    requires { RowAt at }
    ensures { Keeps pm.now froms.now at (lent history) }
{
    // Lent as slices, the arrays tell their lengths. By index: of what is written through a zip a proof knows the
    // length and no content.
    let mets = &pm[..];
    let news = &froms[..];
    let whole = &history[..];
    for s in 0..16 {
        history[at + s] = survivor(pm[s], froms[s], history[at + s]);
    }
}

// The state that lies the lag behind s, whose survivor stands in a row.
pub fn state_behind(history: &[u8; 2048], row: usize, s: usize) -> usize
    requires { InHistory row s }
    ensures { LiesBehind history.now row s result }
{
    // Lent as a slice, the array tells its length.
    let whole = &history[..];
    // The row is stepped by hand: it goes backwards round the 128 rows.
    let mut row = row;
    let mut s = s;
    for _ in 0..LAG {
        s = (history[16 * row + s] % 16) as usize;
        row = (row + 127) % 128;
    }
    s
}

// The input that leads to a state.
pub fn top_bit(s: usize) -> u8
    requires { s < 2 ^ k5.width }
    ensures { result ≡ input_into smallest k5 s }
{
    u8::from(8 <= s)
}
