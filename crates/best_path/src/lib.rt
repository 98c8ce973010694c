// What the decoders share: what two states lead to, by metrics of any kind, and the way back over rows of survivors,
// which spells the word, for any code. The rest of this crate is definitions and laws over any metric and any code.
#![tactic(auto)]

ghost use Rattle.std.specs.Prelude.{cond, ◌++◌, ◌≡◌, ltb, length, drop};
ghost use Rattle.best_path.specs.Rows.{spelled, Traceable};

pub mod pair;
pub mod select;

use trellis::ConvCode;

// The way back over the rows of survivors, from the state `last` after the last step. The inputs of the
// first `info` steps go to out; those of the tail are dropped.
pub fn trace(
    code: ConvCode,
    half: usize,
    rows: &[u8],
    steps: usize,
    last: usize,
    info: usize,
    out: &mut [u8],
)
    requires { Traceable code half rows.now steps last info (length out.old) }
    ensures { out.new
        ≡ spelled code half rows.now steps last info ++ drop info out.old }
{
    let states = 2 * half;
    let mut s = last;
    // By number: it is a place in out too, which is shorter than the steps where there is a tail.
    for i in (0..steps).rev() {
        if i < info {
            out[i] = input_into(half, s);
        }
        s = rows[i * states + s] as usize;
    }
}

// The input that leads to a state: its top bit.
fn input_into(half: usize, s: usize) -> u8
    ensures { result ≡ cond (ltb s half) 0 1 }
{
    u8::from(half <= s)
}
