// What the decoders of readings share, over any arithmetic and metric: what a branch brings, the metrics, the
// survivors, the word and the score, what is answered, and the laws of all that. The code here is what is the same for
// every kind of reading; the decoders themselves have crates of their own.
#![tactic(auto)]

ghost use Rattle.std.specs.Prelude.{cond, ◌≡◌, ◌+◌, ◌-◌, ◌^◌, ◌<◌, eqb};
ghost use Rattle.trellis.specs.Choice.{keep_of};
ghost use Rattle.trellis.specs.Inner.{Narrow};
ghost use Rattle.trellis.specs.Keep.{coded_length};
ghost use Rattle.correlation.specs.Inner.{Usable, UsedOf, Prepares};

use refusal::Refusal;
use trellis::{ConvCode, KeepPattern, Selected};

// Half of the code's states.
fn half_of(code: ConvCode) -> usize
    requires { Narrow code }
    ensures { result ≡ 2 ^ (code.width - 1) }
{
    let one: usize = 1;
    one << (code.width - 1)
}

// How many readings are used, of those that there are.
fn used_of(keep: KeepPattern, steps: usize, count: usize) -> usize
    requires { Usable keep steps }
    ensures { UsedOf (coded_length (keep_of keep) steps) count result }
{
    let coded = trellis::coded_len(keep, steps);
    count.min(coded)
}

// The number of the reading after a place of that column.
pub fn after(column: u8, at: usize) -> usize
    requires { at < 1048576 }
    ensures { result ≡ at + cond (eqb column 1) 1 0 }
{
    if column == 1 { at + 1 } else { at }
}

// What a call that earns none of the refusals 1 to 5 comes to before its readings are looked at: the coding that it
// selects, half of the states, which is handed on so that it is computed once, and how many of the readings are used.
#[derive(Clone, Copy)]
pub struct Prepared {
    pub chosen: Selected,
    pub half: usize,
    pub used: usize,
}

// The refusals 1 to 5, in their order, of a call that brings so many readings and is lent so much room.
pub fn prepare(
    code: u8,
    rate: u8,
    info: usize,
    count: usize,
    room: usize,
    scratch: usize,
) -> Result<Prepared, Refusal>
    ensures { Prepares code rate info count room scratch result }
{
    encoder::refused_choice(code, rate, info, refusal::MOST)?;
    if room < info {
        return Err(Refusal::ShortOutput);
    }
    let chosen = trellis::choose(code, rate);
    let half = half_of(chosen.code);
    let steps = info + chosen.code.width;
    if scratch < steps * (2 * half) {
        return Err(Refusal::ShortScratch);
    }
    let used = used_of(chosen.keep, steps, count);
    Ok(Prepared { chosen, half, used })
}
