// The encoders and the coded length: K5 or K7, with a zero tail and punctured, and plain K5.
#![tactic(auto)]

ghost use Rattle.std.specs.Prelude.{◌≡◌, get_or};
ghost use Rattle.refusal.specs.Answer.{Says};
ghost use Rattle.refusal.specs.Lent.{lent, RoomFor, PutsAt};
ghost use Rattle.trellis.specs.Choice.{code_of, pattern_of, keep_of};
ghost use Rattle.trellis.specs.Codeword.{lowest_bits};
ghost use Rattle.encoder.specs.Promise.{Decides, Measures, Encodes, EncodesPlain};
ghost use Rattle.encoder.specs.Inner.{kept_by, Ready, ReadyAt, Sends};

use refusal::Refusal;
use trellis::{Code, Rate, Selected};

// The input of step t: the lowest bit of its byte, and 0 past the end, which is the zero tail.
fn input_at(bits: &[u8], t: usize) -> u32
    ensures { result ≡ get_or (lowest_bits bits.now) t 0 }
{
    if t < bits.len() {
        (bits[t] % 2) as u32
    } else {
        0
    }
}

// Writes a coded bit at `at` if its column keeps it. Answers the place after it, which so goes on by what the pattern
// keeps.
fn put(column: u8, bit: u8, at: usize, out: &mut [u8]) -> usize
    requires { RoomFor (kept_by column bit) at out.old }
    ensures { PutsAt (kept_by column bit) at result (lent out) }
{
    if column == 1 {
        out[at] = bit;
        at + 1
    } else {
        at
    }
}

// The register from 0 on: writes what the steps send to the front of out.
fn encode(chosen: Selected, bits: &[u8], steps: usize, out: &mut [u8])
    requires { Ready chosen.code chosen.keep steps out.old }
    ensures { Sends chosen.code (keep_of chosen.keep) steps bits.now (lent out) }
{
    let code = chosen.code;
    let keep = chosen.keep;
    let period = keep.period;
    let row0 = keep.row0;
    let row1 = keep.row1;
    let mut s = 0;
    let mut column = 0;
    let mut at = 0;
    // By number: the steps go on past the bits, through the tail.
    for t in 0..steps {
        let b = input_at(bits, t);
        let pair = trellis::branch_bits(code, s, b);
        at = put(row0[column], pair.c0, at, out);
        at = put(row1[column], pair.c1, at, out);
        s = trellis::next_state(code, s, b);
        column = trellis::next_column(column, period);
    }
}

// The same for what a code number and a rate number select. Where these are constants, the compiler leaves
// the columns and the tap words out of the loop: the Rust too has ways of its own for rate 1/2 and for K5. It goes by
// the numbers, as `choose` does, which takes any two (`Chooses`).
fn encode_at(code: u8, rate: u8, chosen: Selected, bits: &[u8], steps: usize, out: &mut [u8])
    requires { ReadyAt code rate chosen steps out.old }
    ensures { Sends (code_of code) (pattern_of code rate) steps bits.now (lent out) }
{
    if rate == 0 {
        if code == 0 {
            encode(trellis::choose(0, 0), bits, steps, out);
        } else {
            encode(trellis::choose(code, 0), bits, steps, out);
        }
    } else {
        encode(chosen, bits, steps, out);
    }
}

// Refusals 1 to 3, which every call with a code, a rate and an info count decides first. The limit on info bits is the
// caller's. Its clause is of the numbers, as that of `choose` is, which turns them again.
#[tactic(auto, using(crate::proofs::Checks::choices))]
pub fn refused_choice(code: u8, rate: u8, info: usize, limit: usize) -> Result<(), Refusal>
    ensures { Decides limit code rate info result }
{
    if Code::try_from(code).is_err() {
        return Err(Refusal::UnknownCode);
    }
    if Rate::try_from(rate).is_err() {
        return Err(Refusal::UnknownRate);
    }
    if limit < info {
        Err(Refusal::TooMany)
    } else {
        Ok(())
    }
}

// How many coded bits an info count gives.
pub fn punctured_coded_len_with(code: u8, info: usize, rate: u8) -> Result<usize, Refusal>
    ensures { Measures (Says result) code rate info }
{
    refused_choice(code, rate, info, refusal::MOST)?;
    let chosen = trellis::choose(code, rate);
    Ok(trellis::coded_len(chosen.keep, info + chosen.code.width))
}

// The zero-tailed, punctured codeword of the info bits.
pub fn conv_encode_punctured_with(
    code: u8,
    info: &[u8],
    rate: u8,
    out: &mut [u8],
) -> Result<usize, Refusal>
    ensures { Encodes (Says result) code rate info.now (lent out) }
{
    refused_choice(code, rate, info.len(), refusal::MOST)?;
    let chosen = trellis::choose(code, rate);
    let steps = info.len() + chosen.code.width;
    let need = trellis::coded_len(chosen.keep, steps);
    if out.len() < need {
        return Err(Refusal::ShortOutput);
    }
    encode_at(code, rate, chosen, info, steps, out);
    Ok(need)
}

// The coded bits of K5 at rate 1/2 with no tail: two for each input.
#[tactic(auto, using(crate::proofs::Checks::plain_refusals))]
pub fn conv_encode(bits: &[u8], out: &mut [u8]) -> Result<usize, Refusal>
    ensures { EncodesPlain (Says result) bits.now (lent out) }
{
    let count = bits.len();
    if refusal::MOST < count {
        return Err(Refusal::TooMany);
    }
    let twice = 2 * count;
    if out.len() < twice {
        return Err(Refusal::ShortOutput);
    }
    encode_at(0, 0, trellis::choose(0, 0), bits, count, out);
    Ok(twice)
}
