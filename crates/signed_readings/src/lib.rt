// The block decoder of readings that are signed bytes, from −127 to 127, in whole numbers of 32 bits: what it refuses,
// and which code and keep pattern it runs. Nothing of it has a float, nor what it stands on.
#![tactic(auto)]

ghost use Rattle.refusal.specs.Answer.{Says};
ghost use Rattle.refusal.specs.Lent.{lent};
ghost use Rattle.signed_readings.specs.Promise.{Decodes};
ghost use Rattle.signed_readings.specs.Inner.{FirstLow};

use refusal::Refusal;
use signed_forward::Exact;
use steps::decode;

// The place of refusal 12: the index of the first −128, if there is one. A loop: of signed numbers a chain of iterators
// does not say that they are of eight bits.
fn first_low(readings: &[i8]) -> Option<usize>
    ensures { FirstLow readings.now result }
{
    for (i, reading) in readings.iter().enumerate() {
        if *reading < -127 {
            return Some(i);
        }
    }
    None
}

// The word that the readings fit best, its score, and the survivors of each step in scratch.
pub fn viterbi_decode_signed_with(
    code: u8,
    readings: &[i8],
    info: usize,
    rate: u8,
    out: &mut [u8],
    scratch: &mut [u8],
) -> Result<i32, Refusal>
    ensures { Decodes (Says result) code rate info readings.now (lent out) (lent scratch) }
{
    let ready = correlation::prepare(code, rate, info, readings.len(), out.len(), scratch.len())?;
    match first_low(&readings[..ready.used]) {
        Some(low) => Err(Refusal::BadSignedByte(low as u32)),
        None => {
            let score = decode::<Exact, &[i8]>(
                ready.chosen,
                ready.half,
                &readings,
                info,
                out,
                scratch,
            );
            Ok(score)
        }
    }
}
