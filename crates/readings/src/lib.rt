// The block decoder of readings: what it refuses, and which code and keep pattern it runs.
#![tactic(auto)]

ghost use Rattle.f32s.specs.Readings.{values_of};
ghost use Rattle.refusal.specs.Answer.{Says};
ghost use Rattle.refusal.specs.Lent.{lent};
ghost use Rattle.readings.specs.Promise.{Decodes, DecodesBytes};

use f32s::Readings;
use forward::Soft;
use refusal::Refusal;
use steps::decode;

// What both entries do: an entry has only floats or only bytes, and each is read where it lies.
fn decode_readings(
    code: u8,
    readings: Readings,
    info: usize,
    rate: u8,
    out: &mut [u8],
    scratch: &mut [u8],
) -> Result<f32, Refusal>
    ensures { Decodes (Says result) code rate info (values_of readings.entry) (lent out) (lent scratch) }
{
    let ready = correlation::prepare(code, rate, info, readings.len(), out.len(), scratch.len())?;
    match f32_answers::first_bad(readings, ready.used) {
        Some(bad) => Err(Refusal::BadReading(bad as u32)),
        None => {
            let score = decode::<Soft, Readings>(
                ready.chosen,
                ready.half,
                &readings,
                info,
                out,
                scratch,
            );
            Ok(score)
        }
    }
}

// The word that the readings fit best, its score, and the survivors of each step in scratch.
pub fn viterbi_decode_soft_with(
    code: u8,
    readings: &[f32],
    info: usize,
    rate: u8,
    out: &mut [u8],
    scratch: &mut [u8],
) -> Result<f32, Refusal>
    ensures { Decodes (Says result) code rate info readings.now (lent out) (lent scratch) }
{
    let readings = Readings {
        floats: readings,
        bytes: &[],
    };
    decode_readings(code, readings, info, rate, out, scratch)
}

// The same of readings as four bytes each, low first; a last piece under four bytes is surplus.
pub fn viterbi_decode_bytes(
    code: u8,
    bytes: &[u8],
    info: usize,
    rate: u8,
    out: &mut [u8],
    scratch: &mut [u8],
) -> Result<f32, Refusal>
    ensures { DecodesBytes (Says result) code rate info bytes.now (lent out) (lent scratch) }
{
    let readings = Readings { floats: &[], bytes };
    decode_readings(code, readings, info, rate, out, scratch)
}
