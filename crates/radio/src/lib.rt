// The door for a radio without a float unit, on numbers and slices of bytes. It stands on nothing that has a float.
#![tactic(auto)]

ghost use Rattle.refusal.specs.Lent.{lent};
ghost use Rattle.signed_answers.specs.Answer.{ScoreNumbers};
ghost use Rattle.signed_readings.specs.Promise.{Decodes};

use signed_answers::word_number;
use signed_readings::viterbi_decode_signed_with;

// The word that the readings fit best, of readings as one signed byte each. Returns one u64: the score's 32 bits in
// two's complement, or on a refusal its number times 2^32 plus the place.
#[unsafe(no_mangle)]
pub extern "C" fn relay_decode_signed(
    code: u8,
    rate: u8,
    info: usize,
    readings: &[i8],
    out: &mut [u8],
    scratch: &mut [u8],
) -> u64
    ensures { Decodes (ScoreNumbers result) code rate info readings.now (lent out) (lent scratch) }
{
    word_number(viterbi_decode_signed_with(code, readings, info, rate, out, scratch))
}
