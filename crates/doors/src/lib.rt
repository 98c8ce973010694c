// The functions for a host in Rust or C, on numbers and byte slices. Each returns one u64: the count
// or the score's 32 bits, or on a refusal its number times 2^32 plus the place.
#![tactic(auto)]

ghost use Rattle.f32_answers.specs.Answer.{ScoreNumbers};
ghost use Rattle.refusal.specs.Answer.{Numbers};
ghost use Rattle.refusal.specs.Lent.{lent};
ghost use Rattle.encoder.specs.Promise.{Measures, Encodes, EncodesPlain};
ghost use Rattle.readings.specs.Promise.{DecodesBytes};

use f32_answers::word_number;
use readings::viterbi_decode_bytes;

// Plain K5 at rate 1/2, with no zeros added.
#[unsafe(no_mangle)]
pub extern "C" fn relay_conv_encode(bits: &[u8], out: &mut [u8]) -> u64
    ensures { EncodesPlain (Numbers result) bits.now (lent out) }
{
    refusal::count_number(encoder::conv_encode(bits, out))
}

// The zero-tailed, punctured codeword of the info bits.
#[unsafe(no_mangle)]
pub extern "C" fn relay_encode(code: u8, rate: u8, info: &[u8], out: &mut [u8]) -> u64
    ensures { Encodes (Numbers result) code rate info.now (lent out) }
{
    refusal::count_number(encoder::conv_encode_punctured_with(code, info, rate, out))
}

// How many coded bits an info count gives.
#[unsafe(no_mangle)]
pub extern "C" fn relay_coded_len(code: u8, rate: u8, info: usize) -> u64
    ensures { Measures (Numbers result) code rate info }
{
    refusal::count_number(encoder::punctured_coded_len_with(code, info, rate))
}

// The word that the readings fit best, of readings as four bytes each, low first.
#[unsafe(no_mangle)]
pub extern "C" fn relay_decode(
    code: u8,
    rate: u8,
    info: usize,
    readings: &[u8],
    out: &mut [u8],
    scratch: &mut [u8],
) -> u64
    ensures { DecodesBytes (ScoreNumbers result) code rate info readings.now (lent out) (lent scratch) }
{
    word_number(viterbi_decode_bytes(code, readings, info, rate, out, scratch))
}
