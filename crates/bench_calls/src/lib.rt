// Functions for the bench and the comparison alone: document 01 gives these entries no door. Each answer is
// one u64, as a door's.
#![tactic(auto)]

ghost use Rattle.std.specs.Prelude.{◌≡◌, ◌<◌, length};
ghost use Rattle.refusal.specs.Answer.{Says, Numbers};
ghost use Rattle.refusal.specs.Lent.{lent};
ghost use Rattle.streaming.specs.Said.{emitted_said};
ghost use Rattle.streaming.specs.Decoder.{held};
ghost use Rattle.streaming.specs.Promise.{Feeds, Flushes};
ghost use Rattle.symbols.specs.Promise.{DecodesSymbols};
ghost use Rattle.varicode_words.specs.Word.{letter_said, decode_of};
ghost use Rattle.bench_calls.specs.Number.{EmitNumbers, letter_number};
ghost use Rattle.bench_calls.specs.Promise.{Streams};
ghost use Rattle.bench_calls.specs.Inner.{PutsBits};

use refusal::Refusal;
use streaming::{Emitted, StreamingViterbi};

// The block decoder of symbols.
#[unsafe(no_mangle)]
pub extern "C" fn timed_viterbi_decode(soft: &[f32], out: &mut [u8], scratch: &mut [u8]) -> u64
    ensures { DecodesSymbols (Numbers result) soft.now (lent out) (lent scratch) }
{
    refusal::count_number(symbols::viterbi_decode(soft, out, scratch))
}

// The bit of an answer goes to a place; answers where the next one goes.
fn put_bit(answer: Emitted, at: usize, out: &mut [u8]) -> usize
    requires { at < length out.old }
    ensures { PutsBits answer at result (lent out) }
{
    match answer {
        Ok(Some(bit)) => {
            out[at] = bit;
            at + 1
        }
        Ok(None) => at,
        Err(_) => at,
    }
}

// A fresh streaming decoder fed by value with every symbol, re and im in turn.
fn stream(soft: &[f32], out: &mut [u8]) -> Result<usize, Refusal>
    ensures { Streams (Says result) soft.now (lent out) }
{
    let count = soft.len() / 2;
    if out.len() < count {
        return Err(Refusal::ShortOutput);
    }
    let mut d = StreamingViterbi::new();
    // Counted by hand: how many bits come is seen as they come.
    let mut written = 0;
    for symbol in soft.chunks_exact(2) {
        let fed = d.feed_symbol(symbol[0], symbol[1]);
        let answer = fed.answer;
        d = fed.coder;
        written = put_bit(answer, written, out);
    }
    Ok(written)
}

// The streaming decoder, by value.
#[unsafe(no_mangle)]
pub extern "C" fn timed_stream(soft: &[f32], out: &mut [u8]) -> u64
    ensures { Streams (Numbers result) soft.now (lent out) }
{
    refusal::count_number(stream(soft, out))
}

// A symbol's answer as one number: a bit, or 2 where there is none yet.
#[tactic(auto, unfolding(refusal::specs::Answer::door_number))]
fn emitted_number(answer: Emitted) -> u64
    ensures { EmitNumbers result (emitted_said answer) }
{
    answer.map_or_else(refusal::refused_number, |bit| bit.map_or(2, u64::from))
}

// The streaming decoder in place: one symbol.
#[unsafe(no_mangle)]
pub extern "C" fn timed_feed(d: &mut StreamingViterbi, re: f32, im: f32) -> u64
    ensures { Feeds (EmitNumbers result) (held d.old) (held d.new) re im }
{
    emitted_number(streaming::feed(d, re, im))
}

// The streaming decoder in place: a flush.
#[unsafe(no_mangle)]
pub extern "C" fn timed_flush(d: &mut StreamingViterbi, out: &mut [u8]) -> u64
    ensures { Flushes (Numbers result) (held d.old) (held d.new) (lent out) }
{
    refusal::count_number(streaming::flush(d, out))
}

// A looked-up byte as one number: the byte, or 256 where there is none.
fn letter_number(letter: Option<u8>) -> u64
    ensures { result ≡ letter_number (letter_said letter) }
{
    letter.map_or(256, u64::from)
}

// The Varicode lookup.
#[unsafe(no_mangle)]
pub extern "C" fn timed_varicode_decode(bits: u16, len: u8) -> u64
    ensures { result ≡ letter_number (decode_of bits len) }
{
    letter_number(varicode_words::varicode_decode(bits, len))
}
