// The block decoders of symbols, soft and hard: K5, each symbol two coded bits as a phasor.
#![tactic(auto)]

ghost use Rattle.refusal.specs.Answer.{Says, done};
ghost use Rattle.refusal.specs.Lent.{lent};
ghost use Rattle.trellis.specs.Choice.{k5};
ghost use Rattle.symbols.specs.Inner.{components_of, Decodable, Finds};
ghost use Rattle.symbols.specs.Said.{room_for};
ghost use Rattle.symbols.specs.Promise.{DecodesSymbols, DecodesHard};

pub mod forward_pass;
mod phasors;

use forward_pass::{HALF, STATES, Symbols, forward};
pub use phasors::Phasor;
use refusal::Refusal;

// All symbols and the way back. The word goes to the front of out, the survivors to the front of scratch. The code is
// chosen here, where both entries come together, by K5's number, so that it is a constant in the loop.
fn decode(symbols: Symbols, count: usize, out: &mut [u8], scratch: &mut [u8])
    requires { Decodable k5 (components_of symbols) count out.old scratch.old }
    ensures { Finds k5 (components_of symbols.entry) count (lent out) (lent scratch) }
{
    let code = trellis::conv_code(0);
    let last = forward(code, symbols, count, scratch);
    best_path::trace(code, HALF, scratch, count, last, count, out);
}

// The refusals 3 to 5, in their order, of a call that brings so many symbols and is lent so much room.
fn refused_room(count: usize, room: usize, scratch: usize) -> Result<(), Refusal>
    ensures { Says result (room_for count room scratch done) }
{
    if refusal::MOST < count {
        return Err(Refusal::TooMany);
    }
    let rows = count * STATES;
    if room < count {
        return Err(Refusal::ShortOutput);
    }
    if scratch < rows {
        return Err(Refusal::ShortScratch);
    }
    Ok(())
}

// The word that symbols fit best; re and im stand in turn, and an odd last component is ignored.
pub fn viterbi_decode(soft: &[f32], out: &mut [u8], scratch: &mut [u8]) -> Result<usize, Refusal>
    ensures { DecodesSymbols (Says result) soft.now (lent out) (lent scratch) }
{
    let count = soft.len() / 2;
    refused_room(count, out.len(), scratch.len())?;
    match f32_answers::first_beyond(&soft[..2 * count]) {
        Some(bad) => Err(Refusal::BadComponent(bad as u32)),
        None => {
            decode(Symbols::Soft(soft), count, out, scratch);
            Ok(count)
        }
    }
}

// The same of hard bits, two for each symbol; only the lowest bit of each byte counts.
pub fn viterbi_decode_hard(
    bits: &[u8],
    out: &mut [u8],
    scratch: &mut [u8],
) -> Result<usize, Refusal>
    ensures { DecodesHard (Says result) bits.now (lent out) (lent scratch) }
{
    let count = bits.len() / 2;
    refused_room(count, out.len(), scratch.len())?;
    decode(Symbols::Hard(bits), count, out, scratch);
    Ok(count)
}
