// The Varicode writer: openings, bytes and closings to bits.
#![tactic(auto)]

ghost use Rattle.std.specs.Prelude.{◌≡◌, length};
ghost use Rattle.varicode_writer.specs.Writer.{opening, byte, closing, gap, fresh_writer};
ghost use Rattle.varicode_writer.specs.Records.{writer};
ghost use Rattle.varicode_writer.specs.Promise.{Puts, GivesBit};
ghost use Rattle.varicode_writer.specs.Inner.{Accepts, Spaces};

use queue::BitQueue;
use refusal::{Answered, Refusal};

// The writer: the bits that are not taken out yet, and whether no byte was written since the start or the
// last opening.
#[derive(Clone, Copy)]
pub struct VaricodeEncoder {
    pub pending: BitQueue,
    pub first: bool,
}

// What a call that puts bits answers, and one that takes a bit out, with the writer after it: by value, as document 01
// has it.
pub type Wrote = Answered<Result<(), Refusal>, VaricodeEncoder>;

pub type NextBit = Answered<Option<u8>, VaricodeEncoder>;

// How many zeros come before a word or a closing.
fn gap_len(first: bool) -> usize
    ensures { result ≡ length (gap first) }
{
    if first { 0 } else { 2 }
}

fn done(pending: BitQueue, first: bool) -> Wrote
    ensures { Accepts pending first result }
{
    Wrote {
        answer: Ok(()),
        coder: VaricodeEncoder { pending, first },
    }
}

impl VaricodeEncoder {
    #[tactic(auto, unfolding(crate::specs::Writer::fresh_writer))]
    pub fn new() -> VaricodeEncoder
        ensures { writer result ≡ fresh_writer }
    {
        VaricodeEncoder {
            pending: BitQueue::new(),
            first: true,
        }
    }

    // An opening: n zeros.
    pub fn push_preamble(self, n: usize) -> Wrote
        ensures { Puts self (opening n) result }
    {
        match self.spaced(0, n) {
            Ok(q) => done(q.put_run(0, n), true),
            Err(r) => Wrote::refused(self, r),
        }
    }

    // A byte's word, after a gap unless it is the first. A byte of 128 or above has no word of its own, and is refused
    // whether or not there is room.
    #[tactic(auto, using(crate::proofs::Puts::large_byte_said, crate::proofs::Puts::large_byte_leaves))]
    pub fn push_byte(self, b: u8) -> Wrote
        ensures { Puts self (byte b) result }
    {
        if b >= 128 {
            return Wrote::refused(self, Refusal::BadByte);
        }
        let word = varicode_words::varicode_encode(b);
        match self.spaced(gap_len(self.first), word.len as usize) {
            Ok(q) => done(q.put_word(word.bits, word.len), false),
            Err(r) => Wrote::refused(self, r),
        }
    }

    // A closing: n ones, after a gap if a byte was written.
    pub fn push_postamble(self, n: usize) -> Wrote
        ensures { Puts self (closing n) result }
    {
        match self.spaced(gap_len(self.first), n) {
            Ok(q) => done(q.put_run(1, n), self.first),
            Err(r) => Wrote::refused(self, r),
        }
    }

    // The bits that are pending, and so many zeros behind them, where n bits more fit too. No sum is made that could
    // wrap.
    fn spaced(self, zeros: usize, n: usize) -> Result<BitQueue, Refusal>
        ensures { Spaces (writer self) zeros n result }
    {
        let q = self.pending.read();
        if q.count.saturating_add(zeros).saturating_add(n) > queue::BITS {
            return Err(Refusal::QueueFull);
        }
        Ok(q.put_run(0, zeros))
    }

    // The next bit, taken out.
    pub fn next_bit(self) -> NextBit
        ensures { GivesBit self result }
    {
        let mut coder = self;
        let answer = coder.pending.take();
        NextBit { answer, coder }
    }
}
