// The Varicode reader: bits to characters. There are two, chosen when one is made, and they differ in which zeros end
// a word.
#![tactic(auto)]

ghost use Rattle.std.specs.Prelude.{true, false, ◌≡◌, ◌≤◌};
ghost use Rattle.varicode_reader.specs.Reader.{fresh_reader, zero_ends, read_heard};
ghost use Rattle.varicode_reader.specs.Records.{reader};
ghost use Rattle.varicode_reader.specs.Promise.{Pushes, GivesChar};
ghost use Rattle.varicode_reader.specs.Inner.{Joins, Forgets};

use queue::CharQueue;
use refusal::{Answered, Refusal};

// The reader: whether it is for pauses, the bits of the word that it is in, how many, whether the last was a zero,
// and the characters that are not taken out yet.
#[derive(Clone, Copy)]
pub struct VaricodeDecoder {
    pub pauses: bool,
    pub shift: u16,
    pub len: u8,
    pub prev_zero: bool,
    pub chars: CharQueue,
}

// What a call that pushes a bit answers, and one that takes a character out, with the reader after it: by value, as
// document 01 has it.
pub type Pushed = Answered<Result<(), Refusal>, VaricodeDecoder>;

pub type NextChar = Answered<Option<u8>, VaricodeDecoder>;

// A reader that has heard nothing, with no characters.
#[tactic(auto, unfolding(crate::specs::Reader::fresh_reader))]
fn fresh(pauses: bool) -> VaricodeDecoder
    ensures { reader result ≡ fresh_reader pauses }
{
    VaricodeDecoder {
        pauses,
        shift: 0,
        len: 0,
        prev_zero: false,
        chars: CharQueue::new(),
    }
}

impl VaricodeDecoder {
    // The reader of document 01, as in the Rust: just two zeros are a gap.
    pub fn new() -> VaricodeDecoder
        ensures { reader result ≡ fresh_reader false }
    {
        fresh(false)
    }

    // The reader for pauses: two zeros or more are a gap, and zeros before a word are skipped.
    pub fn for_pauses() -> VaricodeDecoder
        ensures { reader result ≡ fresh_reader true }
    {
        fresh(true)
    }

    // A received bit.
    #[tactic(auto, unfolding(crate::specs::Reader::bit_said, crate::specs::Reader::bit_leaves))]
    pub fn push_bit(self, bit: u8) -> Pushed
        ensures { Pushes self bit result }
    {
        if 1 < bit {
            return Pushed::refused(self, Refusal::BadBit);
        }
        if bit == 0 && self.zero_ends() {
            return self.end_word();
        }
        Pushed {
            answer: Ok(()),
            coder: self.joined(bit),
        }
    }

    // Whether a zero ends the word: the second zero of a gap, or, for pauses, one while nothing is heard.
    #[tactic(auto, unfolding(crate::specs::Reader::zero_ends))]
    fn zero_ends(self) -> bool
        ensures { result ≡ zero_ends self.pauses (read_heard (reader self).heard) }
    {
        self.prev_zero || (self.pauses && self.len % 12 == 0)
    }

    // A zero that ends the word: that is looked up without its trailing zero, and everything forgotten.
    #[tactic(auto, using(crate::proofs::WordEnds::word_ends))]
    fn end_word(self) -> Pushed
        requires { zero_ends self.pauses (read_heard (reader self).heard) ≡ true }
        ensures { Pushes self 0 result }
    {
        let len = (self.len % 12).saturating_sub(1);
        let Some(c) = varicode_words::varicode_decode(self.shift / 2, len) else {
            return Pushed {
                answer: Ok(()),
                coder: self.forgotten(self.chars),
            };
        };
        let chars = self.chars.read();
        if chars.count == queue::CHARS {
            return Pushed::refused(self, Refusal::QueueFull);
        }
        Pushed {
            answer: Ok(()),
            coder: self.forgotten(chars.put(c)),
        }
    }

    // Everything heard is forgotten, and these are the characters.
    fn forgotten(self, chars: CharQueue) -> VaricodeDecoder
        ensures { Forgets self chars result }
    {
        VaricodeDecoder {
            shift: 0,
            len: 0,
            prev_zero: false,
            chars,
            ..self
        }
    }

    // Any other bit joins the word.
    fn joined(self, bit: u8) -> VaricodeDecoder
        requires { bit ≤ 1 }
        ensures { Joins self bit result }
    {
        VaricodeDecoder {
            shift: (self.shift << 1) + (bit as u16),
            len: (self.len % 12 + 1).min(11),
            prev_zero: bit == 0,
            ..self
        }
    }

    // The next character, taken out.
    pub fn pop_char(self) -> NextChar
        ensures { GivesChar self result }
    {
        let mut coder = self;
        let answer = coder.chars.take();
        NextChar { answer, coder }
    }
}
