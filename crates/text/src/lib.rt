// A line that is being written: texts, words and numbers, one behind the other, in ASCII.
//
// Its numbers are not printed by std's `write!`: that may fail, and its contract does not say that it never does where
// there is room. What the program prints for an answer must not fail.
#![tactic(auto)]

ghost use Rattle.std.specs.Prelude.{◌≡◌, ◌+◌, ◌<◌, ◌≤◌, [], ◌∷◌, ◌++◌, length};
ghost use Rattle.text.specs.Text.{digit, bit_text, word_text, hex_digits, decimal};

use std::marker::Model;

// At most ROOM bytes, and zeros behind them. Clauses see those that were written, which fix the line.
#[derive(Clone, Copy)]
pub struct Line<const ROOM: usize> {
    bytes: [u8; ROOM],
    len: usize,
}

impl<const ROOM: usize> Model for Line<ROOM> {
    ghost use Rattle.std.specs.Prelude.{ℕ, List, ◌++◌, ◌-◌, take, length, replicate};
    ghost use Rattle.text.specs.Text.{Written};
    ghost use Rattle.text.specs.Whole.{length_back, bytes_back};

    ghost Value = { List ℕ };

    ghost view = { λ l. take l.len l.bytes };

    ghost invariant = { λ l. Written ROOM l.len l.bytes };

    ghost inverse = { λ text. record { bytes = text ++ replicate (ROOM - length text) 0; len = length text } };

    ghost inverse_ok = { λ l h i. record { bytes = bytes_back h i; len = length_back h i } };
}

// What fits is asked by each `put`: it is about a line and what is put to it, and no type of either could say it.
impl<const ROOM: usize> Line<ROOM> {
    pub fn new() -> Self
        ensures { result ≡ [] }
    {
        Line {
            bytes: [0; ROOM],
            len: 0,
        }
    }

    // What was written.
    pub fn written(&self) -> &[u8]
        ensures text { result.now ≡ self.now }
        ensures within { length result.now ≤ ROOM }
    {
        &self.bytes[..self.len]
    }

    pub fn put(&mut self, text: &[u8])
        requires { length self.old + length text.now ≤ ROOM }
        ensures { self.new ≡ self.old ++ text.now }
    {
        let start = self.len;
        let end = start + text.len();
        let bytes = &mut self.bytes[..];
        bytes[start..end].copy_from_slice(text);
        self.len = end;
    }

    pub fn put_byte(&mut self, byte: u8)
        requires { length self.old < ROOM }
        ensures { self.new ≡ self.old ++ byte ∷ [] }
    {
        self.bytes[self.len] = byte;
        self.len += 1;
    }

    // A word's bits, and - for an empty word.
    pub fn put_word(&mut self, word: &[u8])
        requires { length self.old + length (word_text word.now) ≤ ROOM }
        ensures { self.new ≡ self.old ++ word_text word.now }
    {
        if word.is_empty() {
            self.put_byte(b'-');
        } else {
            for bit in word {
                self.put_byte(bit_text(*bit));
            }
        }
    }

    // Eight hex digits.
    pub fn put_hex(&mut self, n: u32)
        requires { length self.old + length (hex_digits 8 n) ≤ ROOM }
        ensures { self.new ≡ self.old ++ hex_digits 8 n }
    {
        for place in (0..8u32).rev() {
            self.put_byte(digit((n >> (4 * place)) % 16));
        }
    }

    // A number in decimal.
    pub fn put_decimal(&mut self, n: u32)
        requires { length self.old + length (decimal n) ≤ ROOM }
        ensures { self.new ≡ self.old ++ decimal n }
    {
        self.put(decimal_digits(n).written());
    }
}

// A number's decimal digits.
#[tactic(auto, using(crate::proofs::Digits::decimal_one, crate::proofs::Digits::decimal_more))]
fn decimal_digits(n: u32) -> Line<10>
    ensures { result ≡ decimal n }
{
    let mut digits = if n < 10 {
        Line::new()
    } else {
        decimal_digits(n / 10)
    };
    digits.put_byte(digit(n % 10));
    digits
}

fn bit_text(bit: u8) -> u8
    ensures { result ≡ bit_text bit }
{
    if bit == 0 { b'0' } else { b'1' }
}

// 0 to 9, then A to F.
fn digit(d: u32) -> u8
    requires { d < 16 }
    ensures { result ≡ digit d }
{
    let d = d as u8;
    if d < 10 { b'0' + d } else { b'A' + (d - 10) }
}
