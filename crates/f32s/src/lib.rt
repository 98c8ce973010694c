// Tests on one f32, an f32 from its four bytes, and its bits; and the same of many, where they lie.
#![tactic(auto)]

ghost use Rattle.std.specs.Prelude.{true, ◌≡◌, ◌+◌, ◌/◌, ◌<◌, length, get_or};
ghost use Rattle.std.specs.Float.{binary32};
ghost use Rattle.std.specs.Float.Ieee.{to_bits};
ghost use Rattle.f32s.specs.Single.{zero32, finite, within, of_bytes, values_in};
ghost use Rattle.f32s.specs.Readings.{values_of};
ghost use Rattle.f32s.specs.Inner.{of_four, Fills};

use std::num::{f32_from_bits_with_nan, f32_to_bits_with_nan};

// Neither NaN nor infinite.
#[tactic(auto, using(crate::proofs::Patterns::finite_is))]
pub fn is_finite(x: f32) -> bool
    ensures { result ≡ finite x }
{
    x.is_finite()
}

// Neither NaN nor beyond ±1,024: a NaN is on neither side of anything.
pub fn within(x: f32) -> bool
    ensures { result ≡ within x }
{
    (-1024.0 <= x) & (x <= 1024.0)
}

// The f32 of four bytes, low first. Each NaN pattern gives the one NaN.
pub fn from_bytes(b0: u8, b1: u8, b2: u8, b3: u8) -> f32
    ensures { result ≡ of_bytes b0 b1 b2 b3 }
{
    let bits = u32::from_le_bytes([b0, b1, b2, b3]);
    f32_from_bits_with_nan(bits)
}

// Is the f32 of four bytes neither NaN nor infinite? By the bits, without making it: the exponent's are not all ones.
#[tactic(auto, using(crate::proofs::Patterns::finite_pattern))]
fn are_finite(bytes: [u8; 4]) -> bool
    ensures { result ≡ finite (of_four bytes) }
{
    u32::from_le_bytes(bytes) / 0x80_0000 % 256 != 255
}

// F32s that lie in two places, in floats and, behind those, in bytes, four bytes each: so each is read where it
// lies, and nobody needs room to bring them together.
#[derive(Clone, Copy)]
pub struct Readings<'a> {
    pub floats: &'a [f32],
    pub bytes: &'a [u8],
}

impl<'a> Readings<'a> {
    // How many there are.
    pub fn len(self) -> usize
        ensures { result ≡ length (values_of self.entry) }
    {
        self.floats.len() + self.bytes.len() / 4
    }

    // Is the f32 of a number, counted from 0, finite?
    pub fn is_finite_at(self, i: usize) -> bool
        requires { i < length self.floats.now + length self.bytes.now / 4 }
        ensures { result ≡ finite (get_or (values_of self.entry) i zero32) }
    {
        let (fours, _) = self.bytes.as_chunks::<4>();
        if i < self.floats.len() {
            is_finite(self.floats[i])
        } else {
            are_finite(fours[i - self.floats.len()])
        }
    }

    // The f32 of a number, which is finite; 0.0 where there are not so many.
    pub fn finite_at(self, i: usize) -> f32
        requires { finite (get_or (values_of self) i zero32) ≡ true }
        ensures { result ≡ get_or (values_of self.entry) i zero32 }
    {
        let (fours, _) = self.bytes.as_chunks::<4>();
        if i < self.floats.len() {
            self.floats[i]
        } else {
            let behind = i - self.floats.len();
            if behind < fours.len() {
                f32::from_le_bytes(fours[behind])
            } else {
                0.0
            }
        }
    }
}

// The f32s of bytes, four bytes each: as many as there are and there is room for. They go to the front of
// values; answers how many.
pub fn from_all_bytes(bytes: &[u8], values: &mut [f32]) -> usize
    ensures { Fills bytes.now values.old values.new result }
{
    let (fours, _) = bytes.as_chunks::<4>();
    let count = values.len().min(fours.len());
    // Written by index: of what is written through a zip a proof knows the length and no content.
    for (i, [b0, b1, b2, b3]) in fours[..count].iter().enumerate() {
        values[i] = from_bytes(*b0, *b1, *b2, *b3);
    }
    count
}

// The bits of an f32; a NaN's are always the same.
pub fn bits_of(x: f32) -> u32
    ensures { result ≡ to_bits binary32 x }
{
    f32_to_bits_with_nan(x)
}
