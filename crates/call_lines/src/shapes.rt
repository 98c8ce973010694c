// Which lines are calls: how many fields a letter's line has, and what each of them spells.
ghost use Rattle.std.specs.Prelude.{◌<◌, length, IfSome};

use crate::fields::{LONG, SHORT, parse, size};

// The most components of a line: one symbol more than 16,384, and an odd one.
pub const COMPONENTS: usize = 32771;

// The calls, a letter each.
#[derive(Clone, Copy)]
pub enum Call {
    // Of the encoders.
    Punctured,
    Plain,
    Length,
    // Of the block decoders.
    Readings,
    Signed,
    Soft,
    Hard,
    // Of the streaming decoder.
    FreshStream,
    Feed,
    Flush,
    // Of Varicode: its words, its writer and its reader.
    Word,
    Lookups,
    FreshCoders,
    Write,
    Read,
}

// What a field spells.
#[derive(Clone, Copy)]
enum Kind {
    // 0 or 1, two digits, four digits, one to sixteen digits.
    Flag,
    Byte,
    Word,
    Number,
    // The length of a lent buffer, at most so large.
    Length(usize),
    // At most so many bytes, just so many, and those of components.
    Bytes(usize),
    Exactly(usize),
    Components,
    // One step or more, each a field.
    Steps,
}

impl Kind {
    fn fits(self, text: &[u8]) -> bool {
        match self {
            Kind::Flag => digits_fit(text, 1, 1),
            Kind::Byte => digits_fit(text, 2, 0xff),
            Kind::Word => digits_fit(text, 4, 0xffff),
            Kind::Number => parse(text, 16).is_some(),
            Kind::Length(most) => is_length(text, most),
            Kind::Bytes(most) => has_bytes(text, most),
            Kind::Exactly(count) => size(text).is_some_and(|n| n == count),
            Kind::Components => size(text).is_some_and(|n| n % 4 == 0 && n / 4 <= COMPONENTS),
            Kind::Steps => is_step(text),
        }
    }
}

// Just so many digits, of a number at most so large.
fn digits_fit(text: &[u8], width: usize, most: u64) -> bool {
    text.len() == width && parse(text, width).is_some_and(|n| n <= most)
}

fn is_length(text: &[u8], most: usize) -> bool {
    parse(text, 16).is_some_and(|n| n <= most as u64)
}

fn has_bytes(text: &[u8], most: usize) -> bool {
    size(text).is_some_and(|n| n <= most)
}

// A letter, and what the step takes.
fn is_step(text: &[u8]) -> bool {
    match text {
        [b'o' | b'c', rest @ ..] => parse(rest, 16).is_some(),
        [b't' | b'p', rest @ ..] => is_length(rest, SHORT),
        [b'b' | b'i', rest @ ..] => has_bytes(rest, SHORT),
        _ => false,
    }
}

// Whether the fields behind the letter are of these kinds, and no more of them.
fn fits(line: &[u8], kinds: &[Kind]) -> bool {
    let mut texts = line.split(|b| *b == b' ').skip(1);
    for kind in kinds {
        let Some(text) = texts.next() else {
            return false;
        };
        if !kind.fits(text) {
            return false;
        }
    }
    let has_steps = matches!(kinds.last(), Some(Kind::Steps));
    texts.all(|text| has_steps && is_step(text))
}

// The call that a line is, where it is one.
pub fn call_of(line: &[u8]) -> Option<Call>
    ensures { IfSome result (λ call. 0 < length line.now) }
{
    use Kind::{Byte, Bytes, Components, Exactly, Flag, Length, Number, Steps, Word};
    let [letter, behind @ ..] = line else {
        return None;
    };
    // The letter is the whole first field.
    if !matches!(behind, [] | [b' ', ..]) {
        return None;
    }
    let (call, kinds): (Call, &[Kind]) = match letter {
        b'e' => (Call::Punctured, &[Byte, Byte, Bytes(SHORT), Length(SHORT)]),
        b'p' => (Call::Plain, &[Bytes(SHORT), Length(SHORT)]),
        b'l' => (Call::Length, &[Byte, Byte, Number]),
        b'b' => (
            Call::Readings,
            &[Byte, Byte, Number, Bytes(LONG), Length(SHORT), Length(LONG)],
        ),
        b'i' => (
            Call::Signed,
            &[
                Byte,
                Byte,
                Number,
                Bytes(SHORT),
                Length(SHORT),
                Length(LONG),
            ],
        ),
        b's' => (Call::Soft, &[Components, Length(SHORT), Length(LONG)]),
        b'h' => (Call::Hard, &[Bytes(SHORT), Length(SHORT), Length(LONG)]),
        b'n' => (Call::FreshStream, &[]),
        b't' => (
            Call::Feed,
            &[Exactly(64), Exactly(2048), Byte, Byte, Components],
        ),
        b'u' => (
            Call::Flush,
            &[Exactly(64), Exactly(2048), Byte, Byte, Length(SHORT)],
        ),
        b'v' => (Call::Word, &[Byte]),
        b'd' => (Call::Lookups, &[Byte]),
        b'm' => (Call::FreshCoders, &[]),
        b'w' => (Call::Write, &[Exactly(256), Number, Number, Flag, Steps]),
        b'r' => (
            Call::Read,
            &[Flag, Word, Byte, Flag, Exactly(64), Number, Number, Steps],
        ),
        _ => return None,
    };
    fits(line, kinds).then_some(call)
}
