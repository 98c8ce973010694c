// The calls of Varicode: its words, and the writer and the reader.
ghost use Rattle.std.specs.Prelude.{◌<◌};

use call_lines::fields::{SHORT, byte, field, fill, lent, number, room};
use call_lines::print::{print_bytes, print_number};
use queue::Queue;
use refusal::{Refusal, answer_number};
use std::io;
use std::io::Write;
use varicode_reader::VaricodeDecoder;
use varicode_writer::VaricodeEncoder;

// `v BYTE`. Prints its word's bits and length.
pub fn word<W: Write>(to: &mut W, line: &[u8]) -> io::Result<()> {
    let word = varicode_words::varicode_encode(byte(field(line, 1)));
    print_number(to, word.bits as u64, 4)?;
    print_number(to, word.len as u64, 2)
}

// `d LENGTH`. Prints each value of that length that is a word, and its byte.
pub fn lookups<W: Write>(to: &mut W, line: &[u8]) -> io::Result<()> {
    let len = byte(field(line, 1));
    for value in 0..=u16::MAX {
        if let Some(b) = varicode_words::varicode_decode(value, len) {
            print_number(to, value as u64, 4)?;
            print_number(to, b as u64, 2)?;
        }
    }
    Ok(())
}

// A writer and a reader, of which a line's steps use one.
#[derive(Clone, Copy)]
struct Coders {
    encoder: VaricodeEncoder,
    decoder: VaricodeDecoder,
}

// `m`. Prints a fresh writer's record, a fresh reader's, and that of a fresh reader for pauses.
pub fn fresh<W: Write>(to: &mut W) -> io::Result<()> {
    print_writer(to, VaricodeEncoder::new())?;
    print_reader(to, VaricodeDecoder::new())?;
    print_reader(to, VaricodeDecoder::for_pauses())
}

// `w SLOTS HEAD COUNT FIRST STEPS`: a writer's record, and what is done with it. Prints an answer for each call,
// and the record.
pub fn write<W: Write>(to: &mut W, line: &[u8]) -> io::Result<()> {
    let coders = Coders {
        encoder: VaricodeEncoder {
            pending: queue_at(line, 1),
            first: number(field(line, 4)) == 1,
        },
        decoder: VaricodeDecoder::new(),
    };
    let after = steps(to, line, 5, coders)?;
    print_writer(to, after.encoder)
}

// `r PAUSES SHIFT LENGTH ZERO SLOTS HEAD COUNT STEPS`: the same of a reader.
pub fn read<W: Write>(to: &mut W, line: &[u8]) -> io::Result<()> {
    let coders = Coders {
        encoder: VaricodeEncoder::new(),
        decoder: VaricodeDecoder {
            pauses: number(field(line, 1)) == 1,
            shift: (number(field(line, 2)) % 0x1_0000) as u16,
            len: byte(field(line, 3)),
            prev_zero: number(field(line, 4)) == 1,
            chars: queue_at(line, 5),
        },
    };
    let after = steps(to, line, 8, coders)?;
    print_reader(to, after.decoder)
}

// The queue's record that three fields of a line spell.
fn queue_at<const ROOM: usize>(line: &[u8], place: usize) -> Queue<ROOM>
    requires { place < 8 }
{
    let mut slots = [0u8; ROOM];
    fill(field(line, place), &mut slots);
    Queue {
        slots,
        head: number(field(line, place + 1)) as usize,
        count: number(field(line, place + 2)) as usize,
    }
}

// The steps from a place of the line on, one after the other.
fn steps<W: Write>(to: &mut W, line: &[u8], from: usize, start: Coders) -> io::Result<Coders> {
    let mut coders = start;
    for text in line.split(|b| *b == b' ').skip(from) {
        coders = step(to, coders, text)?;
    }
    Ok(coders)
}

// What a step calls.
#[derive(Clone, Copy)]
enum Kind {
    // Of the writer.
    Opening(usize),
    Closing(usize),
    PushByte,
    NextBit,
    // Of the reader.
    PushBit,
    PopChar,
}

// `oN`, `cN`: an opening, a closing. `bBYTES`, `tN`: bytes written, bits taken out. `iBYTES`, `pN`: bits put in,
// characters taken out. No call has another step.
fn step<W: Write>(to: &mut W, coders: Coders, text: &[u8]) -> io::Result<Coders> {
    let Some((letter, rest)) = text.split_first() else {
        return Ok(coders);
    };
    let mut values: [u8; SHORT] = lent();
    let (kind, count) = match letter {
        b'o' => (Kind::Opening(number(rest) as usize), 1),
        b'c' => (Kind::Closing(number(rest) as usize), 1),
        b'b' => (Kind::PushByte, fill(rest, &mut values)),
        b't' => (Kind::NextBit, room(rest, SHORT)),
        b'i' => (Kind::PushBit, fill(rest, &mut values)),
        b'p' => (Kind::PopChar, room(rest, SHORT)),
        _ => return Ok(coders),
    };
    calls(to, coders, kind, &values[..count])
}

// A call for each value, and an answer printed for each. Only a byte or a bit that is put is a value that counts.
fn calls<W: Write>(to: &mut W, start: Coders, kind: Kind, values: &[u8]) -> io::Result<Coders> {
    let mut coders = start;
    for &value in values {
        let called = call(coders, kind, value);
        print_number(to, called.answer, 1)?;
        coders = called.coders;
    }
    Ok(coders)
}

// What one call answers, as a number, and the writer and the reader after it.
#[derive(Clone, Copy)]
struct Called {
    answer: u64,
    coders: Coders,
}

fn call(coders: Coders, kind: Kind, value: u8) -> Called {
    match kind {
        Kind::Opening(n) => {
            let after = coders.encoder.push_preamble(n);
            coders.wrote(put_said(after.answer), after.coder)
        }
        Kind::Closing(n) => {
            let after = coders.encoder.push_postamble(n);
            coders.wrote(put_said(after.answer), after.coder)
        }
        Kind::PushByte => {
            let after = coders.encoder.push_byte(value);
            coders.wrote(put_said(after.answer), after.coder)
        }
        Kind::NextBit => {
            let after = coders.encoder.next_bit();
            coders.wrote(taken_said(after.answer), after.coder)
        }
        Kind::PushBit => {
            let after = coders.decoder.push_bit(value);
            coders.heard(put_said(after.answer), after.coder)
        }
        Kind::PopChar => {
            let after = coders.decoder.pop_char();
            coders.heard(taken_said(after.answer), after.coder)
        }
    }
}

impl Coders {
    fn wrote(self, answer: u64, encoder: VaricodeEncoder) -> Called {
        Called {
            answer,
            coders: Coders { encoder, ..self },
        }
    }

    fn heard(self, answer: u64, decoder: VaricodeDecoder) -> Called {
        Called {
            answer,
            coders: Coders { decoder, ..self },
        }
    }
}

// 0 for done, or a refusal as a door says it.
fn put_said(answer: Result<(), Refusal>) -> u64 {
    answer_number(answer.map(|()| 0))
}

// What is taken out, or 100 for nothing.
fn taken_said(answer: Option<u8>) -> u64 {
    answer.map_or(0x100, u64::from)
}

// Prints a record: the slots, the head, the count, whether no byte was written.
fn print_writer<W: Write>(to: &mut W, encoder: VaricodeEncoder) -> io::Result<()> {
    print_queue(to, encoder.pending)?;
    print_number(to, encoder.first as u64, 1)
}

// Prints a record: whether it is for pauses, the word's bits, its length, whether the last was a zero, the slots, the
// head, the count.
fn print_reader<W: Write>(to: &mut W, decoder: VaricodeDecoder) -> io::Result<()> {
    print_number(to, decoder.pauses as u64, 1)?;
    print_number(to, decoder.shift as u64, 4)?;
    print_number(to, decoder.len as u64, 2)?;
    print_number(to, decoder.prev_zero as u64, 1)?;
    print_queue(to, decoder.chars)
}

// Prints a queue's slots, its head and its count.
fn print_queue<W: Write, const ROOM: usize>(to: &mut W, q: Queue<ROOM>) -> io::Result<()> {
    print_bytes(to, &q.slots)?;
    print_number(to, q.head as u64, 1)?;
    print_number(to, q.count as u64, 1)
}
