// The calls of the streaming decoder, by value.
use call_lines::fields::{SHORT, byte, field, fill, fill_floats, lent, room};
use call_lines::print::{print_answer, print_bytes, print_number};
use call_lines::shapes::COMPONENTS;
use refusal::{answer_number, count_number};
use std::io;
use std::io::Write;
use streaming::{Emitted, StreamingViterbi};
use streaming_steps::Front;

// `n`. Prints a fresh record.
pub fn fresh<W: Write>(to: &mut W) -> io::Result<()> {
    print_record(to, StreamingViterbi::new())
}

// `t METRICS HISTORY COUNT TURN COMPONENTS`: a record, and the components' bytes. Prints an answer for each symbol,
// and the record.
pub fn feed<W: Write>(to: &mut W, line: &[u8]) -> io::Result<()> {
    let mut soft = [0.0; COMPONENTS];
    let n = fill_floats(field(line, 5), &mut soft);
    let fed = feed_all(to, record(line), &soft[..n])?;
    print_record(to, fed)
}

// `u METRICS HISTORY COUNT TURN ROOM`: a record, and the output's length. Prints the answer, the output and the record.
pub fn flush<W: Write>(to: &mut W, line: &[u8]) -> io::Result<()> {
    let mut out: [u8; SHORT] = lent();
    let out = &mut out[..room(field(line, 5), SHORT)];
    let flushed = record(line).flush(out);
    print_answer(to, count_number(flushed.answer), out)?;
    print_record(to, flushed.coder)
}

// The record that a line's first four fields spell.
fn record(line: &[u8]) -> StreamingViterbi {
    let mut pm = [0.0; 16];
    fill_floats(field(line, 1), &mut pm);
    let mut history = [0u8; 2048];
    fill(field(line, 2), &mut history);
    let front = Front {
        pm,
        count: byte(field(line, 3)),
        turn: byte(field(line, 4)),
    };
    StreamingViterbi { front, history }
}

// Feeds symbols one after the other, re and im in turn, and prints each answer.
fn feed_all<W: Write>(
    to: &mut W,
    mut decoder: StreamingViterbi,
    soft: &[f32],
) -> io::Result<StreamingViterbi> {
    for symbol in soft.chunks_exact(2) {
        let fed = decoder.feed_symbol(symbol[0], symbol[1]);
        print_number(to, emitted_number(fed.answer), 1)?;
        decoder = fed.coder;
    }
    Ok(decoder)
}

// A bit, 2 for nothing, or a refusal as a door says it. `bench_calls` says the same, but is a static library, so nothing
// can stand on it.
fn emitted_number(answer: Emitted) -> u64 {
    answer_number(answer.map(|bit| bit.map_or(2, u64::from)))
}

// Prints a record: the metrics' bytes, the history, the two counters.
fn print_record<W: Write>(to: &mut W, decoder: StreamingViterbi) -> io::Result<()> {
    let mut metrics = [0; 64];
    for (bytes, metric) in metrics.chunks_exact_mut(4).zip(&decoder.front.pm) {
        bytes.copy_from_slice(&f32s::bits_of(*metric).to_le_bytes());
    }
    print_bytes(to, &metrics)?;
    print_bytes(to, &decoder.history)?;
    print_number(to, decoder.front.count as u64, 2)?;
    print_number(to, decoder.front.turn as u64, 2)
}
