// Reads a list of calls from standard input, makes each, and prints its answer. What it prints is held to the file
// `stdout`, which has the Rust's answers, and by the documents' rules those that the Rust cannot have.
//
// A line is a call: a letter for the entry, then fields that one space parts. The answer's line has the letter
// again and the answer's fields. A line that is empty or begins with '#' has an empty line for its answer. One that
// is no call is answered by `no call`, and one that is longer than the room for it by `too long`.
#![tactic(auto)]

ghost use Rattle.std.specs.Prelude.{◌≤◌, ◌<◌, length, IfOk};

mod blocks;
mod stream;
mod varicodes;

use call_lines::print::Printer;
use call_lines::shapes::{Call, call_of};
use std::io;
use std::io::{Read, Write};

// What stands in place of the front of a line that is too long. It is a byte, and no flag beside the text, so that a
// line of the input that begins with it is answered as ever.
const CUT: u8 = 0;

// The room has a line of 16,384 symbols, digit by digit.
const ROOM: usize = 266240;

// Makes a call, and prints its answer's fields.
fn make<W: Write>(to: &mut W, call: Call, line: &[u8]) -> io::Result<()> {
    match call {
        Call::Punctured => blocks::punctured(to, line),
        Call::Plain => blocks::plain(to, line),
        Call::Length => blocks::length(to, line),
        Call::Readings => blocks::readings(to, line),
        Call::Signed => blocks::signed(to, line),
        Call::Soft => blocks::soft(to, line),
        Call::Hard => blocks::hard(to, line),
        Call::FreshStream => stream::fresh(to),
        Call::Feed => stream::feed(to, line),
        Call::Flush => stream::flush(to, line),
        Call::Word => varicodes::word(to, line),
        Call::Lookups => varicodes::lookups(to, line),
        Call::FreshCoders => varicodes::fresh(to),
        Call::Write => varicodes::write(to, line),
        Call::Read => varicodes::read(to, line),
    }
}

// One line, without its line feed.
fn answer<W: Write>(to: &mut W, line: &[u8]) -> io::Result<()> {
    match line {
        [] | [b'#', ..] => {}
        [CUT, ..] => to.write_all(b"too long")?,
        [letter, ..] => match call_of(line) {
            Some(call) => {
                to.write_all(&[*letter])?;
                make(to, call, line)?;
            }
            None => to.write_all(b"no call")?,
        },
    }
    to.write_all(b"\n")
}

// Each whole line of a text. Answers how many bytes are left behind them, the front of a line: so it goes on by what is
// left, of which an iterator over lines would not tell.
fn answer_lines<W: Write>(to: &mut W, text: &[u8]) -> io::Result<usize>
    ensures { IfOk result (λ left. left ≤ length text.now) }
{
    let mut rest = text;
    while let Some(end) = rest.iter().position(|b| *b == b'\n') {
        answer(to, &rest[..end])?;
        rest = &rest[end + 1..];
    }
    Ok(rest.len())
}

// Reads to the end of the input, and answers each line. Nothing says that an input ends, so the loop has as many turns
// as no run uses up. The text lies in an array, and how much of it is kept beside it: the program has no heap.
fn answer_all<R: Read, W: Write>(from: &mut R, to: &mut W) -> io::Result<()> {
    let mut text = [0; ROOM];
    let mut kept = 0;
    for _ in 0..u64::MAX {
        let end = kept + from.read(&mut text[kept..])?;
        if end == kept {
            break;
        }
        let left = answer_lines(to, &text[..end])?;
        to.flush()?;
        text.copy_within(end - left..end, 0);
        kept = left;
        // A line's front that fills all the room is dropped, but for a mark of it.
        if kept == ROOM {
            text[0] = CUT;
            kept = 1;
        }
    }
    // The last line, where no line feed ends it.
    if kept > 0 {
        answer(to, &text[..kept])?;
    }
    to.flush()
}

fn main(rt: HostRuntime) -> io::Result<()> {
    answer_all(&mut rt.stdin(), &mut Printer::new(rt.stdout()))
}
