// How an answer's fields are printed: numbers and bytes in lower-case hex, one space before each field. They go to any
// writer, and an error is the writer's: what was printed may then have gone to it in part.
ghost use Rattle.std.specs.Prelude.{◌≡◌, ◌<◌, ◌/◌, ◌%◌, [], ◌∷◌, OnErr};
ghost use Rattle.call_lines.specs.Hex.{digit};

use std::io;
use std::io::Write;
use text::Line;

// What is printed goes by way of a text of this size, so that a long field takes few writes.
const TEXT: usize = 4096;

// A writer that gathers what is printed, and hands it on once the text is full, or by `flush`. It is not std's
// `BufWriter`, whose buffer is allocated: the program has no heap.
#[derive(Drop)]
pub struct Printer<W> {
    to: W,
    text: Line<TEXT>,
}

impl<W: Write> Printer<W> {
    pub fn new(to: W) -> Self
        ensures text { result.text ≡ [] }
        ensures to { result.to ≡ to }
    {
        Printer {
            to,
            text: Line::new(),
        }
    }

    // After an error the text is as it was.
    fn hand_on(&mut self) -> io::Result<()>
        ensures { OnErr result (self.new.text ≡ self.old.text) }
    {
        self.to.write_all(self.text.written())?;
        self.text = Line::new();
        Ok(())
    }
}

impl<W: Write> Write for Printer<W> {
    fn write(&mut self, bytes: &[u8]) -> io::Result<usize> {
        if self.text.written().len() == TEXT {
            self.hand_on()?;
        }
        let count = bytes.len().min(TEXT - self.text.written().len());
        self.text.put(&bytes[..count]);
        Ok(count)
    }

    fn flush(&mut self) -> io::Result<()> {
        self.hand_on()?;
        self.to.flush()
    }
}

// As many equal bytes as this, or more, are printed as a run.
const RUN: usize = 8;

// Prints a space and bytes, two digits each, or `-` where there are none.
pub fn print_bytes<W: Write>(to: &mut W, bytes: &[u8]) -> io::Result<()> {
    if bytes.is_empty() {
        return to.write_all(b" -");
    }
    to.write_all(b" ")?;
    for run in bytes.chunk_by(|a, b| a == b) {
        print_run(to, run)?;
    }
    Ok(())
}

// Equal bytes: `(BB*COUNT)`, or each by itself where they are few.
fn print_run<W: Write>(to: &mut W, run: &[u8]) -> io::Result<()> {
    match run {
        [byte, ..] if RUN <= run.len() => {
            let count = run.len();
            write!(to, "({byte:02x}*{count:x})")
        }
        _ => {
            for byte in run {
                to.write_all(&digits_of(*byte))?;
            }
            Ok(())
        }
    }
}

// A byte's two digits. By hand: by `{:02x}` a program that prints long fields takes up to twice as long and more.
fn digits_of(byte: u8) -> [u8; 2]
    ensures { result ≡ digit (byte / 16) ∷ digit (byte % 16) ∷ [] }
{
    [digit(byte / 16), digit(byte % 16)]
}

// 0 to 9, then a to f.
fn digit(d: u8) -> u8
    requires { d < 16 }
    ensures { result ≡ digit d }
{
    if d < 10 { b'0' + d } else { b'a' + (d - 10) }
}

// Prints a space and a number, with zeros in front up to width digits, of which there are sixteen at most.
pub fn print_number<W: Write>(to: &mut W, n: u64, width: usize) -> io::Result<()> {
    let width = width.min(16);
    write!(to, " {n:0width$x}")
}

// Prints an answer as a door's number, and a lent buffer after the call.
pub fn print_answer<W: Write>(to: &mut W, answer: u64, out: &[u8]) -> io::Result<()> {
    print_number(to, answer, 16)?;
    print_bytes(to, out)
}
