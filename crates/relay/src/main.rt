// The relay program: reads its input, calls, and writes the answer's line.
#![tactic(auto)]

ghost use Rattle.std.specs.Prelude.{ℕ, ◌<◌, ◌≤◌, length, take, IfOk, IfSome, OnOk, OnErr};
ghost use Rattle.std.specs.Io.KnownBytes.{Appends, Consumes, IsAtEnd};
ghost use Rattle.line.specs.Line.{output};

use std::io;
use std::io::{Read, Write};

// Reads until the room is full or the input ends, and answers how many bytes stand at the room's front then. After an
// error what was read before it stands there. It is a loop of its own since `read_exact` takes an input's end for an
// error and does not say what it read before, and `read_to_end` wants a `Vec`, which allocates.
fn read_full<R: Read>(from: &mut R, space: &mut [u8]) -> io::Result<usize>
    ensures within { IfOk result (λ n. n ≤ length space.new) }
    ensures bytes { IfOk result
        (λ n. Consumes (R.remaining from.old) (R.remaining from.new) (take n space.new)) }
    ensures end { IfOk result (λ n. n < length space.new → IsAtEnd (R.remaining from.new)) }
    ensures err { OnErr result
        ((n : ℕ) × Consumes (R.remaining from.old) (R.remaining from.new) (take n space.new)) }
{
    let mut done = 0;
    while done < space.len() {
        let n = from.read(&mut space[done..])?;
        if n == 0 {
            break;
        }
        done += n;
    }
    Ok(done)
}

// Answers an input: where its bytes are known, what is written is the whole output for them.
fn answer_input<R: Read, W: Write>(from: &mut R, to: &mut W) -> io::Result<()>
    ensures { OnOk result (IfSome (R.remaining from.old)
        (λ input. Appends (W.contents to.old) (W.contents to.new) (output input))) }
{
    let mut space = line::room();
    let n = read_full(from, &mut space)?;
    let answer = line::answer(&space[..n]);
    to.write_all(answer.written())
}

fn main(rt: HostRuntime) -> io::Result<()> {
    answer_input(&mut rt.stdin(), &mut rt.stdout())
}
