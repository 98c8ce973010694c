// The relay program's answer: from the bytes of its input to those of its output.
#![tactic(auto)]

ghost use Rattle.std.specs.Prelude.{[], ◌≡◌, ◌+◌, ◌≤◌, length, replicate};
ghost use Rattle.refusal.specs.Answer.{accepted};
ghost use Rattle.line.specs.Line.{most_bytes, most_info, shaped};
ghost use Rattle.line.specs.Promise.{AnswersInput};
ghost use Rattle.line.specs.Inner.{refusal_said, PrintsAnswer, DecodesInput};

use refusal::Refusal;
use text::Line;

// The most bytes of an input, and the most info bits that it may ask for.
const MOST_BYTES: usize = 8192;

const MOST_INFO: usize = 1000;

// One byte more than an input may have: so a longer one is told from the longest.
pub const ROOM: usize = MOST_BYTES + 1;

// The survivors of as many info bits in the widest code.
const SURVIVORS: usize = (MOST_INFO + trellis::WIDEST) * trellis::MOST_STATES;

// The bytes of a line: the longest has 21 more than info bits.
const LINE_BYTES: usize = MOST_INFO + 24;

// The line of an answer.
pub type Answer = Line<LINE_BYTES>;

// Room for the program's input.
pub fn room() -> [u8; ROOM]
    ensures { result ≡ replicate (most_bytes + 1) 0 }
{
    [0; ROOM]
}

// 4 + 4k bytes, and no more than the most.
fn is_shaped(n: usize) -> bool
    ensures { result ≡ shaped n }
{
    4 <= n && n <= MOST_BYTES && n % 4 == 0
}

fn refused_line(r: Refusal) -> Answer
    ensures { PrintsAnswer (refusal_said r) [] result }
{
    let mut line = Line::new();
    line.put(b"refused ");
    line.put_decimal(u32::from(r.number()));
    line.put(b" at ");
    line.put_decimal(r.place());
    line.put(b"\n");
    line
}

fn word_line(word: &[u8], score: f32) -> Answer
    requires { length word.now ≤ most_info }
    ensures { PrintsAnswer (accepted score) word.now result }
{
    let mut line = Line::new();
    line.put(b"word ");
    line.put_word(word);
    line.put(b" score ");
    line.put_hex(f32s::bits_of(score));
    line.put(b"\n");
    line
}

// The line of the word and the score that an input's readings decode to.
fn decoded_line(input: &[u8]) -> Result<Answer, Refusal>
    ensures { DecodesInput input.now result }
{
    if !is_shaped(input.len()) {
        return Err(Refusal::BadInput);
    }
    let info = usize::from(u16::from_le_bytes([input[2], input[3]]));
    encoder::refused_choice(input[0], input[1], info, MOST_INFO)?;
    let mut word = [0; MOST_INFO];
    let mut scratch = [0; SURVIVORS];
    let score = readings::viterbi_decode_bytes(
        input[0],
        &input[4..],
        info,
        input[1],
        &mut word[..],
        &mut scratch[..],
    )?;
    Ok(word_line(&word[..info], score))
}

// The whole output for an input.
pub fn answer(input: &[u8]) -> Answer
    ensures { AnswersInput input.now result }
{
    decoded_line(input).unwrap_or_else(refused_line)
}
