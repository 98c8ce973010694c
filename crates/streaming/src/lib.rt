// The streaming decoder: symbol by symbol, each bit 32 symbols late. By value, and in place.
#![tactic(auto)]

ghost use Rattle.std.specs.Prelude.{◌≡◌, suc, ◌+◌, ◌%◌, min};
ghost use Rattle.refusal.specs.Answer.{Says};
ghost use Rattle.refusal.specs.Lent.{lent};
ghost use Rattle.trellis.specs.Choice.{k5};
ghost use Rattle.streaming_steps.specs.Steps.{lag, turns};
ghost use Rattle.streaming.specs.Stream.{bit_behind};
ghost use Rattle.streaming.specs.Said.{Emits};
ghost use Rattle.streaming.specs.Decoder.{state_of, held};
ghost use Rattle.streaming.specs.Promise.{Begins, Feeds, Flushes};
ghost use Rattle.streaming.specs.Inner.{Advances, FeedsLent, FlushesLent};

use butterflies::smallest::MARK;
use refusal::{Answered, Refusal};
use streaming_steps::history::{keep, state_behind, top_bit};
use streaming_steps::metrics::{normalise_after, select};
use streaming_steps::{Front, LAG};
use symbols::forward_pass::first_least;

// Where the count of symbols stays: from then on each brings a bit.
const FULL: u8 = (LAG + 1) as u8;

// How many values the count has.
const COUNTS: u8 = (LAG + 2) as u8;

// The state: the front, and 128 rows of 16 survivors.
#[repr(C)]
#[derive(Clone, Copy)]
pub struct StreamingViterbi {
    pub front: Front,
    pub history: [u8; 2048],
}

// What a symbol gives: a bit, or nothing yet; or a refusal.
pub type Emitted = Result<Option<u8>, Refusal>;

// The counter of symbols up to one more than the lag, after one more of them.
fn next_count(count: u8) -> u8
    ensures { result ≡ min (suc (count % (lag + 2))) (suc lag) }
{
    (count % COUNTS + 1).min(FULL)
}

// The counter of symbols mod 256, after one more of them.
fn next_turn(turn: u8) -> u8
    ensures { result ≡ suc (turn % turns) % turns }
{
    turn.wrapping_add(1)
}

// One symbol: the survivors go to the history, and the front moves on. The components stay two numbers, as document
// 01's calls have them, down to the step, which takes a phasor.
fn advance(front: Front, history: &mut [u8; 2048], re: f32, im: f32) -> Front
    ensures { Advances front re im result (lent history) }
{
    let old = front.pm;
    let mut pm = old;
    let mut froms = [0; 16];
    select(re, im, &old, &mut pm, &mut froms[..]);
    let row = (front.turn % 128) as usize;
    keep(&pm, &froms, 16 * row, history);
    let next = Front {
        pm,
        count: next_count(front.count),
        turn: next_turn(front.turn),
    };
    normalise_after(front.turn, next)
}

// The bit that the last symbol gives, where there is one.
fn bit_behind(front: Front, history: &[u8; 2048]) -> u8
    ensures { result ≡ bit_behind k5 lag (state_of front history.now) }
{
    let pm = front.pm;
    let least = first_least(&pm);
    let row = ((front.turn as usize) % 128 + 127) % 128;
    top_bit(state_behind(history, row, least))
}

// A symbol, where the history is lent.
fn feed_lent(front: Front, history: &mut [u8; 2048], re: f32, im: f32) -> Answered<Emitted, Front>
    ensures { FeedsLent front re im result (lent history) }
{
    let re_good = f32s::within(re);
    if !re_good {
        return Answered::refused(front, Refusal::BadComponent(0));
    }
    let im_good = f32s::within(im);
    if !im_good {
        return Answered::refused(front, Refusal::BadComponent(1));
    }
    let next = advance(front, history, re, im);
    if next.count < FULL {
        return Answered {
            answer: Ok(None),
            coder: next,
        };
    }
    let bit = bit_behind(next, history);
    Answered {
        answer: Ok(Some(bit)),
        coder: next,
    }
}

// A flush, where the history is lent: as many symbols (0, 0) as a bit comes late.
fn flush_lent(
    front: Front,
    history: &mut [u8; 2048],
    out: &mut [u8],
) -> Answered<Result<usize, Refusal>, Front>
    ensures { FlushesLent front result (lent history) (lent out) }
{
    if out.len() < LAG {
        return Answered::refused(front, Refusal::ShortOutput);
    }
    let mut at = front;
    let mut written = 0;
    // How many bits come is seen as they come, so the place of the next is counted.
    for _ in 0..LAG {
        at = advance(at, history, 0.0, 0.0);
        if FULL <= at.count {
            out[written] = bit_behind(at, history);
            written += 1;
        }
    }
    Answered {
        answer: Ok(written),
        coder: at,
    }
}

impl StreamingViterbi {
    pub fn new() -> StreamingViterbi
        ensures { Begins (held result) }
    {
        let mut pm = [MARK; 16];
        pm[0] = 0.0;
        StreamingViterbi {
            front: Front {
                pm,
                count: 0,
                turn: 0,
            },
            history: [0; 2048],
        }
    }

    // One symbol: a bit, or nothing up to the lag; or refusal 7, which leaves the decoder as it was.
    pub fn feed_symbol(self, re: f32, im: f32) -> Answered<Emitted, StreamingViterbi>
        ensures { Feeds (Emits result.answer) (held self) (held result.coder) re im }
    {
        let mut history = self.history;
        let before = self.front;
        let s = feed_lent(before, &mut history, re, im);
        let answer = s.answer;
        let front = s.coder;
        Answered {
            answer,
            coder: StreamingViterbi { front, history },
        }
    }

    // As many symbols (0, 0) as a bit comes late. The bits go to the front of out; or refusal 4, which
    // leaves everything as it was.
    pub fn flush(self, out: &mut [u8]) -> Answered<Result<usize, Refusal>, StreamingViterbi>
        ensures { Flushes (Says result.answer) (held self) (held result.coder) (lent out) }
    {
        let mut history = self.history;
        let before = self.front;
        let d = flush_lent(before, &mut history, out);
        let answer = d.answer;
        let front = d.coder;
        Answered {
            answer,
            coder: StreamingViterbi { front, history },
        }
    }
}

// In place, for a host that keeps one decoder: the history is lent, the rest is copied out and stored back.
pub fn feed(d: &mut StreamingViterbi, re: f32, im: f32) -> Emitted
    ensures { Feeds (Emits result) (held d.old) (held d.new) re im }
{
    let s = feed_lent(d.front, &mut d.history, re, im);
    d.front = s.coder;
    s.answer
}

// The same of a flush: the output is passed on.
pub fn flush(d: &mut StreamingViterbi, out: &mut [u8]) -> Result<usize, Refusal>
    ensures { Flushes (Says result) (held d.old) (held d.new) (lent out) }
{
    let s = flush_lent(d.front, &mut d.history, out);
    d.front = s.coder;
    s.answer
}
