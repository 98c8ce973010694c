// The decoding of a block of readings, whatever numbers they are: all steps from state 0, add, compare, select, with
// the survivors of each step kept, and the way back over these.
#![tactic(auto)]

ghost use Rattle.std.specs.Prelude.{◌≡◌, ◌*◌, ◌^◌, ◌<◌, List, eqb};
ghost use Rattle.std.specs.Mem.{type_size};
ghost use Rattle.refusal.specs.Lent.{lent};
ghost use Rattle.trellis.specs.Choice.{keep_of};
ghost use Rattle.trellis.specs.Places.{value_of, filled};
ghost use Rattle.steps.specs.Holding.{Holding, Sound};
ghost use Rattle.steps.specs.Inner.{KeptAsked, Turnable, Turned, Steppable, SteppableOf, Steps, Runnable, Runs};
ghost use Rattle.steps.specs.Inner.{Decodable, Finds};

use best_path::pair::Wing;
use trellis::{ConvCode, Planes, Selected};

// A kind of decoder: the numbers that it adds, and a turn of a step's loop.
pub trait Decoder {
    type Number: Copy;

    ghost held: { Holding Self.Number };

    // What a state has at the start: one that was not reached, and state 0.
    ghost MARK: { Self.Number };

    const MARK: Self::Number;

    ghost ZERO: { Self.Number };

    const ZERO: Self::Number;

    // What the states s and s + 1 lead to, of metrics m0 and m1, from the coded bits that the even state sends on the
    // input 0, where the step reads a and b.
    fn turn(
        c0: u32,
        c1: u32,
        a: Self::Number,
        b: Self::Number,
        m0: Self::Number,
        m1: Self::Number,
        s: u8,
    ) -> Wing<Self::Number>
        requires { Turnable held a b m0 m1 s }
        ensures { Turned held c0 c1 a b m0 m1 s result };

    ghost sound: { Sound held MARK ZERO };

    // The metrics of all states fit in memory.
    ghost fit: { 64 * type_size Self.Number.row < 2 ^ 63 };
}

// Readings for a kind of decoder.
pub trait Readings<D: Decoder> {
    ghost readings: { Self → List D.Number };

    // The reading of a place: zero where it was deleted or is missing.
    fn value_at(&self, column: u8, at: usize) -> D::Number
        requires { KeptAsked D.held column (readings self.now) at }
        ensures { result ≡ value_of D.held.on.zero (filled (eqb column 1) (readings self.now) at) };
}

// One step that reads a and b: the new metrics go to the front of next, the survivors to the front of row.
// Survivor numbers come from a counter of their own: made from n they keep the loop from being
// vectorised well. A turn reads four arrays and writes both halves of two, by one index: chained iterators for that are
// no plainer.
fn step<D: Decoder>(
    code: ConvCode,
    half: usize,
    sent: &Planes,
    a: D::Number,
    b: D::Number,
    pm: &[D::Number; 64],
    next: &mut [D::Number; 64],
    row: &mut [u8],
)
    requires { Steppable D.held code half sent.now.c0 sent.now.c1 a b pm.now row.old }
    ensures { Steps D.held code pm.now a b (lent next) (lent row) }
{
    // Lent as a slice, the array tells its length.
    let whole = &next[..];
    let mut s: u8 = 0;
    for n in 0..half {
        let even = 2 * n;
        let w = D::turn(sent.c0[n], sent.c1[n], a, b, pm[even], pm[even + 1], s);
        let low = w.low;
        let high = w.high;
        next[n] = low.met;
        next[n + half] = high.met;
        row[n] = low.from;
        row[n + half] = high.from;
        s += 2;
    }
}

// The same with half a constant, 32 or 8: so the compiler unrolls the turns and keeps the metrics where they are.
fn step_of<D: Decoder>(
    code: ConvCode,
    half: usize,
    sent: &Planes,
    a: D::Number,
    b: D::Number,
    pm: &[D::Number; 64],
    next: &mut [D::Number; 64],
    row: &mut [u8],
)
    requires { SteppableOf D.held code half sent.now.c0 sent.now.c1 a b pm.now row.old }
    ensures { Steps D.held code pm.now a b (lent next) (lent row) }
{
    if half == 32 {
        step::<D>(code, 32, sent, a, b, pm, next, row);
    } else {
        step::<D>(code, 8, sent, a, b, pm, next, row);
    }
}

// All steps, from state 0. The survivors of each go to a row of rows; answers state 0's last metric.
pub fn forward<D: Decoder, R: Readings<D>>(
    chosen: Selected,
    half: usize,
    readings: &R,
    steps: usize,
    rows: &mut [u8],
) -> D::Number
    requires { Runnable D.held chosen.code half chosen.keep (R.readings readings.now) steps rows.old }
    ensures { Runs D.held chosen.code (keep_of chosen.keep) (2 * half) steps (R.readings readings.now) result
        (lent rows) }
{
    let code = chosen.code;
    let keep = chosen.keep;
    let sent = trellis::sent_by_even(code, half);
    let period = keep.period;
    let row0 = keep.row0;
    let row1 = keep.row1;
    let states = 2 * half;
    let mut pm = [D::MARK; 64];
    pm[0] = D::ZERO;
    let mut next = pm;
    let mut column = 0;
    let mut at = 0;
    let mut to = 0;
    // A column, a place in the readings and a row go on at three paces: chunks of the rows would spare one of them.
    for t in 0..steps {
        let a = readings.value_at(row0[column], at);
        at = correlation::after(row0[column], at);
        let b = readings.value_at(row1[column], at);
        at = correlation::after(row1[column], at);
        step_of::<D>(code, half, &sent, a, b, &pm, &mut next, &mut rows[to..]);
        pm = next;
        to += states;
        column = trellis::next_column(column, period);
    }
    pm[0]
}

// All steps and the way back. Answers the score; the word goes to the front of out, the survivors to the front of
// scratch.
pub fn decode<D: Decoder, R: Readings<D>>(
    chosen: Selected,
    half: usize,
    readings: &R,
    info: usize,
    out: &mut [u8],
    scratch: &mut [u8],
) -> D::Number
    requires { Decodable D.held chosen.code half chosen.keep (R.readings readings.now) info out.old scratch.old }
    ensures { Finds D.held chosen.code (keep_of chosen.keep) (2 * half) info (R.readings readings.now) result
        (lent out) (lent scratch) }
{
    let code = chosen.code;
    let steps = info + code.width;
    let score = forward::<D, R>(chosen, half, readings, steps, scratch);
    best_path::trace(code, half, scratch, steps, 0, info, out);
    score
}
