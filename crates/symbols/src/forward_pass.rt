// All symbols from state 0, each read where it lies: add, compare, select, with the survivors of each kept; and the
// first least state. For any code of 16 states.
ghost use Rattle.std.specs.Prelude.{cond, ◌≡◌, ◌+◌, ◌*◌, ◌≤◌, ◌<◌};
ghost use Rattle.std.specs.Float.Ieee.{lt};
ghost use Rattle.refusal.specs.Lent.{lent};
ghost use Rattle.symbols.specs.Decode.{first_least};
ghost use Rattle.symbols.specs.Inner.{half, Steppable, Selects, compared, LeastIn};
ghost use Rattle.symbols.specs.Inner.{components_of, Counted, symbol_at, Runnable, Runs};

use crate::phasors::{Phasor, cost_of_pair, opposite, phasor_of, prices_of};
use best_path::select::butterfly;
use butterflies::smallest::{MARK, Smallest};
use trellis::{ConvCode, Planes};

// Half of the states, and all of them.
pub const HALF: usize = 8;

pub const STATES: usize = 2 * HALF;

// One step of a symbol: the new metrics go to next, the survivors to the front of row. Survivor numbers
// come from a counter of their own: made from n they keep the loop from being vectorised well. It is not `steps::step`,
// whose turn makes what a branch brings from two readings: here that is picked from prices, which are made once, before
// the loop. Its turns go by number, as those there.
pub fn step(
    code: ConvCode,
    sent: &Planes,
    symbol: Phasor,
    pm: &[f32; STATES],
    next: &mut [f32; STATES],
    row: &mut [u8],
)
    requires { Steppable code sent.now.c0 sent.now.c1 row.old }
    ensures { Selects code pm.now symbol.re symbol.im (lent next) (lent row) }
{
    let prices = prices_of(symbol);
    let turned = opposite(prices);
    // Lent as a slice, the array tells its length.
    let whole = &next[..];
    let mut s: u8 = 0;
    for n in 0..HALF {
        let x = cost_of_pair(sent.c0[n], sent.c1[n], prices);
        let y = cost_of_pair(sent.c0[n], sent.c1[n], turned);
        let even = 2 * n;
        let w = butterfly::<Smallest>(pm[even], pm[even + 1], s, x, y);
        let low = w.low;
        let high = w.high;
        next[n] = low.met;
        next[n + HALF] = high.met;
        row[n] = low.from;
        row[n + HALF] = high.from;
        s += 2;
    }
}

// A metric as states are compared by it. A NaN is never smaller than another: it stands as the largest, and at
// state 0, which only a smaller one takes over from, as the least.
fn compared(m: f32, state: u8) -> f32
    ensures { result ≡ compared state m }
{
    let most = f32::from_bits(0x7f80_0000);
    if state == 0 {
        if -most < m { m } else { -most }
    } else {
        if m < most { m } else { most }
    }
}

// A state, and its metric as it is compared.
#[derive(Clone, Copy)]
struct Placed {
    met: f32,
    state: u8,
}

fn placed_at(pm: &[f32; STATES], state: u8) -> Placed
    requires { state < 2 * half }
    ensures { LeastIn pm.now state 1 result }
{
    // Lent as a slice, the array tells its length.
    let whole = &pm[..];
    Placed {
        met: compared(pm[state as usize], state),
        state,
    }
}

// The first of the two, unless the second is smaller.
fn lesser(a: Placed, b: Placed) -> Placed
    ensures { result ≡ cond (lt b.met a.met) b a }
{
    if b.met < a.met { b } else { a }
}

// The first least of four states that follow one another.
fn least_of_four(pm: &[f32; STATES], at: u8) -> Placed
    requires { at + 4 ≤ 2 * half }
    ensures { LeastIn pm.now at 4 result }
{
    let middle = at + 2;
    let low = lesser(placed_at(pm, at), placed_at(pm, at + 1));
    let high = lesser(placed_at(pm, middle), placed_at(pm, middle + 1));
    lesser(low, high)
}

// The first of the states with the least metric: a tournament of neighbours, whose turns do not wait for each
// other as they would where one state after the other is looked at.
pub fn first_least(pm: &[f32; STATES]) -> usize
    ensures { result ≡ first_least pm.now (2 * half) }
{
    let low = lesser(least_of_four(pm, 0), least_of_four(pm, 4));
    let high = lesser(least_of_four(pm, 8), least_of_four(pm, 12));
    let least = lesser(low, high);
    least.state as usize
}

// The symbols of a decoding, where they lie: of each two components, re before im, or two hard bits. Both forms come to
// the one loop of `forward`, so that nobody needs room to make phasors of the bits.
#[derive(Clone, Copy)]
pub enum Symbols<'a> {
    Soft(&'a [f32]),
    Hard(&'a [u8]),
}

// Symbol t as a phasor.
fn symbol_at(symbols: Symbols, t: usize) -> Phasor
    requires { Counted (components_of symbols) (t + 1) }
    ensures { result ≡ symbol_at (components_of symbols.entry) t }
{
    let at = 2 * t;
    match symbols {
        Symbols::Soft(soft) => {
            let re = soft[at];
            let im = soft[at + 1];
            Phasor { re, im }
        }
        Symbols::Hard(bits) => {
            let b0 = bits[at];
            let b1 = bits[at + 1];
            phasor_of(b0, b1)
        }
    }
}

// All symbols, from state 0. The survivors of each go to a row of rows; answers the first least state.
pub fn forward(code: ConvCode, symbols: Symbols, count: usize, rows: &mut [u8]) -> usize
    requires { Runnable code (components_of symbols) count rows.old }
    ensures { Runs code (components_of symbols.entry) count result (lent rows) }
{
    let sent = trellis::sent_by_even(code, HALF);
    let mut pm = [MARK; STATES];
    pm[0] = 0.0;
    let mut next = pm;
    let mut to = 0;
    // By number: pairs of components and pairs of bits are two types of iterator.
    for t in 0..count {
        let symbol = symbol_at(symbols, t);
        step(code, &sent, symbol, &pm, &mut next, &mut rows[to..]);
        pm = next;
        to += STATES;
    }
    first_least(&pm)
}
