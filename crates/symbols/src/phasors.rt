// The phasor table, the phasor of two hard bits, and what a branch costs.
ghost use Rattle.std.specs.Prelude.{◌≡◌, ◌%◌};
ghost use Rattle.symbols.specs.Costs.{cost, phasor_of};
ghost use Rattle.symbols.specs.Inner.{Priced, pair_cost, opposite};

// A point of the constellation.
#[derive(Clone, Copy)]
pub struct Phasor {
    pub re: f32,
    pub im: f32,
}

// Indexed by twice the first coded bit plus the second.
pub const PHASORS: [Phasor; 4] = [
    Phasor { re: 1.0, im: 0.0 },
    Phasor { re: 0.0, im: -1.0 },
    Phasor { re: 0.0, im: 1.0 },
    Phasor { re: -1.0, im: 0.0 },
];

// The phasor of two hard bits, of each byte the lowest bit. By tests: an array constant that is read at a place known
// only at run time is stored on the stack wherever it is read.
pub fn phasor_of(b0: u8, b1: u8) -> Phasor
    ensures { result ≡ phasor_of (b0 % 2) (b1 % 2) }
{
    if b0 % 2 == 0 {
        if b1 % 2 == 0 { PHASORS[0] } else { PHASORS[1] }
    } else {
        if b1 % 2 == 0 { PHASORS[2] } else { PHASORS[3] }
    }
}

// How far a symbol is from a phasor, squared.
fn cost(symbol: Phasor, at: Phasor) -> f32
    ensures { result ≡ cost symbol.re symbol.im at }
{
    let x = symbol.re - at.re;
    let y = symbol.im - at.im;
    x * x + y * y
}

// What a symbol costs at each phasor, by the coded pair.
#[derive(Clone, Copy)]
pub struct Prices {
    pub of_00: f32,
    pub of_01: f32,
    pub of_10: f32,
    pub of_11: f32,
}

pub fn prices_of(symbol: Phasor) -> Prices
    ensures { Priced symbol.re symbol.im result }
{
    Prices {
        of_00: cost(symbol, PHASORS[0]),
        of_01: cost(symbol, PHASORS[1]),
        of_10: cost(symbol, PHASORS[2]),
        of_11: cost(symbol, PHASORS[3]),
    }
}

// The cost of a coded pair, by tests: a look-up would keep the loop of a step from being vectorised.
pub fn cost_of_pair(c0: u32, c1: u32, prices: Prices) -> f32
    ensures { result ≡ pair_cost c0 c1 prices }
{
    if c0 < 1 {
        if c1 < 1 { prices.of_00 } else { prices.of_01 }
    } else {
        if c1 < 1 { prices.of_10 } else { prices.of_11 }
    }
}

// The same prices by the opposite of the coded pair.
pub fn opposite(prices: Prices) -> Prices
    ensures { result ≡ opposite prices }
{
    Prices {
        of_00: prices.of_11,
        of_01: prices.of_10,
        of_10: prices.of_01,
        of_11: prices.of_00,
    }
}
