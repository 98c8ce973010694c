// One step of the shift register for any code, which coded bits a keep pattern keeps, and the coded length.
#![tactic(auto)]

ghost use Rattle.std.specs.Prelude.{ℕ, ◌≡◌, ◌+◌, ◌%◌, ◌<◌, ◌≤◌};
ghost use Rattle.trellis.specs.declared.Code.{Code};
ghost use Rattle.trellis.specs.Choice.{coding_of, code_of, pattern_of, held_of, keep_of};
ghost use Rattle.trellis.specs.Keep.{coded_length};
ghost use Rattle.trellis.specs.Numbers.{code_number, rate_number, NamesCode, NamesRate};
ghost use Rattle.trellis.specs.State.{window, parity_of, next_state};
ghost use Rattle.trellis.specs.Inner.{Chooses, Branch, Branched, Halved, SendsEven};
ghost use Rattle.trellis.specs.Inner.{OnesIn, Columns, OnesOfColumns, Measurable};

// A code: the register's width K - 1, and the tap words over the window of K bits, whose top bit
// is the input.
#[derive(Clone, Copy)]
pub struct ConvCode {
    pub width: usize,
    pub g0: u32,
    pub g1: u32,
}

// The codes by name: QPSK31's, the inner code of DVB-T with the Rust's keep patterns, and with those of EN 300 744.
#[derive(Clone, Copy, PartialEq, Eq, Debug)]
pub enum Code {
    K5,
    K7,
    En300744,
}

// The rates that each code has.
#[derive(Clone, Copy, PartialEq, Eq, Debug)]
pub enum Rate {
    R1_2,
    R2_3,
    R3_4,
    R5_6,
    R7_8,
}

// A number that names no code.
#[derive(Clone, Copy, PartialEq, Eq, Debug)]
pub struct UnknownCode {
    pub number: u8,
}

// A number that names no rate.
#[derive(Clone, Copy, PartialEq, Eq, Debug)]
pub struct UnknownRate {
    pub number: u8,
}

impl TryFrom<u8> for Code {
    type Error = UnknownCode;

    ghost try_from_gives = { NamesCode };

    fn try_from(number: u8) -> Result<Self, UnknownCode> {
        match number {
            0 => Ok(Code::K5),
            1 => Ok(Code::K7),
            2 => Ok(Code::En300744),
            _ => Err(UnknownCode { number }),
        }
    }
}

impl TryFrom<u8> for Rate {
    type Error = UnknownRate;

    ghost try_from_gives = { NamesRate };

    #[tactic(auto, using(crate::proofs::Chosen::rates_same))]
    fn try_from(number: u8) -> Result<Self, UnknownRate> {
        match number {
            0 => Ok(Rate::R1_2),
            1 => Ok(Rate::R2_3),
            2 => Ok(Rate::R3_4),
            3 => Ok(Rate::R5_6),
            4 => Ok(Rate::R7_8),
            _ => Err(UnknownRate { number }),
        }
    }
}

// The code of QPSK31.
const K5: ConvCode = ConvCode {
    width: 4,
    g0: 0b10101,
    g1: 0b10011,
};

// The widest register of all, and how many states it has.
pub const WIDEST: usize = 6;

pub const MOST_STATES: usize = 64;

// The inner code of DVB-T: octal 171 and 133.
const K7: ConvCode = ConvCode {
    width: WIDEST,
    g0: 0b1111001,
    g1: 0b1011011,
};

// A keep pattern: G0's row and G1's, of which the first `period` columns count. The project keeps to fixed memory, and
// `held_of` fixes each byte, so the rows are arrays of the longest period and not slices of the pattern's own.
#[derive(Clone, Copy)]
pub struct KeepPattern {
    pub period: usize,
    pub row0: [u8; 7],
    pub row1: [u8; 7],
}

// Rate 1/2, where both are kept.
const HALF: KeepPattern = KeepPattern {
    period: 1,
    row0: [1, 0, 0, 0, 0, 0, 0],
    row1: [1, 0, 0, 0, 0, 0, 0],
};

// The Rust's rows.
const RUST_2_3: KeepPattern = KeepPattern {
    period: 2,
    row0: [1, 1, 0, 0, 0, 0, 0],
    row1: [1, 0, 0, 0, 0, 0, 0],
};

const RUST_3_4: KeepPattern = KeepPattern {
    period: 3,
    row0: [1, 1, 0, 0, 0, 0, 0],
    row1: [1, 0, 1, 0, 0, 0, 0],
};

const RUST_5_6: KeepPattern = KeepPattern {
    period: 5,
    row0: [1, 1, 0, 1, 0, 0, 0],
    row1: [1, 0, 1, 0, 1, 0, 0],
};

const RUST_7_8: KeepPattern = KeepPattern {
    period: 7,
    row0: [1, 1, 1, 1, 0, 1, 0],
    row1: [1, 0, 0, 0, 1, 0, 1],
};

// The rows of EN 300 744: X's, and Y's.
const STANDARD_2_3: KeepPattern = KeepPattern {
    period: 2,
    row0: [1, 0, 0, 0, 0, 0, 0],
    row1: [1, 1, 0, 0, 0, 0, 0],
};

const STANDARD_3_4: KeepPattern = KeepPattern {
    period: 3,
    row0: [1, 0, 1, 0, 0, 0, 0],
    row1: [1, 1, 0, 0, 0, 0, 0],
};

const STANDARD_5_6: KeepPattern = KeepPattern {
    period: 5,
    row0: [1, 0, 1, 0, 1, 0, 0],
    row1: [1, 1, 0, 1, 0, 0, 0],
};

const STANDARD_7_8: KeepPattern = KeepPattern {
    period: 7,
    row0: [1, 0, 0, 0, 1, 0, 1],
    row1: [1, 1, 1, 1, 0, 1, 0],
};

impl Code {
    // The code of a number, K5 where the number is no code's.
    #[tactic(auto, using(crate::proofs::Chosen::code_named))]
    fn of(number: u8) -> Self
        ensures { coding_of (code_number result) ≡ coding_of number }
    {
        Code::try_from(number).unwrap_or(Code::K5)
    }

    #[tactic(auto, unfolding(crate::specs::Choice::code_of))]
    fn tap_words(self) -> ConvCode
        ensures { result ≡ code_of (code_number self) }
    {
        match self {
            Code::K5 => K5,
            Code::K7 | Code::En300744 => K7,
        }
    }

    #[tactic(auto, unfolding(crate::specs::Choice::pattern_of, crate::specs::Choice::held_of))]
    fn keep(self, rate: Rate) -> KeepPattern
        ensures { result ≡ held_of (pattern_of (code_number self) (rate_number rate)) }
    {
        match (self, rate) {
            (_, Rate::R1_2) => HALF,
            (Code::En300744, Rate::R2_3) => STANDARD_2_3,
            (Code::En300744, Rate::R3_4) => STANDARD_3_4,
            (Code::En300744, Rate::R5_6) => STANDARD_5_6,
            (Code::En300744, Rate::R7_8) => STANDARD_7_8,
            (_, Rate::R2_3) => RUST_2_3,
            (_, Rate::R3_4) => RUST_3_4,
            (_, Rate::R5_6) => RUST_5_6,
            (_, Rate::R7_8) => RUST_7_8,
        }
    }
}

impl Rate {
    // The rate of a number, 1/2 where the number is no rate's.
    #[tactic(auto, using(crate::proofs::Chosen::rate_named))]
    fn of(number: u8) -> Self
        ensures { (code : Code) → pattern_of (code_number code) (rate_number result)
            ≡ pattern_of (code_number code) number }
    {
        Rate::try_from(number).unwrap_or(Rate::R1_2)
    }
}

// What a code number and a rate number select together.
#[derive(Clone, Copy)]
pub struct Selected {
    pub code: ConvCode,
    pub keep: KeepPattern,
}

// Where a number is no code's it selects K5, and where it is no rate's, 1/2.
#[tactic(auto, unfolding(crate::specs::Choice::code_of, crate::specs::Choice::pattern_of))]
pub fn choose(code: u8, rate: u8) -> Selected
    ensures { Chooses code rate result }
{
    let chosen = Code::of(code);
    Selected {
        code: chosen.tap_words(),
        keep: chosen.keep(Rate::of(rate)),
    }
}

// The code alone.
#[tactic(auto, unfolding(crate::specs::Choice::code_of))]
pub fn conv_code(code: u8) -> ConvCode
    ensures { result ≡ code_of code }
{
    Code::of(code).tap_words()
}

#[tactic(auto, unfolding(crate::specs::State::parity_of))]
fn parity(w: u32, taps: u32) -> u8
    ensures { result ≡ parity_of taps w }
{
    ((w & taps).count_ones() % 2) as u8
}

// The input bit above the register. A state and an input of a code are three arguments here and below, since they are
// made anew for each call, and a struct of them would be taken apart at once.
fn window_of(code: ConvCode, s: u32, b: u32) -> u32
    requires { Branch code s b }
    ensures { result ≡ window code s b }
{
    (b << code.width) | s
}

// A coded pair, G0's bit first.
#[derive(Clone, Copy)]
pub struct Pair {
    pub c0: u8,
    pub c1: u8,
}

// The coded bits of the state s on the input b.
pub fn branch_bits(code: ConvCode, s: u32, b: u32) -> Pair
    requires { Branch code s b }
    ensures { Branched code s b result }
{
    let w = window_of(code, s, b);
    Pair {
        c0: parity(w, code.g0),
        c1: parity(w, code.g1),
    }
}

// For each even state 2n the coded bits that it sends on the input 0. By the tap words' end bits these
// tell the others: the state 2n + 1 sends the opposite pair on the same input, and so does 2n on the
// input 1. Two arrays, and not one of pairs: a decoder's loop loads the bits of many states at once.
#[derive(Clone, Copy)]
pub struct Planes {
    pub c0: [u32; 32],
    pub c1: [u32; 32],
}

pub fn sent_by_even(code: ConvCode, half: usize) -> Planes
    requires { Halved code half }
    ensures { SendsEven code half result }
{
    let mut c0 = [0; 32];
    let mut c1 = [0; 32];
    // n is a number that is computed with; a zip of both arrays with their indices would be no plainer.
    for n in 0..half {
        let even = 2 * n;
        let pair = branch_bits(code, even as u32, 0);
        c0[n] = pair.c0 as u32;
        c1[n] = pair.c1 as u32;
    }
    Planes { c0, c1 }
}

// The state after s on the input b: the window without its lowest bit.
pub fn next_state(code: ConvCode, s: u32, b: u32) -> u32
    requires { Branch code s b }
    ensures { result ≡ next_state code s b }
{
    window_of(code, s, b) / 2
}

// The column of the step after one that uses this column: a counter, where t mod period would divide
// at each step.
pub fn next_column(column: usize, period: usize) -> usize
    requires { column < period }
    ensures { result ≡ (column + 1) % period }
{
    let next = column + 1;
    if next == period { 0 } else { next }
}

fn ones_in(row: &[u8]) -> usize
    ensures { OnesIn row.now result }
{
    // A loop: of `filter` and `count` the compiler makes a jump for each column, and a short call took a fifth longer.
    let mut count = 0;
    for x in row {
        if *x == 1 {
            count += 1;
        }
    }
    count
}

impl KeepPattern {
    // The ones in the first n columns of both rows.
    fn ones(&self, n: usize) -> usize
        requires { Columns self.now n }
        ensures { OnesOfColumns self.now n result }
    {
        ones_in(&self.row0[..n]) + ones_in(&self.row1[..n])
    }
}

// Whole periods times the ones in both rows, plus the ones in the columns begun.
pub fn coded_len(keep: KeepPattern, steps: usize) -> usize
    requires { Measurable keep steps }
    ensures { result ≡ coded_length (keep_of keep) steps }
{
    steps / keep.period * keep.ones(keep.period) + keep.ones(steps % keep.period)
}
