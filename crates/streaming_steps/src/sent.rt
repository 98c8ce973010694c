// What K5 sends from its even states on the input 0, as tables: a step with these is faster than one with
// tables that are made for each symbol.
use trellis::Planes;

// The first coded bit, by half the state, and the second.
pub static SENT: Planes = Planes {
    c0: [
        0, 0, 1, 1, 0, 0, 1, 1, 0, 0, 0, 0, 0, 0, 0, 0, 0, 0, 0, 0, 0, 0, 0, 0, 0, 0, 0, 0, 0, 0,
        0, 0,
    ],
    c1: [
        0, 1, 0, 1, 0, 1, 0, 1, 0, 0, 0, 0, 0, 0, 0, 0, 0, 0, 0, 0, 0, 0, 0, 0, 0, 0, 0, 0, 0, 0,
        0, 0,
    ],
};
