// What one symbol does to the streaming decoder's metrics and history.
#![tactic(auto)]

pub mod history;
pub mod metrics;
mod sent;

// How many symbols a bit comes late.
pub const LAG: usize = 32;

// The metrics; the symbols so far, up to one more than the lag; and the symbols so far mod 256.
#[repr(C)]
#[derive(Clone, Copy)]
pub struct Front {
    pub pm: [f32; 16],
    pub count: u8,
    pub turn: u8,
}
