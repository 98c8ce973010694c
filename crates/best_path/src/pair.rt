// What a pair of states leads to, by metrics of any type.

// The best way into a state so far: its metric, and the state that it comes from.
#[derive(Clone, Copy)]
pub struct NewState<M> {
    pub met: M,
    pub from: u8,
}

// What two states lead to: the new state on the input 0, and on the input 1.
#[derive(Clone, Copy)]
pub struct Wing<M> {
    pub low: NewState<M>,
    pub high: NewState<M>,
}
