// What an entry answers: a `Result` of its value, or a refusal, which has document 01's number and a place. Nothing of
// it has a float; answers with a score in f32 are in crate `f32_answers`.
#![tactic(auto)]

ghost use Rattle.std.specs.Prelude.{◌≡◌};
ghost use Rattle.refusal.specs.Answer.{number_of, place_of, answer_said, refused, Numbers, Refuses};

// The most info bits or symbols that one call may bring.
pub const MOST: usize = 16384;

// Why a call is refused: one row each of document 01's table, in its order. What is about a value of a list has the
// index of the first bad one.
#[derive(Clone, Copy, Debug, PartialEq, Eq)]
pub enum Refusal {
    // The code number is no code's.
    UnknownCode,
    // The rate number is no rate's.
    UnknownRate,
    // One call brings more info bits or symbols than its limit.
    TooMany,
    // The output is shorter than needed.
    ShortOutput,
    // The scratch is shorter than needed.
    ShortScratch,
    // A used reading is NaN or infinite.
    BadReading(u32),
    // A used symbol component is NaN or beyond ±1,024.
    BadComponent(u32),
    // The Varicode reader is given a bit above 1.
    BadBit,
    // The call's bits or character don't all fit in the queue.
    QueueFull,
    // The program's input is too short or too long, or not 4 + 4k bytes.
    BadInput,
    // The Varicode writer is given a byte of 128 or above.
    BadByte,
    // A used signed byte is −128.
    BadSignedByte(u32),
}

impl Refusal {
    // Its number in document 01's table.
    pub fn number(self) -> u8
        ensures { result ≡ number_of self }
    {
        match self {
            Refusal::UnknownCode => 1,
            Refusal::UnknownRate => 2,
            Refusal::TooMany => 3,
            Refusal::ShortOutput => 4,
            Refusal::ShortScratch => 5,
            Refusal::BadReading(_) => 6,
            Refusal::BadComponent(_) => 7,
            Refusal::BadBit => 8,
            Refusal::QueueFull => 9,
            Refusal::BadInput => 10,
            Refusal::BadByte => 11,
            Refusal::BadSignedByte(_) => 12,
        }
    }

    // The index of the first bad value where it is about one, else 0.
    pub fn place(self) -> u32
        ensures { result ≡ place_of self }
    {
        match self {
            Refusal::BadReading(at) => at,
            Refusal::BadComponent(at) => at,
            Refusal::BadSignedByte(at) => at,
            _ => 0,
        }
    }
}

// A refusal as the one number that a door returns.
#[tactic(auto, unfolding(crate::specs::Answer::door_number))]
pub fn refused_number(r: Refusal) -> u64
    ensures { Numbers result (refused (number_of r) (place_of r)) }
{
    (r.number() as u64) * 0x1_0000_0000 + (r.place() as u64)
}

// An answer as that number.
#[tactic(auto, unfolding(crate::specs::Answer::door_number))]
pub fn answer_number(answer: Result<u64, Refusal>) -> u64
    ensures { Numbers result (answer_said answer) }
{
    match answer {
        Ok(value) => value,
        Err(r) => refused_number(r),
    }
}

// The same of an entry that writes a list or measures one, whose answer is how many elements.
#[tactic(auto, unfolding(crate::specs::Answer::door_number))]
pub fn count_number(answer: Result<usize, Refusal>) -> u64
    ensures { Numbers result (answer_said answer) }
{
    answer_number(answer.map(|n| n as u64))
}

// What a call of a coder by value gives: its answer, and the coder after it.
#[derive(Clone, Copy)]
pub struct Answered<A, C> {
    pub answer: A,
    pub coder: C,
}

impl<A, C> Answered<Result<A, Refusal>, C> {
    // A refusal: the coder as it came.
    pub fn refused(coder: C, why: Refusal) -> Self
        ensures { Refuses why coder result }
    {
        Answered {
            answer: Err(why),
            coder,
        }
    }
}
