// Answers that carry an f32, and the place of refusals 6 and 7, which are about f32s.
#![tactic(auto)]

ghost use Rattle.std.specs.Prelude.{◌≤◌, length, take};
ghost use Rattle.f32s.specs.Readings.{values_of};
ghost use Rattle.f32s.specs.Single.{finite, within};
ghost use Rattle.refusal.specs.Answer.{answer_said};
ghost use Rattle.refusal.specs.First.{FindsBad};
ghost use Rattle.f32_answers.specs.Answer.{ScoreNumbers};

use f32s::Readings;
use refusal::Refusal;

// The answer of the block decoder of readings as the one number that a door returns: the word stands in the lent
// output, and its score is carried here. That of whole scores is in a crate of its own, which stands on no float.
pub fn word_number(answer: Result<f32, Refusal>) -> u64
    ensures { ScoreNumbers result (answer_said answer) }
{
    refusal::answer_number(answer.map(|score| f32s::bits_of(score) as u64))
}

// The place of refusal 6: the index of the first of the used readings that is NaN or infinite, if there is one.
pub fn first_bad(readings: Readings, used: usize) -> Option<usize>
    requires { used ≤ length (values_of readings) }
    ensures { FindsBad finite (take used (values_of readings.entry)) result }
{
    (0..used).find(|i| !readings.is_finite_at(*i))
}

// The place of refusal 7: the index of the first component that is NaN or beyond ±1,024, if there is one.
pub fn first_beyond(components: &[f32]) -> Option<usize>
    ensures { FindsBad within components.now result }
{
    components.iter().position(|x| !f32s::within(*x))
}
