// Answers that carry a score in whole numbers of 32 bits.
#![tactic(auto)]

ghost use Rattle.refusal.specs.Answer.{answer_said};
ghost use Rattle.signed_answers.specs.Answer.{ScoreNumbers};

use refusal::Refusal;

// The answer of the block decoder of signed bytes as the one number that a door returns: the word stands in the lent
// output, and its score is carried here, by its bits in two's complement.
#[tactic(auto, using(crate::proofs::Bits::cast_bits))]
pub fn word_number(answer: Result<i32, Refusal>) -> u64
    ensures { ScoreNumbers result (answer_said answer) }
{
    refusal::answer_number(answer.map(|score| score.cast_unsigned() as u64))
}
