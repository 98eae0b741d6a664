// What a submission answers, and how C sees it.
ghost use Rattle.ledger.specs.Calls.{answer_by, AnswerNumberOutcome, AnswerSeenOutcome};

use algorithm::Refusal;

// New and entered, or seen before.
#[derive(Clone, Copy, PartialEq, Eq)]
pub enum Answer {
    New,
    Seen,
}

// The number that comes back: 0 unless the submission is refused.
pub fn answer_number(answer: Result<Answer, Refusal>) -> u32
    ensures { AnswerNumberOutcome (answer_by answer) result }
{
    algorithm::number(answer)
}

// 1 where the report was seen before, else 0.
pub fn answer_seen(answer: Result<Answer, Refusal>) -> u32
    ensures { AnswerSeenOutcome (answer_by answer) result }
{
    match answer {
        Ok(Answer::Seen) => 1,
        Ok(Answer::New) | Err(_) => 0,
    }
}
