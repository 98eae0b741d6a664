// The state of a stream, what a feed answers, and how C sees it.
ghost use Rattle.std.specs.Prelude.{◌≡◌};
ghost use Rattle.algorithm.specs.Answers.{number_of};
ghost use Rattle.stream.specs.Calls.{answer_by, fed_by, refused_fed, more_fed, closing_fed, AnswerNumberOutcome};

use algorithm::Refusal;
use std::num::NonZeroUsize;

// How many bytes are collected of the report on its way, and whether the stream is closed: 0 where it is open. Before the first feed
// both are 0.
#[derive(Clone, Copy)]
pub struct State {
    pub collected: usize,
    pub closed: u32,
}

// More bytes are wanted, or a whole report that the plain reader lets pass.
#[derive(Clone, Copy)]
pub enum Answer {
    More,
    Whole,
}

// The answer, where a whole report may be refused too; how many bytes of the piece were used; the length of the whole report in the
// buffer, one that the reader refuses too, where there is one; and the state for the next feed.
#[derive(Clone, Copy)]
pub struct Fed {
    pub answer: Result<Answer, Refusal>,
    pub used: usize,
    pub length: Option<NonZeroUsize>,
    pub state: State,
}

// The number that comes back: 0 unless something is refused.
pub fn answer_number(answer: Result<Answer, Refusal>) -> u32
    ensures { AnswerNumberOutcome (answer_by answer) result }
{
    algorithm::number(answer)
}

// A check fails: nothing is used, and the state is the one given.
pub(crate) fn refused(state: State, refusal: Refusal) -> Fed
    ensures { fed_by result ≡ refused_fed state (number_of refusal) }
{
    Fed {
        answer: Err(refusal),
        used: 0,
        length: None,
        state,
    }
}

// More is wanted: all of the piece was used, and so many bytes are collected now.
pub(crate) fn more(used: usize, collected: usize) -> Fed
    ensures { fed_by result ≡ more_fed used collected }
{
    Fed {
        answer: Ok(Answer::More),
        used,
        length: None,
        state: State {
            collected,
            closed: 0,
        },
    }
}

// A total out of range closes the stream.
pub(crate) fn closing(used: usize) -> Fed
    ensures { fed_by result ≡ closing_fed used }
{
    Fed {
        answer: Err(Refusal::WrongReportLength),
        used,
        length: None,
        state: State {
            collected: 0,
            closed: 1,
        },
    }
}
