// Calls on a closed board, and their answers.
ghost use Rattle.std.specs.Prelude.{◌≡◌, if◌then◌else◌, MatchResult};
ghost use Rattle.history.specs.declared.event.Answer.TheVariants.{Done, Yes, No, Group as GroupOf, Refused};

use board::Lengths;
use cuts::Action;
use distinct::Deficiency;
use refusals::Refusal;

// What is asked: data that a day keeps beside the answer, so no closure.
#[derive(Clone, Copy)]
pub enum Ask {
    // An action on a job and a place.
    Cut(Action, u16, u16),
    // Back to so many cuts.
    Return(usize),
    // Could this job still take that place?
    Trial(u16, u16),
    // Which jobs of this rule are short?
    Group(usize),
    Settle,
}

// What is asked, and how long a front of each table the call is lent.
#[derive(Clone, Copy)]
pub struct Call {
    pub ask: Ask,
    pub lent: Lengths,
}

#[derive(Clone, Copy)]
pub enum Answer {
    Done,
    Yes,
    No,
    Group(Deficiency),
    Refused(Refusal),
}

impl From<()> for Answer {
    ghost from_gives = { λ _ answer. answer ≡ Done };

    fn from(_: ()) -> Answer {
        Answer::Done
    }
}

impl From<bool> for Answer {
    ghost from_gives = { λ yes answer. answer ≡ (if yes then Yes else No) };

    fn from(yes: bool) -> Answer {
        if yes { Answer::Yes } else { Answer::No }
    }
}

impl From<Deficiency> for Answer {
    ghost from_gives = { λ found answer. answer ≡ GroupOf found };

    fn from(found: Deficiency) -> Answer {
        Answer::Group(found)
    }
}

impl<T: Into<Answer>> From<Result<T, Refusal>> for Answer {
    ghost from_gives = { λ outcome answer. MatchResult outcome (λ told. T.converts told answer) (λ refusal. answer ≡ Refused refusal) };

    fn from(outcome: Result<T, Refusal>) -> Answer {
        match outcome {
            Ok(told) => told.into(),
            Err(refusal) => Answer::Refused(refusal),
        }
    }
}

// A call with its answer.
#[derive(Clone, Copy)]
pub struct Event {
    pub call: Call,
    pub answer: Answer,
}
