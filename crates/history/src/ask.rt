// One call on a closed board, on the tables that it is lent.
ghost use Rattle.std.specs.Prelude.{◌≡◌, length, MatchResult};
ghost use Rattle.board.specs.Book.{held_by};
ghost use Rattle.board.specs.Lent.{lent, KeepsLengths};
ghost use Rattle.board.specs.Outcomes.{Same};
ghost use Rattle.history.specs.declared.event.Answer.TheVariants.{Done, Refused};
ghost use Rattle.history.specs.Calls.{Asked, kinds, said};

use crate::event::{Answer, Ask};
use board::{Board, Closed, Course, Memory, Rejected};
use cuts::Cut;
use places::PlaceSet;
use rules::Rule;

// The board after a call that moves it to a stage, and the answer; a refused call leaves the board as it was.
fn moved<S: Into<Closed>>(
    outcome: Result<Board<S>, Rejected<Board<Closed>>>,
) -> (Board<Closed>, Answer)
    ensures { MatchResult outcome (λ next. (result.0.numbers ≡ next.numbers) × S.converts next.stage result.0.stage × (result.1 ≡ Done)) (λ e. (result.0 ≡ e.board) × (result.1 ≡ Refused e.refusal)) }
{
    match outcome {
        Ok(next) => (next.closed(), Answer::Done),
        Err(rejected) => (rejected.board, Answer::Refused(rejected.refusal)),
    }
}

// The board after the call, and the answer. Log, standing lists and group table come one by one: the law says what each holds at the end.
pub fn ask<L: PlaceSet + Copy, R: Rule>(
    board: Board<Closed>,
    course: Course<L, R>,
    log: &mut [Cut],
    standing: &mut [L],
    group: &mut [u16],
    memory: &mut Memory<L>,
    asked: Ask,
) -> (Board<Closed>, Answer)
    ensures same { Same board.numbers board.numbers.rules result.0.numbers.cuts result.0.numbers }
    ensures asked { Asked (kinds L.has L.LIMIT R.scope R.admits R.lawful R.names) (held_by board.numbers) course.entry.opened.now course.entry.rules.now (lent course.entry log.old (length standing.old) (length group.old) memory.old) asked (said result.1) result.0.numbers.cuts log.old log.new board.stage result.0.stage standing.old standing.new group.old group.new }
    ensures memory { KeepsLengths memory.old memory.new }
{
    match asked {
        Ask::Cut(action, job, place) => moved(board.cut(log, action, job, place)),
        Ask::Return(k) => moved(board.return_to(log, k)),
        Ask::Trial(job, place) => {
            let free = board.trial(course, log, memory, job, place);
            (board, free.into())
        }
        Ask::Group(rule) => {
            let found = board.group(course, log, group, memory, rule);
            (board, found.into())
        }
        Ask::Settle => moved(board.settle(course, log, standing, memory)),
    }
}
