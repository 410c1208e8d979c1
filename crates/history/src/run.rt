// The events of a day, one after the other.
ghost use Rattle.std.specs.Prelude.{◌≡◌, ◌≤◌, length, take};
ghost use Rattle.board.specs.Lent.{lent, KeepsLengths};
ghost use Rattle.board.specs.Outcomes.{Same};
ghost use Rattle.history.specs.Calls.{kinds};
ghost use Rattle.history.specs.History.{setting, Stepped};
ghost use Rattle.history.specs.Runs.{Run};

use crate::call::call;
use crate::event::Event;
use board::{AtWork, Board, Closed, Course, Memory};
use cuts::Cut;
use places::PlaceSet;
use rules::Rule;

// Makes the call of one event, and writes its answer.
fn carry<L: PlaceSet + Copy, R: Rule>(
    board: Board<Closed>,
    course: Course<L, R>,
    log: &mut [Cut],
    standing: &mut [L],
    group: &mut [u16],
    memory: &mut Memory<L>,
    event: &mut Event,
) -> Board<Closed>
    requires counted { board.numbers.cuts ≤ length log.old }
    requires held { board.numbers.rules ≤ length course.rules.now }
    ensures same { Same board.numbers board.numbers.rules result.numbers.cuts result.numbers }
    ensures call { event.new.call ≡ event.old.call }
    ensures step { Stepped (kinds L.has L.LIMIT R.scope R.admits R.lawful R.names) (setting board.numbers.n board.numbers.w course.entry.opened.now (take board.numbers.rules course.entry.rules.now) (lent course.entry log.old (length standing.old) (length group.old) memory.old)) (take board.numbers.cuts log.old) log.old board.stage standing.old group.old event.new result.numbers.cuts log.new result.stage standing.new group.new }
    ensures memory { KeepsLengths memory.old memory.new }
{
    let (next, answer) = call(board, course, log, standing, group, memory, event.call);
    event.answer = answer;
    next
}

// Makes the calls of all events in their order on a board that was just closed, and writes each answer beside its call.
pub fn carry_out<L: PlaceSet + Copy, R: Rule>(
    board: Board<AtWork>,
    course: Course<L, R>,
    log: &mut [Cut],
    standing: &mut [L],
    group: &mut [u16],
    memory: &mut Memory<L>,
    events: &mut [Event],
) -> Board<Closed>
    requires fresh { board.numbers.cuts ≡ 0 }
    requires held { board.numbers.rules ≤ length course.rules.now }
    ensures same { Same board.numbers board.numbers.rules result.numbers.cuts result.numbers }
    ensures run { Run (kinds L.has L.LIMIT R.scope R.admits R.lawful R.names) (setting board.numbers.n board.numbers.w course.entry.opened.now (take board.numbers.rules course.entry.rules.now) (lent course.entry log.old (length standing.old) (length group.old) memory.old)) events.old events.new result.numbers.cuts log.old log.new result.stage standing.old standing.new group.old group.new }
    ensures memory { KeepsLengths memory.old memory.new }
{
    let mut board = board.closed();
    for event in events.iter_mut() {
        board = carry(board, course, log, standing, group, memory, event);
    }
    board
}
