// One call of a day, on the fronts of the tables that it is lent.
ghost use Rattle.std.specs.Prelude.{◌≡◌, ◌≤◌, length, take};
ghost use Rattle.board.specs.Lent.{lent, KeepsLengths};
ghost use Rattle.board.specs.Outcomes.{Same};
ghost use Rattle.history.specs.Calls.{kinds};
ghost use Rattle.history.specs.History.{lent_to, setting, Stepped};

use crate::ask::ask;
use crate::event::{Answer, Call};
use board::{Board, Closed, Course, Lengths, Memory};
use cuts::Cut;
use places::PlaceSet;
use rules::Rule;

// Of each table as much as is asked for; the whole table where it is shorter.
fn fronts(asked: &Lengths, tables: &Lengths) -> Lengths
    ensures { result ≡ lent_to asked.now tables.now }
{
    Lengths {
        opened: asked.opened.min(tables.opened),
        rules: asked.rules.min(tables.rules),
        log: asked.log.min(tables.log),
        standing: asked.standing.min(tables.standing),
        group: asked.group.min(tables.group),
        working: asked.working.min(tables.working),
        numbers: asked.numbers.min(tables.numbers),
        wakes: asked.wakes.min(tables.wakes),
    }
}

// The board after the call, and the answer.
pub fn call<L: PlaceSet + Copy, R: Rule>(
    board: Board<Closed>,
    course: Course<L, R>,
    log: &mut [Cut],
    standing: &mut [L],
    group: &mut [u16],
    memory: &mut Memory<L>,
    call: Call,
) -> (Board<Closed>, Answer)
    requires counted { board.numbers.cuts ≤ length log.old }
    requires held { board.numbers.rules ≤ length course.rules.now }
    ensures same { Same board.numbers board.numbers.rules result.0.numbers.cuts result.0.numbers }
    ensures step { Stepped (kinds L.has L.LIMIT R.scope R.admits R.lawful R.names) (setting board.numbers.n board.numbers.w course.entry.opened.now (take board.numbers.rules course.entry.rules.now) (lent course.entry log.old (length standing.old) (length group.old) memory.old)) (take board.numbers.cuts log.old) log.old board.stage standing.old group.old (record { call = call; answer = result.1 }) result.0.numbers.cuts log.new result.0.stage standing.new group.new }
    ensures memory { KeepsLengths memory.old memory.new }
{
    let tables = course.lengths(log, standing.len(), group.len(), memory);
    let ends = fronts(&call.lent, &tables);
    let mut memory = Memory {
        working: &mut memory.working[..ends.working],
        numbers: &mut memory.numbers[..ends.numbers],
        wake_ups: &mut memory.wake_ups[..ends.wakes],
    };
    ask(
        board,
        Course {
            opened: &course.opened[..ends.opened],
            rules: &course.rules[..ends.rules],
        },
        &mut log[..ends.log],
        &mut standing[..ends.standing],
        &mut group[..ends.group],
        &mut memory,
        call.ask,
    )
}
