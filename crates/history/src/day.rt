// A whole day: a board is opened, rules are offered, it is closed, and calls are made on it.
ghost use Rattle.std.specs.Prelude.{◌≡◌, length, IfOk, MatchResult};
ghost use Rattle.board.specs.Book.{close_refusal, open_refusal};
ghost use Rattle.board.specs.Lent.{KeepsLengths};
ghost use Rattle.board.specs.Outcomes.{lengths};
ghost use Rattle.history.specs.Calls.{kinds};
ghost use Rattle.history.specs.Days.{day_stop, stopped, DayBoard, OffersLeft};
ghost use Rattle.history.specs.Filling.{accepted_of, filling};
ghost use Rattle.history.specs.History.{setting};
ghost use Rattle.history.specs.Runs.{Run};

use crate::event::Event;
use crate::offer::{Offer, make_offers};
use crate::run::carry_out;
use board::{Board, Closed, Course, Filling, Memory};
use cuts::Cut;
use places::PlaceSet;
use refusals::Refusal;
use rules::Rule;

// Why a day did not come to its calls.
#[derive(Clone, Copy)]
pub enum DayRefusal {
    Opening(Refusal),
    Closing(Refusal),
}

// Opens a board of n jobs and bed width w, offers the rules in order, closes the board, and makes the calls of the events in order.
// Every answer is written beside its rule or its call.
pub fn run_day<L: PlaceSet + Copy, R: Rule + Copy>(
    n: u16,
    w: u16,
    opened: &[L],
    offers: &mut [Offer<R>],
    rules: &mut [R],
    log: &mut [Cut],
    standing: &mut [L],
    group: &mut [u16],
    memory: &mut Memory<L>,
    events: &mut [Event],
) -> Result<Board<Closed>, DayRefusal>
    ensures refusal { stopped result ≡ day_stop (open_refusal L.has L.LIMIT n w opened.now) (close_refusal L.has L.LIMIT R.lawful (filling n w (accepted_of offers.new)) opened.now rules.new) }
    ensures offers { OffersLeft R.lawful n w offers.old offers.new rules.old rules.new result }
    ensures board { IfOk result (λ b. DayBoard n w (accepted_of offers.new) b.numbers) }
    ensures run { MatchResult result (λ b. Run (kinds L.has L.LIMIT R.scope R.admits R.lawful R.names) (setting n w opened.now (accepted_of offers.new) (lengths (length opened.now) (length rules.old) (length log.old) (length standing.old) (length group.old) (length memory.old.working.now) (length memory.old.numbers.now) (length memory.old.wake_ups.now))) events.old events.new b.numbers.cuts log.old log.new b.stage standing.old standing.new group.old group.new) (λ _. (log.new ≡ log.old) × (standing.new ≡ standing.old) × (group.new ≡ group.old) × (events.new ≡ events.old)) }
    ensures memory { KeepsLengths memory.old memory.new }
{
    let mut board = Board::<Filling>::open(n, w, opened).map_err(DayRefusal::Opening)?;
    make_offers(&mut board, rules, offers);
    let course = Course { opened, rules };
    let board = board
        .close(course)
        .map_err(|rejected| DayRefusal::Closing(rejected.refusal))?;
    Ok(carry_out(board, course, log, standing, group, memory, events))
}
