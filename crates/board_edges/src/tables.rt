// Tables of four jobs, lent in the lengths that a test asks for. The program has tables of its own, of any list kind and size: a crate for
// both would stand between them for that alone.
use board::{AtWork, Board, Course, Lengths, Memory, Rejected, Settled};
use cuts::{Action, Cut};
use distinct::{Deficiency, Distinct};
use places::CarrierRow;
use records::RuleRecord;
use refusals::Refusal;
use rules::{Addition, Progression, Sum};
use settling::WakeUp;

pub const SUM: RuleRecord = RuleRecord::Sum(Sum {
    a: 0,
    b: 1,
    c: 2,
    by: Addition,
});

pub const ALL_THREE: RuleRecord = RuleRecord::Distinct(Distinct {
    jobs: Progression {
        first: 0,
        step: 1,
        count: 3,
    },
});

// No rule of any board.
pub const UNLAWFUL: RuleRecord = RuleRecord::Sum(Sum {
    a: 0,
    b: 0,
    c: 0,
    by: Addition,
});

// A cut of a board of three jobs and width 8.
pub const INSIDE: Cut = Cut {
    action: Action::Strike,
    job: 2,
    place: 7,
};

// A cut of none.
pub const OUTSIDE: Cut = Cut {
    action: Action::Fix,
    job: 255,
    place: 65_535,
};

// As many slots as three jobs, two rules and two cuts want.
pub const ENOUGH: Lengths = Lengths {
    opened: 3,
    rules: 2,
    log: 2,
    standing: 3,
    group: 3,
    working: 3,
    numbers: 536,
    wakes: 2,
};

// The whole tables of a course.
const WHOLE: Lengths = Lengths {
    opened: 4,
    rules: 4,
    ..ENOUGH
};

// The lists and the rules of a course.
#[derive(Drop)]
pub struct CourseTables {
    pub opened: [CarrierRow; 4],
    pub rules: [RuleRecord; 4],
}

#[derive(Drop)]
pub struct Tables {
    pub course: CourseTables,
    pub log: [Cut; 4],
    pub standing: [CarrierRow; 4],
    pub group: [u16; 4],
}

#[derive(Drop)]
struct WorkTables {
    working: [CarrierRow; 4],
    numbers: [u16; 544],
    wake_ups: [WakeUp; 4],
}

fn front<T>(table: &[T], lent: usize) -> &[T] {
    &table[..lent.min(table.len())]
}

fn front_mut<T>(table: &mut [T], lent: usize) -> &mut [T] {
    let end = lent.min(table.len());
    &mut table[..end]
}

impl CourseTables {
    pub fn lent(&self, lent: &Lengths) -> Course<'_, CarrierRow, RuleRecord> {
        Course {
            opened: front(&self.opened, lent.opened),
            rules: front(&self.rules, lent.rules),
        }
    }
}

impl WorkTables {
    fn new() -> WorkTables {
        WorkTables {
            working: [CarrierRow(9); 4],
            numbers: [9; 544],
            wake_ups: [WakeUp { rule: 9, job: 9 }; 4],
        }
    }

    fn lent(&mut self, lent: &Lengths) -> Memory<'_, '_, '_, CarrierRow> {
        // Taken apart first: a slice of an array behind a reference gets no proof.
        let WorkTables {
            working,
            numbers,
            wake_ups,
        } = self;
        Memory {
            working: &mut working[..lent.working.min(4)],
            numbers: &mut numbers[..lent.numbers.min(544)],
            wake_ups: &mut wake_ups[..lent.wakes.min(4)],
        }
    }
}

// The board of a call, without the board that a refusal hands back.
pub fn made<T, B: Drop>(answer: Result<T, Rejected<B>>) -> Result<T, Refusal> {
    answer.map_err(|rejected| rejected.refusal)
}

// The refusal of a call.
pub fn refused<T: Drop, B: Drop>(answer: Result<T, Rejected<B>>) -> Option<Refusal> {
    answer.err().map(|rejected| rejected.refusal)
}

impl Tables {
    pub fn new(a: u64, b: u64, c: u64) -> Tables {
        Tables {
            course: CourseTables {
                opened: [CarrierRow(a), CarrierRow(b), CarrierRow(c), CarrierRow(0)],
                rules: [UNLAWFUL; 4],
            },
            log: [OUTSIDE; 4],
            standing: [CarrierRow(9); 4],
            group: [9; 4],
        }
    }

    // A board of three jobs and width 8 by a distinct rule and a sum, closed.
    pub fn board(&mut self) -> Result<Board<AtWork>, Refusal> {
        let mut board = Board::open(3, 8, &self.course.opened)?;
        board.add_rule(&mut self.course.rules, ALL_THREE)?;
        board.add_rule(&mut self.course.rules, SUM)?;
        made(board.close(self.course.lent(&WHOLE)))
    }

    // The same with two cuts that strike nothing.
    pub fn cut_board(&mut self) -> Result<Board<AtWork>, Refusal> {
        let board = self.board()?;
        let board = made(board.cut(&mut self.log, Action::Strike, 2, 7))?;
        made(board.cut(&mut self.log, Action::Strike, 2, 7))
    }

    pub fn settle(
        &mut self,
        board: Board<AtWork>,
        lent: &Lengths,
    ) -> Result<Board<Settled>, Rejected<Board<AtWork>>> {
        board.settle(
            self.course.lent(lent),
            front(&self.log, lent.log),
            front_mut(&mut self.standing, lent.standing),
            &mut WorkTables::new().lent(lent),
        )
    }

    pub fn trial(
        &mut self,
        board: &Board<AtWork>,
        lent: &Lengths,
        job: u16,
        place: u16,
    ) -> Result<bool, Refusal> {
        board.trial(
            self.course.lent(lent),
            front_mut(&mut self.log, lent.log),
            &mut WorkTables::new().lent(lent),
            job,
            place,
        )
    }

    pub fn ask_group(
        &mut self,
        board: &Board<AtWork>,
        lent: &Lengths,
        rule: usize,
    ) -> Result<Deficiency, Refusal> {
        board.group(
            self.course.lent(lent),
            front(&self.log, lent.log),
            front_mut(&mut self.group, lent.group),
            &mut WorkTables::new().lent(lent),
            rule,
        )
    }
}
