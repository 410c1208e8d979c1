// The tables of a course of at most four jobs, lent to each call of its board.
use crate::listing::{GroupLine, print_lists};
use crate::stopped::Stopped;
use board::{AtWork, Board, Course, Memory, Rejected, Settled, Stage};
use cuts::{Action, Cut};
use distinct::Distinct;
use places::PlaceSet;
use records::RuleRecord;
use refusals::Refusal;
use rules::{Addition, Progression, Sum};
use settling::WakeUp;

// The bed width of every course.
pub const WIDTH: u16 = 16;

// The places of jobs 0 and 1 add up to that of job 2.
pub const SUM: RuleRecord = RuleRecord::Sum(Sum {
    a: 0,
    b: 1,
    c: 2,
    by: Addition,
});

// What an empty slot of a rules table holds; it is lawful for no board.
const NO_RULE: RuleRecord = RuleRecord::Sum(Sum {
    a: 0,
    b: 0,
    c: 0,
    by: Addition,
});

// Jobs 0 and 1 have different places.
pub const FIRST_TWO: RuleRecord = RuleRecord::Distinct(Distinct {
    jobs: Progression {
        first: 0,
        step: 1,
        count: 2,
    },
});

// So have jobs 0, 1 and 2.
pub const ALL_THREE: RuleRecord = RuleRecord::Distinct(Distinct {
    jobs: Progression {
        first: 0,
        step: 1,
        count: 3,
    },
});

// The lists and the rules of a course.
#[derive(Drop)]
pub struct CourseTables<L> {
    pub opened: [L; 4],
    pub rules: [RuleRecord; 4],
}

impl<L> CourseTables<L> {
    pub fn lent(&self) -> Course<'_, L, RuleRecord> {
        Course {
            opened: &self.opened,
            rules: &self.rules,
        }
    }
}

#[derive(Drop)]
struct WorkTables<L, const N: usize> {
    working: [L; 4],
    numbers: [u16; N],
    wake_ups: [WakeUp; 4],
}

impl<L, const N: usize> WorkTables<L, N> {
    fn lent(&mut self) -> Memory<'_, '_, '_, L> {
        // Taken apart first: a slice of an array behind a reference gets no proof.
        let WorkTables {
            working,
            numbers,
            wake_ups,
        } = self;
        Memory {
            working: &mut working[..],
            numbers: &mut numbers[..],
            wake_ups: &mut wake_ups[..],
        }
    }
}

#[derive(Drop)]
pub struct Tables<L, const N: usize> {
    pub course: CourseTables<L>,
    pub log: [Cut; 4],
    pub standing: [L; 4],
    group: [u16; 4],
    work: WorkTables<L, N>,
}

impl<L: PlaceSet + Copy, const N: usize> Tables<L, N> {
    // The tables of a course that opens with these lists.
    pub fn new(opened: [L; 4]) -> Tables<L, N> {
        Tables {
            course: CourseTables {
                opened,
                rules: [NO_RULE; 4],
            },
            log: [Cut {
                action: Action::Strike,
                job: 0,
                place: 0,
            }; 4],
            standing: opened,
            group: [0; 4],
            work: WorkTables {
                working: opened,
                numbers: [0; N],
                wake_ups: [WakeUp { rule: 0, job: 0 }; 4],
            },
        }
    }

    // A board of the first n lists with these rules, closed.
    pub fn board(&mut self, n: u16, offered: &[RuleRecord]) -> Result<Board<AtWork>, Stopped> {
        let mut board = Board::open(n, WIDTH, &self.course.opened)?;
        for rule in offered {
            board.add_rule(&mut self.course.rules, *rule)?;
        }
        Ok(board.close(self.course.lent())?)
    }

    // Settles a board whose rules or cuts are new.
    pub fn settle(
        &mut self,
        board: Board<AtWork>,
    ) -> Result<Board<Settled>, Rejected<Board<AtWork>>> {
        board.settle(
            self.course.lent(),
            &self.log,
            &mut self.standing,
            &mut self.work.lent(),
        )
    }

    // Whether a job could still take a place.
    pub fn print_trial(
        &mut self,
        rt: HostRuntime,
        board: &Board<Settled>,
        job: u16,
        place: u16,
    ) -> Result<(), Stopped> {
        let free = board.trial(
            self.course.lent(),
            &mut self.log,
            &mut self.work.lent(),
            job,
            place,
        )?;
        let answer = if free { "yes" } else { "no" };
        println!(rt; "job {job} at {place}: {answer}")?;
        Ok(())
    }

    // The deficient group of one rule, where it has one.
    pub fn print_rule<S: Stage + Drop>(
        &mut self,
        rt: HostRuntime,
        board: &Board<S>,
        rule: usize,
    ) -> Result<(), Stopped>
        requires { S.shut board.now.stage }
    {
        let found = board.group(
            self.course.lent(),
            &self.log,
            &mut self.group,
            &mut self.work.lent(),
            rule,
        )?;
        if found.deficiency > 0 {
            let count = found.count.min(4);
            let line = GroupLine {
                rule,
                deficiency: found.deficiency,
                jobs: &self.group[..count],
            };
            println!(rt; "{line}")?;
        }
        Ok(())
    }

    // The deficient groups of all distinct rules.
    fn print_groups(
        &mut self,
        rt: HostRuntime,
        board: &Board<AtWork>,
        rules: &[RuleRecord],
    ) -> Result<(), Stopped> {
        for (i, rule) in rules.iter().enumerate() {
            if let RuleRecord::Distinct(_) = rule {
                self.print_rule(rt, board, i)?;
            }
        }
        Ok(())
    }

    // Settles, and prints what stands, or which jobs are short of places.
    pub fn finish(
        &mut self,
        rt: HostRuntime,
        board: Board<AtWork>,
        rules: &[RuleRecord],
    ) -> Result<(), Stopped> {
        let rejected = match self.settle(board) {
            Ok(board) => return Ok(print_lists(rt, board.standing(&self.standing)?)?),
            Err(rejected) => rejected,
        };
        match rejected.refusal {
            Refusal::Short(job) => {
                println!(rt; "short {job}")?;
                self.print_groups(rt, &rejected.board, rules)
            }
            refusal => Err(Stopped::Refused(refusal)),
        }
    }

    // A course from its opening to its listing.
    pub fn carry(&mut self, rt: HostRuntime, n: u16, rules: &[RuleRecord]) -> Result<(), Stopped> {
        let board = self.board(n, rules)?;
        self.finish(rt, board, rules)
    }
}
