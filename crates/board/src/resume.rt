// Boards over tables that already hold their lists, rules and cuts.
ghost use Rattle.std.specs.Prelude.{◌≡◌, ◌≤◌, length, IfOk};
ghost use Rattle.refusals.specs.Codes.{refusal_of};
ghost use Rattle.board.specs.Book.{held_by, resume_refusal, tables_refusal};
ghost use Rattle.board.specs.Outcomes.{held_as, Holds};

use crate::board::Board;
use crate::course::Course;
use crate::fill::check_size;
use crate::numbers::Numbers;
use crate::stage::{AtWork, Stage};
use cuts::Cut;
use places::PlaceSet;
use refusals::Refusal;
use rules::Rule;

impl Board<AtWork> {
    // A closed board of the first `held` rules and the first `counted` cuts of these tables.
    pub fn resume<L: PlaceSet, R: Rule>(
        n: u16,
        w: u16,
        course: Course<L, R>,
        held: usize,
        log: &[Cut],
        counted: usize,
    ) -> Result<Board<AtWork>, Refusal>
        ensures refusal { refusal_of result ≡ resume_refusal L.has L.LIMIT R.lawful (held_as n w held counted) course.entry.opened.now course.entry.rules.now log.now }
        ensures board { IfOk result (λ b. Holds n w held counted b.numbers) }
    {
        check_size::<L>(n, w, course.opened.len())?;
        if course.rules.len() < held || log.len() < counted {
            return Err(Refusal::TableTooShort);
        }
        if held > 64 || counted > 1024 {
            return Err(Refusal::Full);
        }
        let numbers = Numbers {
            n,
            w,
            rules: held,
            cuts: counted,
        };
        numbers.check_held(course, log)?;
        Ok(Board {
            stage: AtWork,
            numbers,
        })
    }
}

impl<S: Stage + Drop> Board<S> {
    // These tables hold the board's lists, rules and cuts.
    pub fn check_tables<L: PlaceSet, R: Rule>(
        &self,
        course: Course<L, R>,
        log: &[Cut],
    ) -> Result<(), Refusal>
        ensures { refusal_of result ≡ tables_refusal L.has L.LIMIT R.lawful (held_by self.now.numbers) course.entry.opened.now course.entry.rules.now log.now }
    {
        let n = self.numbers.n as usize;
        if course.opened.len() < n
            || course.rules.len() < self.numbers.rules
            || log.len() < self.numbers.cuts
        {
            return Err(Refusal::TableTooShort);
        }
        self.numbers.check_held(course, log)
    }

    pub fn jobs(&self) -> u16
        ensures { result ≡ self.now.numbers.n }
    {
        self.numbers.n
    }

    pub fn bed_width(&self) -> u16
        ensures { result ≡ self.now.numbers.w }
    {
        self.numbers.w
    }

    // How many rules the board holds.
    pub fn rules_held(&self) -> usize
        ensures { result ≡ self.now.numbers.rules }
    {
        self.numbers.rules
    }
}
