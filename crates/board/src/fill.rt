// Opening a board, adding rules, and closing it.
ghost use Rattle.std.specs.Prelude.{◌≡◌, ◌+◌, ◌<◌, ◌≤◌, length, IfOk, MatchResult, OnOk, slice_set};
ghost use Rattle.refusals.specs.Codes.{refusal_of};
ghost use Rattle.board.specs.Book.{size_refusal, open_refusal, add_refusal, close_refusal, held_by};
ghost use Rattle.board.specs.Outcomes.{refusal_back, Opened, Same};

use crate::board::{Board, Rejected};
use crate::course::Course;
use crate::numbers::Numbers;
use crate::stage::{AtWork, Filling, Stage};
use cuts::check_lists;
use places::PlaceSet;
use refusals::Refusal;
use rules::{Rule, check_job_count, check_offered, check_rules};

// A board can have n jobs and bed width w, and a table of so many lists has room for its jobs.
pub fn check_size<L: PlaceSet>(n: u16, w: u16, lists: usize) -> Result<(), Refusal>
    ensures refusal { refusal_of result ≡ size_refusal L.LIMIT n w lists }
    ensures few { OnOk result ((n ≤ 256) × (n ≤ lists)) }
{
    check_job_count(usize::from(n))?;
    if w == 0 || w as usize > L::LIMIT {
        return Err(Refusal::BedWidth);
    }
    if lists < n as usize {
        return Err(Refusal::TableTooShort);
    }
    Ok(())
}

impl Board<Filling> {
    // A board of n jobs and bed width w, without rules yet.
    pub fn open<L: PlaceSet>(n: u16, w: u16, opened: &[L]) -> Result<Board<Filling>, Refusal>
        ensures refusal { refusal_of result ≡ open_refusal L.has L.LIMIT n w opened.now }
        ensures board { IfOk result (λ b. Opened n w b.numbers) }
    {
        check_size::<L>(n, w, opened.len())?;
        check_lists(&opened[..n as usize], w)?;
        Ok(Board {
            stage: Filling,
            numbers: Numbers {
                n,
                w,
                rules: 0,
                cuts: 0,
            },
        })
    }
}

impl Numbers {
    fn check_add<R: Rule>(&self, rules: &[R], rule: &R) -> Result<(), Refusal>
        ensures refusal { refusal_of result ≡ add_refusal R.lawful (held_by self.now) rules.now rule.now }
        ensures room { OnOk result ((self.now.rules < length rules.now) × (self.now.rules < 64)) }
    {
        let held = self.rules;
        if rules.len() < held {
            return Err(Refusal::TableTooShort);
        }
        check_offered(&rules[..held], rule, self.n as usize)?;
        if rules.len() <= held || held >= 64 {
            return Err(Refusal::Full);
        }
        Ok(())
    }

    fn check_close<L: PlaceSet, R: Rule>(&self, course: Course<L, R>) -> Result<(), Refusal>
        ensures { refusal_of result ≡ close_refusal L.has L.LIMIT R.lawful (held_by self.now) course.entry.opened.now course.entry.rules.now }
    {
        let n = self.n as usize;
        let held = self.rules;
        if course.opened.len() < n || course.rules.len() < held {
            return Err(Refusal::TableTooShort);
        }
        check_lists(&course.opened[..n], self.w)?;
        check_rules(&course.rules[..held], n)
    }
}

impl<S: Stage + Drop> Board<S> {
    // One rule more, stored after those held.
    pub fn add_rule<R: Rule + Copy>(&mut self, rules: &mut [R], rule: R) -> Result<(), Refusal>
        requires { S.fills self.old.stage }
        ensures refusal { refusal_of result ≡ add_refusal R.lawful (held_by self.old.numbers) rules.old rule }
        ensures stage { self.new.stage ≡ self.old.stage }
        ensures rules { MatchResult result (λ _. Same self.old.numbers (self.old.numbers.rules + 1) self.old.numbers.cuts self.new.numbers × (rules.new ≡ slice_set rules.old self.old.numbers.rules rule)) (λ _. Same self.old.numbers self.old.numbers.rules self.old.numbers.cuts self.new.numbers × (rules.new ≡ rules.old)) }
    {
        self.numbers.check_add(rules, &rule)?;
        let held = self.numbers.rules;
        rules[held] = rule;
        self.numbers.rules = held + 1;
        Ok(())
    }

    // No more rules: the board is then at work, without cuts.
    pub fn close<L: PlaceSet, R: Rule>(
        self,
        course: Course<L, R>,
    ) -> Result<Board<AtWork>, Rejected<Board<S>>>
        requires { S.fills self.stage }
        ensures refusal { refusal_back result ≡ close_refusal L.has L.LIMIT R.lawful (held_by self.numbers) course.entry.opened.now course.entry.rules.now }
        ensures board { MatchResult result (λ b. Same self.numbers self.numbers.rules 0 b.numbers) (λ e. e.board ≡ self) }
    {
        // No `map_err`: its closure would hold the board.
        match self.numbers.check_close(course) {
            Ok(()) => Ok(self.at_work(0)),
            Err(refusal) => Err(self.rejected(refusal)),
        }
    }
}
