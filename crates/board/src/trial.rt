// Trials: could this job still take that place?
ghost use Rattle.std.specs.Prelude.{◌≡◌, ◌+◌, ◌<◌, ◌≤◌, false, length, take, Some, None, MatchResult, OnOk, slice_set};
ghost use Rattle.refusals.specs.Codes.{says};
ghost use Rattle.places.specs.Families.{fixed};
ghost use Rattle.board.specs.Book.{held_by, short_tables, room_refusal, trial_refusal};
ghost use Rattle.board.specs.Lent.{lent, KeepsLengths};
ghost use Rattle.board.specs.Moments.{current_lists, TrialSays};

use crate::board::Board;
use crate::course::{Course, Memory};
use crate::numbers::Numbers;
use crate::stage::Stage;
use cuts::{Action, Cut};
use places::PlaceSet;
use refusals::Refusal;
use rules::Rule;

// Holds the fix of a trial in one slot of the lent log; its end writes the old entry back, on every way out.
struct TrialGuard<'a> {
    log: &'a mut [Cut],
    at: usize,
    old: Cut,
}

impl Drop for TrialGuard<'_> {
    fn drop(self)
        requires { self.at < length self.log.now }
        ensures { self.exit.0.now ≡ slice_set self.entry.log.now self.entry.at self.entry.old }
    {
        self.log[self.at] = self.old;
        let TrialGuard {
            log: _,
            at: _,
            old: _,
        } = self;
    }
}

impl TrialGuard<'_> {
    // The first entries of the log. By a call: after a part taken of the field itself, a proof does not know the guard's log.
    fn front(&self, end: usize) -> &[Cut]
        requires { end ≤ length self.now.log.now }
        ensures { result.now ≡ take end self.entry.now.log.now }
    {
        &self.log[..end]
    }
}

impl Numbers {
    // What a trial checks before its fix goes into the log. Where the fix has no room the lists, rules and cuts come first all the
    // same.
    fn check_trial<L: PlaceSet, R: Rule>(
        &self,
        course: Course<L, R>,
        log: &[Cut],
        memory: &Memory<L>,
        job: u16,
        place: u16,
    ) -> Result<(), Refusal>
        ensures refusal { MatchResult result (λ _. (short_tables L.LIMIT (held_by self.now) (lent course.entry log.now 0 0 memory.now) ≡ false) × (room_refusal (held_by self.now) (length log.now) job place ≡ None)) (λ e. Some (says e) ≡ trial_refusal L.has L.LIMIT R.lawful (held_by self.now) course.entry.opened.now course.entry.rules.now log.now (lent course.entry log.now 0 0 memory.now) job place) }
        ensures room { OnOk result ((self.now.cuts < length log.now) × (job < self.now.n)) }
    {
        let tables = course.lengths(log, 0, 0, memory);
        if self.are_short(L::LIMIT, &tables) {
            return Err(Refusal::TableTooShort);
        }
        if let Err(refusal) = self.check_room(log.len(), job, place) {
            self.check_held(course, log)?;
            return Err(refusal);
        }
        Ok(())
    }
}

impl<S: Stage + Drop> Board<S> {
    // Whether this job could still take that place: whether the greatest consistent family inside the current lists, with the job fixed
    // to the place, leaves every job a place. Nothing but working memory changes.
    pub fn trial<L: PlaceSet + Copy, R: Rule>(
        &self,
        course: Course<L, R>,
        log: &mut [Cut],
        memory: &mut Memory<L>,
        job: u16,
        place: u16,
    ) -> Result<bool, Refusal>
        requires { S.shut self.now.stage }
        ensures answer { TrialSays R.scope R.admits (take self.now.numbers.rules course.entry.rules.now) self.now.numbers.n (fixed job place (current_lists L.has (held_by self.now.numbers) course.entry.opened.now log.old)) (trial_refusal L.has L.LIMIT R.lawful (held_by self.now.numbers) course.entry.opened.now course.entry.rules.now log.old (lent course.entry log.old 0 0 memory.old) job place) result }
        ensures log { log.new ≡ log.old }
        ensures memory { KeepsLengths memory.old memory.new }
    {
        self.numbers.check_trial(course, log, memory, job, place)?;
        let at = self.numbers.cuts;
        let old = log[at];
        log[at] = Cut {
            action: Action::Fix,
            job: job as u8,
            place,
        };
        let guard = TrialGuard { log, at, old };
        self.numbers.check_held(course, guard.front(at))?;
        let short = self
            .numbers
            .settle_current(course, guard.front(at + 1), memory);
        Ok(short.is_none())
    }
}
