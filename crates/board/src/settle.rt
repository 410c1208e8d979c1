// Settlings.
ghost use Rattle.std.specs.Prelude.{◌≡◌, ◌+◌, ◌*◌, ◌≤◌, true, length, take, MatchResult, OnOk};
ghost use Rattle.std.specs.List.{AllByRecursion};
ghost use Rattle.refusals.specs.Codes.{refusal_of};
ghost use Rattle.places.specs.Families.{family};
ghost use Rattle.cuts.specs.Current.{current};
ghost use Rattle.board.specs.Book.{held_by, settle_refusal, Ready};
ghost use Rattle.board.specs.Lent.{lent, KeepsLengths};
ghost use Rattle.board.specs.Moments.{current_lists, Reached, SettleSays, Stands};
ghost use Rattle.board.specs.Outcomes.{refusal_back};

use crate::board::{Board, Rejected};
use crate::course::{Course, Memory};
use crate::numbers::Numbers;
use crate::stage::{Settled, Stage};
use cuts::{Cut, write_current};
use places::PlaceSet;
use refusals::Refusal;
use rules::Rule;
use settling::settle;

impl Numbers {
    // Writes the current lists by these cuts to the front of the working lists, and settles them by the held rules. Answers with the
    // lowest job left no place.
    pub(crate) fn settle_current<L: PlaceSet + Copy, R: Rule>(
        &self,
        course: Course<L, R>,
        cuts: &[Cut],
        memory: &mut Memory<L>,
    ) -> Option<u16>
        requires { Ready L.LIMIT R.lawful (held_by self.now) course.rules.now (lent course cuts.now 0 0 memory.old) }
        ensures reached { Reached L.has R.scope R.admits (take self.now.rules course.entry.rules.now) self.now.n (current (family L.has (take self.now.n course.entry.opened.now)) cuts.now) (take self.now.n memory.new.working.now) result }
        ensures memory { KeepsLengths memory.old memory.new }
    {
        let n = self.n as usize;
        let lists = &mut memory.working[..n];
        write_current(&course.opened[..n], cuts, lists);
        settle(
            &course.rules[..self.rules],
            lists,
            memory.numbers,
            memory.wake_ups,
        )
    }

    fn check_settle<L: PlaceSet, R: Rule>(
        &self,
        course: Course<L, R>,
        log: &[Cut],
        standing: usize,
        memory: &Memory<L>,
    ) -> Result<(), Refusal>
        ensures refusal { refusal_of result ≡ settle_refusal L.has L.LIMIT R.lawful (held_by self.now) course.entry.opened.now course.entry.rules.now log.now (lent course.entry log.now standing 0 memory.now) }
        ensures ready { OnOk result (Ready L.LIMIT R.lawful (held_by self.now) course.entry.rules.now (lent course.entry log.now standing 0 memory.now) × (self.now.n ≤ standing)) }
    {
        let tables = course.lengths(log, standing, 0, memory);
        if self.are_short(L::LIMIT, &tables) || standing < self.n as usize {
            return Err(Refusal::TableTooShort);
        }
        self.check_held(course, log)
    }
}

impl<S: Stage + Drop> Board<S> {
    // Writes the greatest consistent family inside the current lists to the front of the standing lists, where it leaves every job a
    // place; the board is then settled.
    pub fn settle<L: PlaceSet + Copy, R: Rule>(
        self,
        course: Course<L, R>,
        log: &[Cut],
        standing: &mut [L],
        memory: &mut Memory<L>,
    ) -> Result<Board<Settled>, Rejected<Board<S>>>
        requires { S.shut self.stage }
        ensures refusal { SettleSays R.scope R.admits (take self.numbers.rules course.entry.rules.now) self.numbers.n (current_lists L.has (held_by self.numbers) course.entry.opened.now log.now) (settle_refusal L.has L.LIMIT R.lawful (held_by self.numbers) course.entry.opened.now course.entry.rules.now log.now (lent course.entry log.now (length standing.old) 0 memory.old)) (refusal_back result) }
        ensures board { MatchResult result (λ b. b.numbers ≡ self.numbers) (λ e. e.board ≡ self) }
        ensures standing { MatchResult result (λ _. Stands L.has R.scope R.admits (take self.numbers.rules course.entry.rules.now) self.numbers.n (current_lists L.has (held_by self.numbers) course.entry.opened.now log.now) standing.old standing.new) (λ _. standing.new ≡ standing.old) }
        ensures memory { KeepsLengths memory.old memory.new }
    {
        let checked = self
            .numbers
            .check_settle(course, log, standing.len(), memory);
        // No `map_err`: its closure would hold the board.
        if let Err(refusal) = checked {
            return Err(self.rejected(refusal));
        }
        let n = self.numbers.n as usize;
        let counted = self.numbers.cuts;
        let short = self.numbers.settle_current(course, &log[..counted], memory);
        if let Some(job) = short {
            return Err(self.rejected(Refusal::Short(job)));
        }
        standing[..n].copy_from_slice(&memory.working[..n]);
        Ok(Board {
            stage: Settled,
            numbers: self.numbers,
        })
    }
}
