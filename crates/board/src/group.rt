// Group questions: which jobs of a distinct rule are short of places?
ghost use Rattle.std.specs.Prelude.{◌≡◌, ◌+◌, ◌*◌, ◌≤◌, length, take, IfOk, Some};
ghost use Rattle.refusals.specs.Codes.{refusal_of};
ghost use Rattle.distinct.specs.Groups.{GroupTold};
ghost use Rattle.rules.specs.Narrowing.{Scope};
ghost use Rattle.rules.specs.Progressions.{jobs_of};
ghost use Rattle.board.specs.Book.{held_by, group_refusal, named_at, Ready};
ghost use Rattle.board.specs.Lent.{lent, lent_with, KeepsLengths};
ghost use Rattle.board.specs.Moments.{current_lists, GroupSays};

use crate::board::Board;
use crate::course::{Course, Memory};
use crate::lengths::Lengths;
use crate::numbers::Numbers;
use crate::stage::Stage;
use cuts::{Cut, write_current};
use distinct::{Deficiency, deficient_group};
use places::PlaceSet;
use refusals::Refusal;
use rules::{Progression, Rule};

// The jobs of the distinct rule that a rule names, if there is such a rule.
fn named_by<R: Rule>(rules: &[R], rule: usize) -> Option<Progression>
    ensures { result ≡ named_at R.names rules.now rule }
{
    rules.get(rule).and_then(|named| named.names_distinct())
}

impl Numbers {
    // What a group question checks where the working numbers count as so many in total; gives the jobs that the rule names.
    fn check_group<L: PlaceSet, R: Rule>(
        &self,
        course: Course<L, R>,
        log: &[Cut],
        group: usize,
        memory: &Memory<L>,
        total: usize,
        rule: usize,
    ) -> Result<Progression, Refusal>
        ensures refusal { refusal_of result ≡ group_refusal L.has L.LIMIT R.lawful R.names (held_by self.now) course.entry.opened.now course.entry.rules.now log.now (lent_with total course.entry log.now group memory.now) rule }
        ensures ready { IfOk result (λ d. Ready L.LIMIT R.lawful (held_by self.now) course.entry.rules.now (lent_with total course.entry log.now group memory.now) × (self.now.n ≤ group) × (named_at R.names (take self.now.rules course.entry.rules.now) rule ≡ Some d)) }
    {
        let tables = Lengths {
            numbers: total,
            ..course.lengths(log, 0, group, memory)
        };
        if self.are_short(L::LIMIT, &tables) || group < self.n as usize {
            return Err(Refusal::TableTooShort);
        }
        self.check_held(course, log)?;
        named_by(&course.rules[..self.rules], rule).ok_or(Refusal::NoDistinctRule)
    }

    // Writes the deficient group of a rule, in the current lists, to the front of `table`. The working numbers count as so many in
    // total: at most n of them are lent apart.
    fn group<L: PlaceSet + Copy, R: Rule>(
        &self,
        course: Course<L, R>,
        log: &[Cut],
        table: &mut [u16],
        memory: &mut Memory<L>,
        total: usize,
        rule: usize,
    ) -> Result<Deficiency, Refusal>
        requires { total ≤ length memory.old.numbers.now + self.now.n }
        ensures group { GroupSays L.LIMIT (current_lists L.has (held_by self.now) course.entry.opened.now log.now) (named_at R.names (take self.now.rules course.entry.rules.now) rule) (group_refusal L.has L.LIMIT R.lawful R.names (held_by self.now) course.entry.opened.now course.entry.rules.now log.now (lent_with total course.entry log.now (length table.old) memory.old) rule) table.old table.new result }
        ensures memory { KeepsLengths memory.old memory.new }
    {
        let jobs = self.check_group(course, log, table.len(), memory, total, rule)?;
        let n = self.n as usize;
        let lists = &mut memory.working[..n];
        write_current(&course.opened[..n], &log[..self.cuts], lists);
        Ok(deficient_group(&jobs, lists, memory.numbers, table))
    }
}

impl<S: Stage + Drop> Board<S> {
    // Writes the jobs of a distinct rule's deficient group, rising, to the front of `table`; gives their number and the deficiency.
    pub fn group<L: PlaceSet + Copy, R: Rule>(
        &self,
        course: Course<L, R>,
        log: &[Cut],
        table: &mut [u16],
        memory: &mut Memory<L>,
        rule: usize,
    ) -> Result<Deficiency, Refusal>
        requires { S.shut self.now.stage }
        ensures group { GroupSays L.LIMIT (current_lists L.has (held_by self.now.numbers) course.entry.opened.now log.now) (named_at R.names (take self.now.numbers.rules course.entry.rules.now) rule) (group_refusal L.has L.LIMIT R.lawful R.names (held_by self.now.numbers) course.entry.opened.now course.entry.rules.now log.now (lent course.entry log.now 0 (length table.old) memory.old) rule) table.old table.new result }
        ensures memory { KeepsLengths memory.old memory.new }
    {
        let total = memory.numbers.len();
        self.numbers.group(course, log, table, memory, total, rule)
    }

    // The same where `table` is the front of the working numbers: those lent are the rest of them, and count as n more. A call apart,
    // since a table of its own counts for none.
    pub fn group_within<L: PlaceSet + Copy, R: Rule>(
        &self,
        course: Course<L, R>,
        log: &[Cut],
        table: &mut [u16],
        memory: &mut Memory<L>,
        rule: usize,
    ) -> Result<Deficiency, Refusal>
        requires { S.shut self.now.stage }
        ensures group { GroupSays L.LIMIT (current_lists L.has (held_by self.now.numbers) course.entry.opened.now log.now) (named_at R.names (take self.now.numbers.rules course.entry.rules.now) rule) (group_refusal L.has L.LIMIT R.lawful R.names (held_by self.now.numbers) course.entry.opened.now course.entry.rules.now log.now (lent_with (length memory.old.numbers.now + self.now.numbers.n) course.entry log.now (length table.old) memory.old) rule) table.old table.new result }
        ensures memory { KeepsLengths memory.old memory.new }
    {
        let with_table = memory.numbers.len() + self.numbers.n as usize;
        self.numbers
            .group(course, log, table, memory, with_table, rule)
    }
}
