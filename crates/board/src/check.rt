// What settlings, trials and group questions check of their tables.
ghost use Rattle.std.specs.Prelude.{◌≡◌, ◌+◌, ◌*◌, ◌≤◌, true, length, take, OnOk};
ghost use Rattle.std.specs.List.{AllByRecursion};
ghost use Rattle.refusals.specs.Codes.{refusal_of};
ghost use Rattle.board.specs.Book.{held_by, held_refusal, short_tables};

use crate::course::Course;
use crate::lengths::Lengths;
use crate::numbers::Numbers;
use cuts::{Cut, check_cuts, check_lists};
use places::PlaceSet;
use refusals::Refusal;
use rules::{Rule, check_rules};

impl Numbers {
    // Whether opened lists, rules, log or working memory are too short.
    pub(crate) fn are_short(&self, limit: usize, tables: &Lengths) -> bool
        requires { limit ≤ 2048 }
        ensures { result ≡ short_tables limit (held_by self.now) tables.now }
    {
        let n = self.n as usize;
        tables.opened < n
            || tables.rules < self.rules
            || tables.log < self.cuts
            || tables.working < n
            || tables.numbers < 8 * (n + limit)
            || tables.wakes < self.rules
    }

    // The first lists, rules and cuts of the tables are those of this board.
    pub(crate) fn check_held<L: PlaceSet, R: Rule>(
        &self,
        course: Course<L, R>,
        log: &[Cut],
    ) -> Result<(), Refusal>
        requires { (self.now.n ≤ length course.opened.now) × (self.now.rules ≤ length course.rules.now) × (self.now.cuts ≤ length log.now) }
        ensures refusal { refusal_of result ≡ held_refusal L.has L.LIMIT R.lawful (held_by self.now) course.entry.opened.now course.entry.rules.now log.now }
        ensures lawful { OnOk result (AllByRecursion (λ x. R.lawful x self.now.n ≡ true) (take self.now.rules course.entry.rules.now)) }
    {
        let n = self.n as usize;
        check_lists(&course.opened[..n], self.w)?;
        check_rules(&course.rules[..self.rules], n)?;
        check_cuts(&log[..self.cuts], self.n, self.w)
    }
}
