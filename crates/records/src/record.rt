// A rule record: the numbers of a distinct, a sum or a gap rule.
ghost use Rattle.std.specs.Prelude.{◌≡◌, ℕ, Bool, true};
ghost use Rattle.records.specs.Record.{scope_of, admits_of, lawful_of, names_of, lawful_of_scope, names_of_names};

use distinct::Distinct;
use places::PlaceSet;
use rules::{Gap, Progression, Rule, Sum};

// A match in each method and no `dyn Rule`: a trait object has no `narrow`, which is generic over the list kind.
#[derive(Clone, Copy)]
pub enum RuleRecord {
    Distinct(Distinct),
    Sum(Sum),
    Gap(Gap),
}

impl Rule for RuleRecord {
    ghost scope = { scope_of };

    ghost admits = { admits_of };

    ghost lawful = { lawful_of };

    ghost names = { names_of };

    ghost scoped = { lawful_of_scope };

    ghost named = { names_of_names };

    fn is_lawful(&self, n: usize) -> bool {
        match self {
            RuleRecord::Distinct(rule) => rule.is_lawful(n),
            RuleRecord::Sum(rule) => rule.is_lawful(n),
            RuleRecord::Gap(rule) => rule.is_lawful(n),
        }
    }

    fn involves(&self, job: u16) -> bool {
        match self {
            RuleRecord::Distinct(rule) => rule.involves(job),
            RuleRecord::Sum(rule) => rule.involves(job),
            RuleRecord::Gap(rule) => rule.involves(job),
        }
    }

    fn first_job(&self) -> u16 {
        match self {
            RuleRecord::Distinct(rule) => rule.first_job(),
            RuleRecord::Sum(rule) => rule.first_job(),
            RuleRecord::Gap(rule) => rule.first_job(),
        }
    }

    fn names_distinct(&self) -> Option<Progression> {
        match self {
            RuleRecord::Distinct(rule) => rule.names_distinct(),
            RuleRecord::Sum(rule) => rule.names_distinct(),
            RuleRecord::Gap(rule) => rule.names_distinct(),
        }
    }

    fn narrow<L: PlaceSet + Copy>(&self, lists: &mut [L], numbers: &mut [u16]) {
        match self {
            RuleRecord::Distinct(rule) => rule.narrow(lists, numbers),
            RuleRecord::Sum(rule) => rule.narrow(lists, numbers),
            RuleRecord::Gap(rule) => rule.narrow(lists, numbers),
        }
    }
}
