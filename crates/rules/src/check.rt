// Checks of rules: the refusal names the first one at fault.
ghost use Rattle.std.specs.Prelude.{◌≡◌, ◌≤◌, true, [], ◌∷◌, ◌++◌, length, OnOk};
ghost use Rattle.std.specs.List.{AllByRecursion};
ghost use Rattle.refusals.specs.Codes.{fails_if, refusal_of, first_fault};
ghost use Rattle.rules.specs.Refusals.{no_board, unlawful};

use crate::rule::Rule;
use refusals::{Refusal, check_each};

// A course can have n jobs.
pub fn check_job_count(n: usize) -> Result<(), Refusal>
    ensures refusal { refusal_of result ≡ fails_if (no_board n) 8 }
    ensures few { OnOk result (n ≤ 256) }
{
    if n == 0 || n > 256 {
        return Err(Refusal::JobCount);
    }
    Ok(())
}

// Every rule is lawful for n jobs.
pub fn check_rules<R: Rule>(rules: &[R], n: usize) -> Result<(), Refusal>
    requires { length rules.now ≤ 64 }
    ensures refusal { refusal_of result ≡ first_fault (unlawful R.lawful n) 12 0 rules.now }
    ensures lawful { OnOk result (AllByRecursion (λ x. R.lawful x n ≡ true) rules.now) }
{
    check_each(rules, |rule| !rule.is_lawful(n), Refusal::UnlawfulRule)
}

// The held rules, and then an offered one as the next, are lawful for n jobs.
pub fn check_offered<R: Rule>(rules: &[R], rule: &R, n: usize) -> Result<(), Refusal>
    requires { length rules.now ≤ 64 }
    ensures { refusal_of result ≡ first_fault (unlawful R.lawful n) 12 0 (rules.now ++ rule.now ∷ []) }
{
    check_rules(rules, n)?;
    if !rule.is_lawful(n) {
        return Err(Refusal::UnlawfulRule(rules.len() as u16));
    }
    Ok(())
}
