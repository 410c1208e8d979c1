// Settling with every table checked first.
ghost use Rattle.std.specs.Prelude.{◌≡◌, true, length, IfOk, MatchResult, OnOk};
ghost use Rattle.std.specs.List.{AllByRecursion};
ghost use Rattle.places.specs.Families.{family};
ghost use Rattle.refusals.specs.Codes.{refusal_of};
ghost use Rattle.settling.specs.Consistency.{Settled, Lowest, KeepsPlacings};
ghost use Rattle.settling.specs.Refusals.{settle_refusal, Admissible};

use crate::agenda::WakeUp;
use crate::fixed_point::settle;
use places::PlaceSet;
use refusals::Refusal;
use rules::{Rule, check_job_count, check_rules};

fn check_settle<L: PlaceSet, R: Rule>(
    rules: &[R],
    lists: &[L],
    numbers: usize,
    wake_ups: usize,
) -> Result<(), Refusal>
    ensures refusal { refusal_of result ≡ settle_refusal (length lists.now) L.LIMIT numbers wake_ups R.lawful rules.now }
    ensures passed { OnOk result (Admissible (length lists.now) L.LIMIT numbers wake_ups R.lawful rules.now) }
{
    let n = lists.len();
    check_job_count(n)?;
    if numbers < 8 * (n + L::LIMIT) || wake_ups < rules.len() {
        return Err(Refusal::TableTooShort);
    }
    if rules.len() > 64 {
        return Err(Refusal::Full);
    }
    check_rules(rules, n)
}

// Leaves the greatest consistent family in the lists and answers with the lowest job that it leaves no place, or says why not;
// then only working memory may have changed. There are as many jobs as lists.
pub fn settle_family<L: PlaceSet + Copy, R: Rule>(
    rules: &[R],
    lists: &mut [L],
    numbers: &mut [u16],
    wake_ups: &mut [WakeUp],
) -> Result<Option<u16>, Refusal>
    ensures refusal { refusal_of result ≡ settle_refusal (length lists.old) L.LIMIT (length numbers.old) (length wake_ups.old) R.lawful rules.now }
    ensures lists { MatchResult result (λ _. Settled R.scope R.admits rules.now (family L.has lists.old) (family L.has lists.new)) (λ _. lists.new ≡ lists.old) }
    ensures lowest { IfOk result (λ answer. Lowest R.scope R.admits rules.now (length lists.old) (family L.has lists.old) answer) }
    ensures placings { KeepsPlacings R.scope R.admits rules.now (length lists.old) (family L.has lists.old) (family L.has lists.new) }
{
    check_settle(rules, lists, numbers.len(), wake_ups.len())?;
    Ok(settle(rules, lists, numbers, wake_ups))
}
