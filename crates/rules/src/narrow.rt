// Narrowing a family by one rule, with every table checked first.
ghost use Rattle.std.specs.Prelude.{◌≡◌, length, MatchResult};
ghost use Rattle.refusals.specs.Codes.{refusal_of};
ghost use Rattle.places.specs.Families.{family};
ghost use Rattle.rules.specs.Narrowing.{Narrowed};
ghost use Rattle.rules.specs.Refusals.{narrow_refusal};

use crate::check::check_job_count;
use crate::rule::Rule;
use places::PlaceSet;
use refusals::Refusal;

fn check_narrow<L: PlaceSet, R: Rule>(
    rule: &R,
    n: usize,
    working: &[L],
    numbers: &[u16],
) -> Result<(), Refusal>
    ensures { refusal_of result ≡ narrow_refusal n L.LIMIT (length working.now) (length numbers.now) (R.lawful rule.now n) }
{
    check_job_count(n)?;
    if working.len() < n || numbers.len() < 8 * (n + L::LIMIT) {
        return Err(Refusal::TableTooShort);
    }
    if !rule.is_lawful(n) {
        return Err(Refusal::UnlawfulRule(0));
    }
    Ok(())
}

// Leaves in the lists exactly the places that the rule supports, or says why not; then only working memory may have changed.
// There are as many jobs as lists.
pub fn narrow_family<L: PlaceSet + Copy, R: Rule>(
    rule: &R,
    lists: &mut [L],
    working: &mut [L],
    numbers: &mut [u16],
) -> Result<(), Refusal>
    ensures refusal { refusal_of result ≡ narrow_refusal (length lists.old) L.LIMIT (length working.old) (length numbers.old) (R.lawful rule.now (length lists.old)) }
    ensures lists { MatchResult result (λ _. Narrowed (R.scope rule.now) (R.admits rule.now) (family L.has lists.old) (family L.has lists.new)) (λ _. lists.new ≡ lists.old) }
{
    check_narrow(rule, lists.len(), working, numbers)?;
    rule.narrow(lists, numbers);
    Ok(())
}
