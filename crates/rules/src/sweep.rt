// Narrowing place by place.
ghost use Rattle.std.specs.Prelude.{◌≡◌, ℕ, ◌<◌, true, length, slice_index};
ghost use Rattle.places.specs.Families.{family};
ghost use Rattle.rules.specs.Narrowing.{Narrowed, Scope};
ghost use Rattle.rules.specs.Sweeping.{Trimmed, Swept};
ghost use Rattle.rules.specs.Triples.{triple, three_jobs};

use crate::triple::{Relation, Triple};
use places::PlaceSet;

// Strikes from the list of the job at position k every place without a support.
fn sweep_job<L: PlaceSet + Copy, K: Relation>(
    rule: &Triple<K>,
    lists: &mut [L],
    k: usize,
    job: usize,
)
    requires position { k < 3 }
    requires job { job ≡ slice_index (three_jobs rule.now) k }
    requires scope { Scope (length lists.old) (three_jobs rule.now) }
    ensures trimmed { Trimmed (three_jobs rule.now) (triple K.relates) (family L.has lists.old) (family L.has lists.new) }
    ensures swept { Swept (three_jobs rule.now) (triple K.relates) k (family L.has lists.old) (family L.has lists.new) }
{
    let whole = lists[job];
    for p in whole.places() {
        if !rule.supports(lists, k, p) {
            lists[job].strike(p);
        }
    }
}

// Narrows the family by a rule over three jobs.
pub fn sweep<L: PlaceSet + Copy, K: Relation>(rule: &Triple<K>, lists: &mut [L])
    requires { Scope (length lists.old) (three_jobs rule.now) }
    ensures { Narrowed (three_jobs rule.now) (triple K.relates) (family L.has lists.old) (family L.has lists.new) }
{
    for (k, job) in rule.jobs().iter().enumerate() {
        sweep_job(rule, lists, k, *job as usize);
    }
}
