// Having rules wait.
ghost use Rattle.std.specs.Prelude.{◌≡◌, ℕ, ◌<◌, ◌≤◌, true, [], length};
ghost use Rattle.std.specs.List.{AllByRecursion};
ghost use Rattle.places.specs.Families.{family};
ghost use Rattle.settling.specs.Agenda.{waits};
ghost use Rattle.settling.specs.Waking.{Woken, Called, Noted, Changed, ByJob, ByChange, Roused, first_wake_ups};

use crate::agenda::Agenda;
use crate::counts::note_count;
use places::PlaceSet;
use rules::Rule;

// Has each rule wait by the first job of its scope.
pub fn wake_all<R: Rule>(agenda: &mut Agenda<'_, R>)
    requires empty { agenda.old.line ≡ [] }
    requires some { AllByRecursion (λ r. 0 < length (R.scope r)) agenda.old.rules }
    ensures rules { agenda.new.rules ≡ agenda.old.rules }
    ensures all { (i : ℕ) → i < length agenda.new.rules → waits agenda.new.line i ≡ true }
    ensures line { agenda.new.line ≡ first_wake_ups R.scope 0 agenda.old.rules }
{
    for (i, rule) in agenda.rules().iter().enumerate() {
        agenda.wake(i as u16, rule.first_job());
    }
}

// Has every rule wait whose scope has a job.
fn wake_for_job<R: Rule>(agenda: &mut Agenda<'_, R>, job: u16)
    ensures rules { agenda.new.rules ≡ agenda.old.rules }
    ensures woken { Woken R.scope agenda.old.rules job agenda.old.line agenda.new.line }
    ensures called { Called R.scope agenda.old.rules (ByJob agenda.old.line job) agenda.old.line agenda.new.line }
{
    for (i, rule) in agenda.rules().iter().enumerate() {
        if rule.involves(job) {
            agenda.wake(i as u16, job);
        }
    }
}

// Has every rule wait whose scope has a job with another count than noted, and notes the counts.
pub fn wake_changed<L: PlaceSet, R: Rule>(
    agenda: &mut Agenda<'_, R>,
    lists: &[L],
    noted: &mut [u16],
)
    requires few { length lists.now ≤ 256 }
    requires noted { length lists.now ≤ length noted.old }
    ensures rules { agenda.new.rules ≡ agenda.old.rules }
    ensures roused { Roused R.scope agenda.old.rules (Changed L.LIMIT (family L.has lists.now) noted.old) (length lists.now) agenda.old.line agenda.new.line }
    ensures called { Called R.scope agenda.old.rules (ByChange R.scope agenda.old.rules (Changed L.LIMIT (family L.has lists.now) noted.old) (length lists.now) agenda.old.line) agenda.old.line agenda.new.line }
    ensures noted { Noted (length lists.now) L.LIMIT (family L.has lists.now) noted.new }
{
    // A count lies beside its list and not in it: the counts are part of the lent numbers.
    for (j, list) in lists.iter().enumerate() {
        if note_count(noted, j, list.count()) {
            wake_for_job(agenda, j as u16);
        }
    }
}
