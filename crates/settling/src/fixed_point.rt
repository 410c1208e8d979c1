// Settling a family of lists by rules.
ghost use Rattle.std.specs.Prelude.{◌≡◌, ◌+◌, ◌*◌, ◌≤◌, true, length};
ghost use Rattle.std.specs.List.{AllByRecursion};
ghost use Rattle.places.specs.Families.{family};
ghost use Rattle.settling.specs.Consistency.{Settled, Lowest, KeepsPlacings};

use crate::agenda::{Agenda, WakeUp};
use crate::counts::{first_zero, note_counts};
use crate::wake::{wake_all, wake_changed};
use places::PlaceSet;
use rules::Rule;

// Leaves the greatest consistent family in the lists, and answers with the lowest job that it leaves no place.
// The first numbers note the lists' counts, and the rest is lent to the rules.
pub fn settle<L: PlaceSet + Copy, R: Rule>(
    rules: &[R],
    lists: &mut [L],
    numbers: &mut [u16],
    wake_ups: &mut [WakeUp],
) -> Option<u16>
    requires rules { length rules.now ≤ 64 }
    requires slots { length rules.now ≤ length wake_ups.old }
    requires few { length lists.old ≤ 256 }
    requires lawful { AllByRecursion (λ r. R.lawful r (length lists.old) ≡ true) rules.now }
    requires memory { 8 * (length lists.old + L.LIMIT) ≤ length numbers.old }
    ensures settled { Settled R.scope R.admits rules.now (family L.has lists.old) (family L.has lists.new) }
    ensures lowest { Lowest R.scope R.admits rules.now (length lists.old) (family L.has lists.old) result }
    ensures placings { KeepsPlacings R.scope R.admits rules.now (length lists.old) (family L.has lists.old) (family L.has lists.new) }
{
    let n = lists.len();
    let (noted, work) = numbers.split_at_mut(n);
    note_counts(lists, noted);
    let mut agenda = Agenda::new(rules, wake_ups);
    wake_all(&mut agenda);
    while let Some(wake_up) = agenda.take_next() {
        rules[wake_up.rule as usize].narrow(lists, work);
        wake_changed(&mut agenda, lists, noted);
    }
    first_zero(noted)
}
