// The lists' counts, noted in a row of numbers.
ghost use Rattle.std.specs.Prelude.{◌≡◌, ◌<◌, ◌≤◌, not, length, ◌==◌, slice_index, slice_set};
ghost use Rattle.places.specs.Families.{family};
ghost use Rattle.settling.specs.Waking.{Noted, FirstZero};

use places::PlaceSet;
use std::mem;

// Notes the count of each list.
pub fn note_counts<L: PlaceSet>(lists: &[L], noted: &mut [u16])
    requires { length lists.now ≤ length noted.old }
    ensures { Noted (length lists.now) L.LIMIT (family L.has lists.now) noted.new }
{
    // By the index: after `noted.iter_mut().zip(lists)` a proof knows the length of `noted` alone, and no number.
    for (j, list) in lists.iter().enumerate() {
        noted[j] = list.count();
    }
}

// Notes a count, and says whether it is another than before.
pub fn note_count(noted: &mut [u16], j: usize, count: u16) -> bool
    requires { j < length noted.old }
    ensures changed { result ≡ not (count == slice_index noted.old j) }
    ensures noted { noted.new ≡ slice_set noted.old j count }
{
    mem::replace(&mut noted[j], count) != count
}

// The index of the first number that is 0.
pub fn first_zero(noted: &[u16]) -> Option<u16>
    requires { length noted.now ≤ 256 }
    ensures { FirstZero noted.now result }
{
    noted.iter().position(|&count| count == 0).map(|j| j as u16)
}
