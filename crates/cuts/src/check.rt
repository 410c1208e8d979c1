// Checks of tables, element by element: the refusal names the first element at fault.
ghost use Rattle.std.specs.Prelude.{◌≡◌, ◌≤◌, length};
ghost use Rattle.refusals.specs.Codes.{refusal_of, first_fault};
ghost use Rattle.cuts.specs.Checks.{past_width, outside};

use crate::cut::Cut;
use places::PlaceSet;
use refusals::{Refusal, check_each};

// Whether the list holds a place not below `width`.
fn exceeds<L: PlaceSet>(list: &L, width: u16) -> bool
    ensures { result ≡ past_width L.LIMIT width (L.has list.now) }
{
    list.next_from(width).is_some()
}

// Every list holds only places below `width`.
pub fn check_lists<L: PlaceSet>(lists: &[L], width: u16) -> Result<(), Refusal>
    requires { length lists.now ≤ 256 }
    ensures { refusal_of result ≡ first_fault (λ x. past_width L.LIMIT width (L.has x)) 11 0 lists.now }
{
    check_each(lists, |list| exceeds(list, width), Refusal::PlaceTooLarge)
}

// Whether the cut names a job not below n or a place not below `width`.
fn is_outside(cut: &Cut, n: u16, width: u16) -> bool
    ensures { result ≡ outside n width cut.now }
{
    u16::from(cut.job) >= n || cut.place >= width
}

// Every cut names a job below n and a place below `width`.
pub fn check_cuts(cuts: &[Cut], n: u16, width: u16) -> Result<(), Refusal>
    requires { length cuts.now ≤ 1024 }
    ensures { refusal_of result ≡ first_fault (outside n width) 13 0 cuts.now }
{
    check_each(cuts, |cut| is_outside(cut, n, width), Refusal::CutOutside)
}
