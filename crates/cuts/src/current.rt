// The current lists.
ghost use Rattle.std.specs.Prelude.{◌≡◌, length};
ghost use Rattle.places.specs.Families.{family};
ghost use Rattle.cuts.specs.Current.{carried, current};

use crate::cut::{Action, Cut};
use places::PlaceSet;

// Carries out one cut; a job past the lists holds nothing to cut.
fn carry<L: PlaceSet>(lists: &mut [L], cut: Cut)
    ensures { family L.has lists.new ≡ carried cut (family L.has lists.old) }
{
    let job = cut.job as usize;
    if job >= lists.len() {
        return;
    }
    // By the index: after a slice's `get_mut` a proof knows the length alone, and no element.
    match cut.action {
        Action::Strike => lists[job].strike(cut.place),
        Action::Fix => lists[job].fix(cut.place),
    }
}

// Writes the opened lists with all cuts carried out.
pub fn write_current<L: PlaceSet + Copy>(opened: &[L], cuts: &[Cut], lists: &mut [L])
    requires { length opened.now ≡ length lists.old }
    ensures { family L.has lists.new ≡ current (family L.has opened.now) cuts.now }
{
    lists.copy_from_slice(opened);
    for &cut in cuts {
        carry(lists, cut);
    }
}
