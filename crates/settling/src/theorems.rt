// What is proved of settling for all rules and lists. These functions do nothing: each stands for the theorem that it ensures.
ghost use Rattle.settling.specs.Theorems.{OrderFree, SettledStays, CutsRestoreNothing, PlacingsStay, MissingUnused, ConverseFails};

// The result does not depend on the order of the rules.
pub fn order_is_free()
    ensures { OrderFree }
{}

// Settling what is settled changes nothing.
pub fn settled_stays()
    ensures { SettledStays }
{}

// Cutting more never brings a place back.
pub fn cuts_restore_nothing()
    ensures { CutsRestoreNothing }
{}

// Every whole placing lies inside the result, so a place missing from it is used by none.
pub fn placings_stay()
    ensures stay { PlacingsStay }
    ensures unused { MissingUnused }
{}

// A place in the result may still be used by no whole placing.
pub fn converse_fails()
    ensures { ConverseFails }
{}
