// Refusals, and checks that name the first element at fault.
#![tactic(auto)]

ghost use Rattle.std.specs.Prelude.{◌≡◌};
ghost use Rattle.refusals.specs.Codes.{says};

use std::error::Error;
use std::fmt;

mod check;

pub use check::check_each;

// Why a call was refused. The definition `says` gives each case its number and index.
#[derive(Clone, Copy, PartialEq, Eq, Debug)]
pub enum Refusal {
    // There is no job, or there are more than 256.
    JobCount,
    // The bed width is 0 or above the limit of the list kind.
    BedWidth,
    // A table lent to the call is too short.
    TableTooShort,
    // The opened list of this job holds a place not below the bed width.
    PlaceTooLarge(u16),
    // The rule of this number is not lawful.
    UnlawfulRule(u16),
    // The counted cut of this number names a job or a place that the board does not have.
    CutOutside(u16),
    // The job given is not below the number of jobs.
    NoSuchJob,
    // The place given is not below the bed width.
    NoSuchPlace,
    // There is no room for one more rule or cut.
    Full,
    // A return names more cuts than are counted.
    NoSuchCut,
    // The rule asked about does not exist, or is no distinct rule.
    NoDistinctRule,
    // The line table has fewer than 2,048 bytes.
    LineTooShort,
    // The greatest consistent family leaves this job no place.
    Short(u16),
}

impl Refusal {
    // The refusal's number, without the list, rule or cut concerned.
    pub fn number(self) -> u16
        ensures { result ≡ (says self).number }
    {
        match self {
            Refusal::JobCount => 8,
            Refusal::BedWidth => 9,
            Refusal::TableTooShort => 10,
            Refusal::PlaceTooLarge(_) => 11,
            Refusal::UnlawfulRule(_) => 12,
            Refusal::CutOutside(_) => 13,
            Refusal::NoSuchJob => 14,
            Refusal::NoSuchPlace => 15,
            Refusal::Full => 16,
            Refusal::NoSuchCut => 17,
            Refusal::NoDistinctRule => 18,
            Refusal::LineTooShort => 19,
            Refusal::Short(_) => 20,
        }
    }
}

impl fmt::Display for Refusal {
    ghost use Rattle.std.specs.Prelude.{◌++◌, Some, codes, decimal};

    ghost output = { λ refusal. Some (codes "refused " ++ decimal (says refusal).number) };

    fn fmt<W: fmt::Write>(&self, f: &mut fmt::Formatter<W>) -> fmt::Result {
        write!(f, "refused {}", self.number())
    }
}

impl Error for Refusal {}
