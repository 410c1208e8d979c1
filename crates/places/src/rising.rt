// Rising rows of places below 2,048, and the numbers that store them.
ghost use Rattle.std.specs.Prelude.{◌≡◌, ℕ, ◌≤◌, List, length};
ghost use Rattle.theory.specs.Counts.{count};
ghost use Rattle.theory.specs.Lists.{member};
ghost use Rattle.places.specs.Needles.{front_part, needles_have, passes, rises};
ghost use Rattle.places.specs.Sets.{First, only, without};
ghost use Rattle.places.specs.Rising.{rising_rest};
ghost use Rattle.places.specs.Needles.{padded};
ghost use Rattle.std.specs.Iterator.{AlwaysYields, UpTo, YieldsFirst, item_count};

// Ends a front part shorter than eight: the numbers lie in lent tables, eight to a list, so a missing one is no Option.
pub const UNUSED: u16 = 0xffff;

// Whether `place` may follow places below `low`.
pub fn may_follow(low: u16, place: u16) -> bool
    ensures { result ≡ passes low place }
{
    low <= place && place < 2048
}

// The numbers of a row as long as they rise from `low` on and stay below 2,048: what is left of its front part.
#[derive(Drop)]
pub struct Rising<'a> {
    rest: &'a [u16],
    low: u16,
}

impl<'a> Rising<'a> {
    // The front part of a row of numbers.
    pub fn of(numbers: &'a [u16]) -> Rising<'a>
        ensures { rising_rest result ≡ front_part 0 numbers.now }
    {
        Rising {
            rest: numbers,
            low: 0,
        }
    }
}

impl<'a> Iterator for Rising<'a> {
    type Item = u16;

    ghost next_gives = { YieldsFirst rising_rest };

    ghost remaining = { item_count rising_rest };

    fn next(&mut self) -> Option<u16> {
        let (first, others) = self.rest.split_first()?;
        if !may_follow(self.low, *first) {
            return None;
        }
        self.rest = others;
        self.low = *first + 1;
        Some(*first)
    }
}

pub fn is_rising(named: &[u16]) -> bool
    ensures { result ≡ rises 0 named.now }
{
    Rising::of(named).count() == named.len()
}

// The places that come, at most eight, as a needle list stores them.
pub fn stored<I: Iterator<Item = u16>>(places: I) -> [u16; 8]
    requires can { I.can_next places }
    requires few { UpTo (I.remaining places) 8 }
    ensures { (xs : List ℕ) → AlwaysYields I.next_gives (λ x. x) places xs → result ≡ padded xs }
{
    let mut stored = [UNUSED; 8];
    // By the number: of an array that `iter_mut().zip(..)` borrows a proof knows nothing after the loop.
    for (i, place) in places.enumerate() {
        stored[i] = place;
    }
    stored
}

pub fn has_place(rising: Rising, place: u16) -> bool
    ensures { result ≡ member (rising_rest rising.entry) place }
{
    let mut rising = rising;
    rising.any(|held| held == place)
}

pub fn how_many(rising: Rising) -> u16
    requires { length (rising_rest rising) ≤ 8 }
    ensures { result ≡ count (member (rising_rest rising.entry)) 2048 }
{
    rising.count() as u16
}

// The first place at or above `place`: one pass, no further than the answer.
pub fn first_from(rising: Rising, place: u16) -> Option<u16>
    ensures { First (member (rising_rest rising.entry)) place result }
{
    let mut rising = rising;
    rising.find(|held| *held >= place)
}

// The row without `place`, as a needle list stores it.
pub fn stored_without(rising: Rising, place: u16) -> [u16; 8]
    requires { length (rising_rest rising) ≤ 8 }
    ensures { (q : ℕ) → needles_have result q ≡ without (member (rising_rest rising.entry)) place q }
{
    stored(rising.filter(|held| *held != place))
}

// `place` alone if the row has it, and else nothing, as a needle list stores it.
pub fn stored_only(rising: Rising, place: u16) -> [u16; 8]
    requires { length (rising_rest rising) ≤ 8 }
    ensures { (q : ℕ) → needles_have result q ≡ only (member (rising_rest rising.entry)) place q }
{
    stored(rising.filter(|held| *held == place))
}
