// The letters of blocks: where each may stand, and what its records are.
ghost use Rattle.std.specs.Prelude.{◌≡◌, ◌<◌};
ghost use Rattle.layout.specs.Layout.{IsLetterOf, rank_of, option_rank, record_length, allows, may_stand};

// The letter of a block. Blocks stand in a sheet in this order.
#[derive(Clone, Copy, Debug, PartialEq, Eq, PartialOrd, Ord)]
pub enum Letter {
    Header,
    Lists,
    Rules,
    Cuts,
    End,
}

// A byte that is no letter.
#[derive(Clone, Copy, Debug, PartialEq, Eq)]
pub struct NoLetter(pub u8);

impl TryFrom<u8> for Letter {
    type Error = NoLetter;

    ghost try_from_gives = { IsLetterOf };

    fn try_from(byte: u8) -> Result<Self, NoLetter> {
        match byte {
            b'H' => Ok(Letter::Header),
            b'L' => Ok(Letter::Lists),
            b'R' => Ok(Letter::Rules),
            b'C' => Ok(Letter::Cuts),
            b'E' => Ok(Letter::End),
            _ => Err(NoLetter(byte)),
        }
    }
}

impl Letter {
    // The length of a record in a block of this letter.
    pub fn record_size(self) -> usize
        ensures { result ≡ record_length (rank_of self) }
    {
        match self {
            Letter::Header => 5,
            Letter::Lists => 24,
            Letter::Rules | Letter::Cuts => 8,
            Letter::End => 0,
        }
    }

    // Whether a block of this letter may have `n` records.
    pub fn allows(self, n: u8) -> bool
        ensures { result ≡ allows (rank_of self) n }
    {
        match self {
            Letter::Header => n == 1,
            Letter::Lists => n <= 21,
            Letter::Rules | Letter::Cuts => n <= 63,
            Letter::End => n == 0,
        }
    }

    // Whether a block of this letter may be block `k` of `n`, after one of letter `before`.
    pub fn may_stand(self, k: usize, n: usize, before: Option<Letter>) -> bool
        requires { k < n }
        ensures { result ≡ may_stand n k (option_rank before) (rank_of self) }
    {
        if k == 0 {
            self == Letter::Header && n > 1
        } else if k + 1 == n {
            self == Letter::End
        } else {
            Letter::Header < self
                && self < Letter::End
                && before.is_some_and(|before| before <= self)
        }
    }
}
