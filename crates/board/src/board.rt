// Boards, and calls of them that were refused.
ghost use Rattle.std.specs.Prelude.{◌≡◌, ◌≤◌};

use crate::numbers::Numbers;
use crate::stage::AtWork;
use refusals::Refusal;

// A board at a stage.
#[derive(Drop)]
pub struct Board<S> {
    pub(crate) stage: S,
    pub(crate) numbers: Numbers,
}

// A call that was refused: why, and the board that it was made on, unchanged.
#[derive(Drop)]
pub struct Rejected<B> {
    pub refusal: Refusal,
    pub board: B,
}

impl<S: Drop> Board<S> {
    ghost use Rattle.board.specs.Outcomes.{Same};

    // The board of so many cuts, at work. Its numbers are written out: a literal of a struct with a ghost field takes no `..`.
    pub(crate) fn at_work(self, cuts: usize) -> Board<AtWork>
        requires { cuts ≤ 1024 }
        ensures { Same self.numbers self.numbers.rules cuts result.numbers }
    {
        Board {
            stage: AtWork,
            numbers: Numbers {
                n: self.numbers.n,
                w: self.numbers.w,
                rules: self.numbers.rules,
                cuts,
            },
        }
    }

    // The board as it is, handed back with the refusal of a call.
    pub(crate) fn rejected(self, refusal: Refusal) -> Rejected<Board<S>>
        ensures { result ≡ record { refusal = refusal; board = self } }
    {
        Rejected {
            refusal,
            board: self,
        }
    }
}
