// The standing lists of a settled board.
ghost use Rattle.std.specs.Prelude.{◌≡◌, length, take, IfOk};
ghost use Rattle.refusals.specs.Codes.{refusal_of};
ghost use Rattle.board.specs.Book.{held_by, standing_refusal};

use crate::board::Board;
use crate::stage::Stage;
use refusals::Refusal;

impl<S: Stage + Drop> Board<S> {
    // The first lists, one for each job.
    pub fn standing<'a, L>(&self, standing: &'a [L]) -> Result<&'a [L], Refusal>
        requires { S.stands self.now.stage }
        ensures refusal { refusal_of result ≡ standing_refusal (held_by self.now.numbers) (length standing.now) }
        ensures lists { IfOk result (λ lists. lists.now ≡ take self.now.numbers.n standing.now) }
    {
        let n = self.numbers.n as usize;
        if standing.len() < n {
            return Err(Refusal::TableTooShort);
        }
        Ok(&standing[..n])
    }
}
