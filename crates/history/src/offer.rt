// Rules offered to a board that was just opened.
ghost use Rattle.std.specs.Prelude.{◌≡◌, ◌≤◌, length, take};
ghost use Rattle.board.specs.Outcomes.{Same};
ghost use Rattle.history.specs.Filling.{accepted_of, Filled, Offered};

use crate::event::Answer;
use board::{Board, Filling};
use rules::Rule;

// A rule, how long a front of the rules table the call is lent, and the answer.
#[derive(Clone, Copy)]
pub struct Offer<R> {
    pub rule: R,
    pub lent: usize,
    pub answer: Answer,
}

// Offers one rule to the board, and writes the answer.
fn make_offer<R: Rule + Copy>(board: &mut Board<Filling>, rules: &mut [R], offer: &mut Offer<R>)
    requires { board.old.numbers.rules ≤ length rules.old }
    ensures same { Same board.old.numbers board.new.numbers.rules board.old.numbers.cuts board.new.numbers }
    ensures offered { Offered R.lawful board.old.numbers.n board.old.numbers.w (take board.old.numbers.rules rules.old) rules.old offer.old offer.new board.new.numbers.rules rules.new }
{
    let rule = offer.rule;
    let lent = offer.lent.min(rules.len());
    offer.answer = board.add_rule(&mut rules[..lent], rule).into();
}

// Offers the rules in their order to a board that has none yet, and writes each answer beside its rule.
pub fn make_offers<R: Rule + Copy>(
    board: &mut Board<Filling>,
    rules: &mut [R],
    offers: &mut [Offer<R>],
)
    requires { board.old.numbers.rules ≡ 0 }
    ensures same { Same board.old.numbers (length (accepted_of offers.new)) board.old.numbers.cuts board.new.numbers }
    ensures filled { Filled R.lawful board.old.numbers.n board.old.numbers.w offers.old offers.new rules.old rules.new }
    ensures room { board.new.numbers.rules ≤ length rules.new }
{
    for offer in offers.iter_mut() {
        make_offer(board, rules, offer);
    }
}
