// The stages of a board, by what each allows. A call that a stage does not have asks for a fact that has no proof, so a program
// that makes it is refused before it runs.
ghost use Rattle.std.specs.Prelude.{◌≡◌};
ghost use Rattle.board.specs.declared.stage.Closed.TheVariants.{Settled as IsSettled};

pub trait Stage {
    // Takes rules.
    ghost fills: { Self → Type 0 };

    // Takes cuts, returns, trials, group questions and settlings.
    ghost shut: { Self → Type 0 };

    // Has standing lists.
    ghost stands: { Self → Type 0 };
}

#[derive(Clone, Copy)]
pub struct Filling;

#[derive(Clone, Copy)]
pub struct AtWork;

#[derive(Clone, Copy)]
pub struct Settled;

// The stage of a closed board that is known only when the program runs.
#[derive(Clone, Copy)]
pub enum Closed {
    AtWork,
    Settled,
}

impl Stage for Filling {
    ghost fills = { λ _. Unit {0} };

    ghost shut = { λ _. ⊥ };

    ghost stands = { λ _. ⊥ };
}

impl Stage for AtWork {
    ghost fills = { λ _. ⊥ };

    ghost shut = { λ _. Unit {0} };

    ghost stands = { λ _. ⊥ };
}

impl Stage for Settled {
    ghost fills = { λ _. ⊥ };

    ghost shut = { λ _. Unit {0} };

    ghost stands = { λ _. Unit {0} };
}

impl Stage for Closed {
    ghost fills = { λ _. ⊥ };

    ghost shut = { λ _. Unit {0} };

    ghost stands = { λ s. s ≡ IsSettled };
}
