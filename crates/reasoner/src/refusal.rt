ghost use Rattle.std.specs.Prelude.{[], ◌∷◌};

use bits::report::{Report, Reported, Values};

// The domain has more fluents than the reasoner takes.
#[derive(Clone, Copy, Debug, PartialEq, Eq)]
pub struct TooManyFluents {
    pub fluents: u8,
}

impl Reported for TooManyFluents {
    ghost number = { λ _. 9 };

    ghost values = { λ refusal. refusal.fluents ∷ [] };

    fn report(&self) -> Report {
        Report {
            number: 9,
            values: Values::one(u128::from(self.fluents)),
        }
    }
}
