ghost use Rattle.std.specs.Prelude.{◌≡◌};
ghost use Rattle.plan.specs.Refusals.{number_of, values_of};
ghost use Rattle.plan.specs.declared.refusal.Refusal.TheVariants.{Unread};

use bits::report::{Report, Reported, Values};

// Why bytes are no plan.
#[derive(Clone, Copy, Debug)]
pub enum Refusal {
    // The bytes end inside a field, or do not end after the plan.
    Unread(bits::refusal::Refusal),
    // The edition is not 1.
    Edition { place: u128 },
    // The tag is 3.
    Tag { place: u128 },
    // The 33rd order or look on a way, or the 256th node.
    TooLarge { place: u128 },
}

impl From<bits::refusal::Refusal> for Refusal {
    ghost from_gives = { λ r s. s ≡ Unread r };

    fn from(inner: bits::refusal::Refusal) -> Refusal {
        Refusal::Unread(inner)
    }
}

impl Reported for Refusal {
    ghost number = { number_of };

    ghost values = { values_of };

    fn report(&self) -> Report {
        let (number, place) = match self {
            Refusal::Unread(refusal) => return refusal.report(),
            Refusal::Edition { place } => (2, *place),
            Refusal::Tag { place } => (3, *place),
            Refusal::TooLarge { place } => (8, *place),
        };
        Report {
            number,
            values: Values::one(place),
        }
    }
}
