ghost use Rattle.std.specs.Prelude.{◌≡◌};
ghost use Rattle.domain.specs.Refusals.{number_of, values_of};
ghost use Rattle.domain.specs.declared.refusal.Refusal.TheVariants.{Unread};

use bits::report::{Report, Reported, Values};

// Why bytes are no domain sheet.
#[derive(Clone, Copy, Debug)]
pub enum Refusal {
    // The bytes end inside a field, or do not end after the sheet.
    Unread(bits::refusal::Refusal),
    // The edition is not 1.
    Edition { place: u128 },
    // A count is outside its range.
    Count { place: u128 },
    // A fluent is not below the number of fluents.
    UnknownFluent { place: u128 },
    // The fluents of a list, or the literals of effects, do not rise.
    NotRising { place: u128 },
    // Two effects of the action have opposite literals and may both fire; the place is that of the later one.
    NotExclusive { action: u8, place: u128 },
}

impl From<bits::refusal::Refusal> for Refusal {
    ghost from_gives = { λ r s. s ≡ Unread r };

    fn from(inner: bits::refusal::Refusal) -> Refusal {
        Refusal::Unread(inner)
    }
}

impl Reported for Refusal {
    ghost number = { number_of };

    ghost values = { values_of };

    fn report(&self) -> Report {
        let (number, place) = match self {
            Refusal::Unread(refusal) => return refusal.report(),
            Refusal::Edition { place } => (2, *place),
            Refusal::Count { place } => (3, *place),
            Refusal::UnknownFluent { place } => (4, *place),
            Refusal::NotRising { place } => (5, *place),
            Refusal::NotExclusive { action, place } => {
                return Report {
                    number: 6,
                    values: Values::two(u128::from(*action), *place),
                };
            }
        };
        Report {
            number,
            values: Values::one(place),
        }
    }
}
