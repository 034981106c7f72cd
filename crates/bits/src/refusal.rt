ghost use Rattle.bits.specs.Refusals.{number_of, values_of, short_number, short_values};

use crate::report::{Report, Reported, Values};

// Why bytes cannot be read as a layout's fields.
#[derive(Clone, Copy, Debug, PartialEq, Eq)]
pub enum Refusal {
    // The bytes end inside a field; the place is that of their end.
    Ended { place: u128 },
    // A 1 in the fill, or a further byte; the place is the first such.
    Trailing { place: u128 },
}

impl Reported for Refusal {
    ghost number = { number_of };

    ghost values = { values_of };

    fn report(&self) -> Report {
        let (number, place) = match self {
            Refusal::Ended { place } => (1, *place),
            Refusal::Trailing { place } => (7, *place),
        };
        Report {
            number,
            values: Values::one(place),
        }
    }
}

// A buffer has fewer bytes than the output needs.
#[derive(Clone, Copy, Debug, PartialEq, Eq)]
pub struct TooShort {
    pub needed: u128,
}

impl Reported for TooShort {
    ghost number = { short_number };

    ghost values = { short_values };

    fn report(&self) -> Report {
        Report {
            number: 20,
            values: Values::one(self.needed),
        }
    }
}
