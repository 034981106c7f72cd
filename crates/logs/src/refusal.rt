// Why the log refuses a call.
ghost use Rattle.std.specs.Prelude.{◌≡◌};
ghost use Rattle.logs.specs.Refusals.{number_of, values_of};
ghost use Rattle.logs.specs.declared.refusal.Refusal.TheVariants.{TooMany};

use bits::report::{Report, Reported, Values};
use literals::set::Literal;
use reasoner::refusal::TooManyFluents;

#[derive(Clone, Copy)]
pub enum Refusal {
    // The domain has more fluents than the reasoner takes.
    TooMany(TooManyFluents),
    // The table is full when the log is opened.
    Full,
    // The action, literal or moment is unknown.
    Unknown { number: u8 },
    // An order of a sensing action, or a look by a working one.
    WrongKind { action: u8 },
    // There were 32 orders and looks already.
    Late,
    // A need of the action is not shown.
    NeedNotShown { action: u8, literal: Literal },
    // The fact makes the table full.
    Contradicts { literal: Literal, moment: u8 },
    // The log owes no look of that action and moment.
    NotOwed,
}

impl From<TooManyFluents> for Refusal {
    ghost from_gives = { λ r s. s ≡ TooMany r };

    fn from(inner: TooManyFluents) -> Refusal {
        Refusal::TooMany(inner)
    }
}

impl Reported for Refusal {
    ghost number = { number_of };

    ghost values = { values_of };

    fn report(&self) -> Report {
        let (number, values) = match self {
            Refusal::TooMany(refusal) => return refusal.report(),
            Refusal::Full => (10, Values::none()),
            Refusal::Unknown { number } => (11, Values::one(u128::from(*number))),
            Refusal::WrongKind { action } => (12, Values::one(u128::from(*action))),
            Refusal::Late => (13, Values::none()),
            Refusal::NeedNotShown { action, literal } => {
                (14, Values::two(u128::from(*action), u128::from(*literal)))
            }
            Refusal::Contradicts { literal, moment } => {
                (15, Values::two(u128::from(*literal), u128::from(*moment)))
            }
            Refusal::NotOwed => (16, Values::none()),
        };
        Report { number, values }
    }
}
