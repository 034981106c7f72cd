use lists::fixed_list::FixedList;
use std::fmt;
use std::fmt::Formatter;

// The values of a refusal: at most four numbers.
#[derive(Clone, Copy)]
pub struct Values {
    items: FixedList<u128, 4>,
}

impl Values {
    ghost use Rattle.std.specs.Prelude.{◌≡◌, ◌<◌, [], ◌∷◌, ◌++◌, length};
    ghost use Rattle.bits.specs.Reports.{values_in};

    pub fn none() -> Self
        ensures { values_in result ≡ [] }
    {
        Values {
            items: FixedList::empty(0),
        }
    }

    pub fn one(first: u128) -> Self
        ensures { values_in result ≡ first ∷ [] }
    {
        Values::none().and(first)
    }

    pub fn two(first: u128, second: u128) -> Self
        ensures { values_in result ≡ first ∷ second ∷ [] }
    {
        Values::one(first).and(second)
    }

    pub fn as_slice(&self) -> &[u128]
        ensures { result.now ≡ values_in self.now }
    {
        self.items.as_slice()
    }

    // One value more.
    fn and(self, value: u128) -> Self
        requires { length (values_in self) < 4 }
        ensures { values_in result ≡ values_in self ++ value ∷ [] }
    {
        let mut items = self.items;
        items.push(value);
        Values { items }
    }
}

// What a refusal says: its number and its values.
#[derive(Clone, Copy)]
pub struct Report {
    pub number: u8,
    pub values: Values,
}

// The number and the values, singly spaced.
impl fmt::Display for Report {
    fn fmt<W: fmt::Write>(&self, f: &mut Formatter<W>) -> fmt::Result {
        let number = self.number;
        write!(f, "{number}")?;
        for value in self.values.as_slice() {
            write!(f, " {value}")?;
        }
        Ok(())
    }
}

// Why something is refused, as a number and values.
pub trait Reported {
    ghost use Rattle.std.specs.Prelude.{◌≡◌, ℕ, List};
    ghost use Rattle.bits.specs.Reports.{values_in};

    ghost number: { Self → ℕ };

    ghost values: { Self → List ℕ };

    fn report(&self) -> Report
        ensures number { result.number ≡ number self.now }
        ensures values { values_in result.values ≡ values self.now };
}
