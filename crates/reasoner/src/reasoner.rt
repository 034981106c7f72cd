ghost use Rattle.std.specs.Prelude.{◌≡◌, is_ok, if◌then◌else◌};
ghost use Rattle.knowledge.specs.Reasoning.{Mind, Laws};
ghost use Rattle.reasoner.specs.Asking.{question, answer_to};

use crate::refusal::TooManyFluents;
use domain::record::Domain;
use literals::orders::Orders;
use literals::table::Table;

// A way to work out what is known of each moment.
pub trait Reasoner {
    // What it shows, as a function of the question, and the most fluents that it takes.
    ghost mind: { Self → Mind };

    // The five laws that every reasoner keeps.
    ghost laws: { (r : Self) → Laws (mind r) };

    // The most fluents that it takes.
    fn largest(&self) -> u8
        ensures { result ≡ (mind self.now).largest };

    // Fills the table with what it shows of the domain, the orders and looks so far and the told facts; of a domain with more fluents than
    // it takes, nothing.
    fn ask(
        &self,
        domain: &Domain,
        orders: &Orders,
        told: &Table,
        shown: &mut Table,
    ) -> Result<(), TooManyFluents>
        ensures value { result ≡ answer_to (mind self.now) (question domain.now orders.now told.now) }
        ensures table { shown.new.sets ≡ (if is_ok result then (mind self.now).meaning (question domain.now orders.now told.now) else shown.old.sets) };
}

impl<'a, R: Reasoner> Reasoner for &'a R {
    ghost mind = { λ r. R.Reasoner.mind r.now };

    ghost laws = { λ r. R.Reasoner.laws r.now };

    fn largest(&self) -> u8 {
        (**self).largest()
    }

    fn ask(
        &self,
        domain: &Domain,
        orders: &Orders,
        told: &Table,
        shown: &mut Table,
    ) -> Result<(), TooManyFluents> {
        (**self).ask(domain, orders, told, shown)
    }
}
