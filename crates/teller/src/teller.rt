// The reasoner that repeats what it is told.
ghost use Rattle.teller.specs.Telling.{teller_mind, teller_laws};

use domain::record::Domain;
use literals::orders::Orders;
use literals::table::Table;
use reasoner::reasoner::Reasoner;
use reasoner::refusal::TooManyFluents;
use reasoner::told::counted;

// It keeps the laws of a reasoner by knowing nothing of its own.
#[derive(Clone, Copy)]
pub struct Teller;

impl Reasoner for Teller {
    ghost mind = { λ _. teller_mind };

    ghost laws = { λ _. teller_laws };

    fn largest(&self) -> u8 {
        32
    }

    fn ask(
        &self,
        domain: &Domain,
        orders: &Orders,
        told: &Table,
        shown: &mut Table,
    ) -> Result<(), TooManyFluents> {
        *shown = counted(domain, orders, told);
        Ok(())
    }
}
