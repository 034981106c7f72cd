// The history reasoner: it shows exactly what follows by the six rules.
ghost use Rattle.std.specs.Prelude.{◌≡◌};
ghost use Rattle.domain.specs.Domains.{sheet};
ghost use Rattle.knowledge.specs.Exact.{ShowsKnown, history_mind};
ghost use Rattle.knowledge.specs.Sweeps.{closure, history};
ghost use Rattle.knowledge.specs.Worlds.{Moves};
ghost use Rattle.knowledge.proofs.Laws.{history_laws};
ghost use Rattle.reasoner.specs.Asking.{asked, question};

use crate::start::{clashes, start};
use crate::sweeps::close;
use domain::record::Domain;
use literals::orders::Orders;
use literals::table::Table;
use reasoner::question::Question;
use reasoner::reasoner::Reasoner;
use reasoner::refusal::TooManyFluents;

// It knows what the initial literals, the told facts and the six rules give.
#[derive(Clone, Copy)]
pub struct History;

impl History {
    // The known facts, or the full table where a literal and its opposite are both known at one moment.
    #[tactic(auto, using(crate::proofs::Known::exact, crate::proofs::Known::moving))]
    pub fn known(&self, domain: &Domain, orders: &Orders, told: &Table) -> Table
        ensures value { result.sets ≡ history (question domain.now orders.now told.now) }
        ensures exact { ShowsKnown (question domain.now orders.now told.now) result.sets }
        ensures moves { Moves (sheet domain.now) }
    {
        let question = Question {
            domain,
            orders,
            told,
        };
        shown(&question)
    }
}

impl Reasoner for History {
    ghost mind = { λ _. history_mind };

    ghost laws = { λ _. history_laws };

    fn largest(&self) -> u8 {
        32
    }

    fn ask(
        &self,
        domain: &Domain,
        orders: &Orders,
        told: &Table,
        shown: &mut Table,
    ) -> Result<(), TooManyFluents> {
        *shown = self.known(domain, orders, told);
        Ok(())
    }
}

// The closure, or the full table where it clashes. A function of its own, so that what is known is proved exact once, for both tables.
fn shown(question: &Question) -> Table
    ensures { result.sets ≡ history (asked question.now) }
{
    let table = closure(question);
    if clashes(table.as_slice()) {
        return Table::full(question.domain.fluents(), question.orders.len());
    }
    table
}

// All that follows from the told facts that count and the initial literals.
fn closure(question: &Question) -> Table
    ensures { result.sets ≡ closure (asked question.now) }
{
    let mut table = start(question);
    close(question.domain, question.orders, &mut table);
    table
}
