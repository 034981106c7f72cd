// The world reasoner.
ghost use Rattle.std.specs.Prelude.{◌≡◌, is_ok, if◌then◌else◌, OnOk};
ghost use Rattle.knowledge.specs.AllWorlds.{in_all_worlds, world_mind, ShowsTrue};
ghost use Rattle.knowledge.proofs.Laws.{world_laws};
ghost use Rattle.reasoner.specs.Asking.{question, answer_to};

use crate::traces::in_all_worlds;
use domain::record::Domain;
use literals::orders::Orders;
use literals::table::Table;
use reasoner::question::Question;
use reasoner::reasoner::Reasoner;
use reasoner::refusal::TooManyFluents;

// It tries every state of up to 10 fluents.
#[derive(Clone, Copy)]
pub struct AllWorlds;

impl AllWorlds {
    // The facts true in every world that agrees with the told facts; the full table where none agrees.
    pub fn true_facts(
        &self,
        domain: &Domain,
        orders: &Orders,
        told: &Table,
        shown: &mut Table,
    ) -> Result<(), TooManyFluents>
        ensures value { result ≡ answer_to world_mind (question domain.now orders.now told.now) }
        ensures table { shown.new.sets ≡ (if is_ok result then in_all_worlds (question domain.now orders.now told.now) else shown.old.sets) }
        ensures exact { OnOk result (ShowsTrue (question domain.now orders.now told.now) shown.new.sets) }
    {
        let fluents = domain.fluents();
        if fluents > 10 {
            return Err(TooManyFluents { fluents });
        }
        *shown = in_all_worlds(&Question {
            domain,
            orders,
            told,
        });
        Ok(())
    }
}

impl Reasoner for AllWorlds {
    ghost mind = { λ _. world_mind };

    ghost laws = { λ _. world_laws };

    fn largest(&self) -> u8 {
        10
    }

    fn ask(
        &self,
        domain: &Domain,
        orders: &Orders,
        told: &Table,
        shown: &mut Table,
    ) -> Result<(), TooManyFluents> {
        self.true_facts(domain, orders, told, shown)
    }
}
