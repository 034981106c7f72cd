// Supposing a fluent both ways.
ghost use Rattle.std.specs.Prelude.{◌≡◌, is_ok, if◌then◌else◌};
ghost use Rattle.knowledge.specs.Supposing.{supposed, suppose_mind};
ghost use Rattle.knowledge.proofs.Laws.{suppose_laws};
ghost use Rattle.reasoner.specs.Asking.{asked, answer_to};

use domain::record::Domain;
use literals::orders::Orders;
use literals::set::Literal;
use literals::table::Table;
use reasoner::question::Question;
use reasoner::reasoner::Reasoner;
use reasoner::refusal::TooManyFluents;

// It asks the reasoner below with the fluent told true and told false at moment 0, and shows what both tables have. A fluent outside the
// domain is not supposed.
#[derive(Clone, Copy)]
pub struct Supposing<R> {
    pub below: R,
    pub fluent: u8,
}

impl<R: Reasoner> Reasoner for Supposing<R> {
    ghost mind = { λ s. suppose_mind (R.Reasoner.mind s.below) s.fluent };

    ghost laws = { λ s. suppose_laws (R.Reasoner.mind s.below) s.fluent (R.Reasoner.laws s.below) };

    fn largest(&self) -> u8 {
        self.below.largest()
    }

    fn ask(
        &self,
        domain: &Domain,
        orders: &Orders,
        told: &Table,
        shown: &mut Table,
    ) -> Result<(), TooManyFluents> {
        if self.fluent >= domain.fluents() {
            return self.below.ask(domain, orders, told, shown);
        }
        let question = Question {
            domain,
            orders,
            told,
        };
        // The literal that says that it is false; the next one says that it is true.
        let is_false = 2 * self.fluent;
        let mut if_true = Table::empty();
        let mut if_false = Table::empty();
        suppose(&self.below, &question, is_false + 1, &mut if_true)?;
        suppose(&self.below, &question, is_false, &mut if_false)?;
        *shown = if_true.common(&if_false);
        Ok(())
    }
}

// What the reasoner below shows with a literal told at moment 0 too.
fn suppose<R: Reasoner>(
    below: &R,
    question: &Question,
    literal: Literal,
    shown: &mut Table,
) -> Result<(), TooManyFluents>
    ensures value { result ≡ answer_to (R.Reasoner.mind below.now) (asked question.now) }
    ensures table { shown.new.sets ≡ (if is_ok result then (R.Reasoner.mind below.now).meaning (supposed (asked question.now) literal) else shown.old.sets) }
{
    let mut told = *question.told;
    told.tell(0, literal);
    below.ask(question.domain, question.orders, &told, shown)
}
