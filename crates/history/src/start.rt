// The facts to begin with, and the test for a clash.
ghost use Rattle.std.specs.Prelude.{◌≡◌, not, ◌==◌, bit_and};
ghost use Rattle.literals.specs.Literals.{opposites};
ghost use Rattle.knowledge.specs.Sweeps.{start, clash};
ghost use Rattle.reasoner.specs.Asking.{asked};

use literals::set::{LiteralSet, opposites};
use literals::table::Table;
use reasoner::question::Question;
use reasoner::told::counted;

// The told facts that count, and the initial literals.
pub(crate) fn start(question: &Question) -> Table
    ensures { result.sets ≡ start (asked question.now) }
{
    let mut table = counted(question.domain, question.orders, question.told);
    table.put(0, table.at(0) | question.domain.initial());
    table
}

// Whether a literal and its opposite are in one set.
pub(crate) fn clashes(sets: &[LiteralSet]) -> bool
    ensures { result ≡ clash sets.now }
{
    sets.iter().copied().any(clashing)
}

fn clashing(set: LiteralSet) -> bool
    ensures { result ≡ not ((bit_and set (opposites set)) == 0) }
{
    set & opposites(set) != 0
}
