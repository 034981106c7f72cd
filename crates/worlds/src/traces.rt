// The states of a world at all moments.
ghost use Rattle.std.specs.Prelude.{◌≡◌, suc, ◌≤◌};
ghost use Rattle.knowledge.specs.AllWorlds.{trace, tells_true, agrees, narrowed, narrowed_all, in_all_worlds};
ghost use Rattle.knowledge.specs.Questions.{latest};
ghost use Rattle.reasoner.specs.Asking.{asked};

use crate::states::{is_world, moved};
use literals::set::{LiteralSet, all, covers, with};
use literals::table::Table;
use reasoner::question::Question;

// The states at all moments of the world that starts in a state. It fills a table as it goes, and so is no fold of the state.
fn trace(question: &Question, first: LiteralSet) -> Table
    ensures { result.sets ≡ trace (asked question.now) first }
{
    let orders = question.orders.as_slice();
    let mut table = Table::empty();
    let mut state = first;
    for (moment, &action) in orders.iter().enumerate() {
        table.put(moment, state);
        state = moved(question.domain.effects(action), state);
    }
    table.put(orders.len(), state);
    table
}

// Whether the told facts of the fluents are true at each moment.
fn tells_true(question: &Question, states: &Table) -> bool
    ensures { result ≡ tells_true (asked question.now).sheet.fluents (asked question.now).told (suc (latest (asked question.now))) 0 states.now.sets }
{
    let literals = all(question.domain.fluents());
    (0..question.orders.len() + 1).all(|moment| covers(
        states.at(moment),
        question.told.at(moment) & literals,
    ))
}

// Whether a state starts a world, with these states at its moments, that agrees with the told facts.
fn agrees(question: &Question, state: LiteralSet, states: &Table) -> bool
    requires { states.now.sets ≡ trace (asked question.now) state }
    ensures { result ≡ agrees (asked question.now) state }
{
    is_world(question.domain, state) && tells_true(question, states)
}

// Only the facts of the world that starts in a state, if it agrees. The question stays and the state is another at each call, so they are
// two.
fn narrow(question: &Question, state: LiteralSet, table: &mut Table)
    ensures { table.new.sets ≡ narrowed (asked question.now) state table.old.sets }
{
    let states = trace(question, state);
    if agrees(question, state, &states) {
        *table = table.common(&states);
    }
}

// The same for all states that have the literals of a set and any values of the first fluents.
fn narrow_all(question: &Question, fluents: u8, state: LiteralSet, table: &mut Table)
    requires { fluents ≤ 32 }
    ensures { table.new.sets ≡ narrowed_all (asked question.now) fluents state table.old.sets }
{
    if fluents == 0 {
        return narrow(question, state, table);
    }
    let fluent = fluents - 1;
    narrow_all(question, fluent, with(state, 2 * fluent), table);
    narrow_all(question, fluent, with(state, 2 * fluent + 1), table);
}

// What is true in every world that agrees.
pub(crate) fn in_all_worlds(question: &Question) -> Table
    ensures { result.sets ≡ in_all_worlds (asked question.now) }
{
    let fluents = question.domain.fluents();
    let mut table = Table::full(fluents, question.orders.len());
    narrow_all(question, fluents, 0, &mut table);
    table
}
