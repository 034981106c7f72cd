// What groups give, and which effects are open.
ghost use Rattle.std.specs.Prelude.{◌≡◌, if◌then◌else◌};
ghost use Rattle.literals.specs.Literals.{single};
ghost use Rattle.knowledge.specs.Sweeps.{left_over, grouped, all_grouped, is_open, may_come, came, came_not};

use domain::action::Effect;
use literals::set::{LiteralSet, contains, opposite, opposites, with, without};

// The members such that all others are known: each where all are, the one left over where all but one are.
pub(crate) fn left_over(set: LiteralSet, known: LiteralSet) -> LiteralSet
    ensures { result ≡ left_over set known }
{
    let left = without(set, known);
    match left.count_ones() {
        0 => set,
        1 => 1 << left.trailing_zeros(),
        _ => 0,
    }
}

// The facts of moment 0 with what a group gives.
fn grouped(facts: LiteralSet, group: LiteralSet) -> LiteralSet
    ensures { result ≡ grouped facts group }
{
    let others = without(group, left_over(group, without(group, facts)));
    facts | (opposites(others) | left_over(group, opposites(facts)))
}

// The facts of moment 0 with what the groups give.
pub(crate) fn all_grouped(groups: &[LiteralSet], facts: LiteralSet) -> LiteralSet
    ensures { result ≡ all_grouped groups.now facts }
{
    groups.iter().copied().fold(facts, grouped)
}

// Whether the opposite of none of its conditions is known.
fn is_open(facts: LiteralSet, effect: &Effect) -> bool
    ensures { result ≡ is_open facts effect.now }
{
    effect.conditions & opposites(facts) == 0
}

// The literal of an effect, if it is open; `caused` tests for another thing, and both share only this `if`.
fn coming(facts: LiteralSet, effect: &Effect) -> LiteralSet
    ensures { result ≡ (if is_open facts effect.now then single effect.now.literal else 0) }
{
    if is_open(facts, effect) {
        with(0, effect.literal)
    } else {
        0
    }
}

// The literals of the open effects. The fold of those that fire, in the world reasoner, joins other literals: what both share is this line.
pub(crate) fn may_come(effects: &[Effect], facts: LiteralSet) -> LiteralSet
    ensures { result ≡ may_come effects.now facts }
{
    effects
        .iter()
        .fold(0, |literals, effect| literals | coming(facts, effect))
}

// The conditions of an effect whose literal was false and came true.
pub(crate) fn came(effect: &Effect, before: LiteralSet, after: LiteralSet) -> LiteralSet
    ensures { result ≡ came effect.now before after }
{
    if contains(after, effect.literal) && contains(before, opposite(effect.literal)) {
        effect.conditions
    } else {
        0
    }
}

// The opposite of the condition left over, of an effect whose literal is false afterwards.
pub(crate) fn came_not(effect: &Effect, before: LiteralSet, after: LiteralSet) -> LiteralSet
    ensures { result ≡ came_not effect.now before after }
{
    if contains(after, opposite(effect.literal)) {
        opposites(left_over(effect.conditions, before))
    } else {
        0
    }
}
