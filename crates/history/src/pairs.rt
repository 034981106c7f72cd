// What the effects between two moments give.
ghost use Rattle.std.specs.Prelude.{◌≡◌};
ghost use Rattle.knowledge.specs.Sweeps.{kept, worked, between};

use crate::sets::{came, came_not, may_come};
use domain::action::Effect;
use literals::set::{LiteralSet, opposites, without};
use reasoner::effects::caused;

// The facts of a moment and of the next one.
type Pair = (LiteralSet, LiteralSet);

// The facts of two moments with what the effects give.
pub(crate) fn between(effects: &[Effect], facts: Pair) -> Pair
    ensures { result ≡ between effects.now facts }
{
    effects.iter().fold(kept(effects, facts), worked)
}

// With what inertia gives, forward and backward.
fn kept(effects: &[Effect], facts: Pair) -> Pair
    ensures { result ≡ kept effects.now facts }
{
    let (before, after) = facts;
    let coming = may_come(effects, before);
    (
        before | without(after, coming),
        after | without(before, opposites(coming)),
    )
}

// With what an effect gives, by postdiction and by cause.
fn worked(facts: Pair, effect: &Effect) -> Pair
    ensures { result ≡ worked effect.now facts }
{
    let (before, after) = facts;
    (
        before | (came(effect, before, after) | came_not(effect, before, after)),
        after | caused(effect, before),
    )
}
