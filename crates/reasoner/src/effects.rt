// Effects and what is known of their conditions.
ghost use Rattle.std.specs.Prelude.{◌≡◌};
ghost use Rattle.knowledge.specs.Sweeps.{caused};

use domain::action::Effect;
use literals::set::{LiteralSet, covers, with};

// The literal of an effect whose conditions are all in the set; otherwise nothing.
pub fn caused(effect: &Effect, facts: LiteralSet) -> LiteralSet
    ensures { result ≡ caused effect.now facts }
{
    if covers(facts, effect.conditions) {
        with(0, effect.literal)
    } else {
        0
    }
}
