// States as sets of the literals that are true in them.
ghost use Rattle.std.specs.Prelude.{◌≡◌};
ghost use Rattle.domain.specs.Domains.{sheet};
ghost use Rattle.domain.specs.Sheet.{each};
ghost use Rattle.knowledge.specs.AllWorlds.{firing, moved, one_true, is_world};

use domain::action::Effect;
use domain::record::Domain;
use literals::set::{LiteralSet, covers, opposites, without};
use reasoner::effects::caused;

// The literals of the effects that fire. With the open effects of the history reasoner this shares one line.
fn firing(effects: &[Effect], state: LiteralSet) -> LiteralSet
    ensures { result ≡ firing effects.now state }
{
    effects
        .iter()
        .fold(0, |literals, effect| literals | caused(effect, state))
}

// The state after the effects.
pub(crate) fn moved(effects: &[Effect], state: LiteralSet) -> LiteralSet
    ensures { result ≡ moved effects.now state }
{
    let fired = firing(effects, state);
    without(state, opposites(fired)) | fired
}

// Whether the state is that of a world at moment 0.
pub(crate) fn is_world(domain: &Domain, state: LiteralSet) -> bool
    ensures { result ≡ is_world (sheet domain.now) state }
{
    covers(state, domain.initial()) && one_of_each(domain.groups(), state)
}

// Whether exactly one literal of each group is true.
fn one_of_each(groups: &[LiteralSet], state: LiteralSet) -> bool
    ensures { result ≡ each (one_true state) groups.now }
{
    groups.iter().all(|&group| one_true(group, state))
}

fn one_true(group: LiteralSet, state: LiteralSet) -> bool
    ensures { result ≡ one_true state group }
{
    (group & state).count_ones() == 1
}
