// What a domain sheet says.
ghost use Rattle.std.specs.Prelude.{◌≡◌, ◌≤◌, map, length, slice_index_or};
ghost use Rattle.domain.specs.Accessors.{no_action, needs_of, effects_by, effects_of, sensed_by, sensed_of};
ghost use Rattle.domain.specs.Domains.{sheet};
ghost use Rattle.domain.specs.Rows.{action_in};

use crate::action::{Effect, Kind, Row};
use crate::record::Domain;
use literals::set::LiteralSet;

impl Domain {
    // How many fluents there are.
    pub fn fluents(&self) -> u8
        ensures { result ≡ (sheet self.now).fluents }
    {
        self.parts.fluents
    }

    // How many actions there are.
    pub fn actions(&self) -> u8
        ensures { result ≡ length (sheet self.now).actions }
    {
        self.rows().len() as u8
    }

    // The literals that are true at the start.
    pub fn initial(&self) -> LiteralSet
        ensures { result ≡ (sheet self.now).initial }
    {
        self.parts.initial
    }

    // The one-of groups, in sequence.
    pub fn groups(&self) -> &[LiteralSet]
        ensures { result.now ≡ (sheet self.now).groups }
    {
        self.parts.groups.as_slice()
    }

    // The needs of an action; an unknown one has none.
    pub fn needs(&self, action: u8) -> LiteralSet
        ensures { result ≡ needs_of (sheet self.now) action }
    {
        needs_of(self.rows(), action)
    }

    // The effects of an action; a sensing or an unknown one has none.
    pub fn effects(&self, action: u8) -> &[Effect]
        ensures { result.now ≡ effects_of (sheet self.now) action }
    {
        effects_of(self.rows(), action)
    }

    // The fluent that an action senses, if it is a sensing one.
    pub fn sensed(&self, action: u8) -> Option<u8>
        ensures { result ≡ sensed_of (sheet self.now) action }
    {
        sensed_of(self.rows(), action)
    }

    // The strong goals.
    pub fn strong(&self) -> LiteralSet
        ensures { result ≡ (sheet self.now).strong }
    {
        self.parts.strong
    }

    // The weak goals.
    pub fn weak(&self) -> LiteralSet
        ensures { result ≡ (sheet self.now).weak }
    {
        self.parts.weak
    }

    // The actions, in sequence.
    pub(crate) fn rows(&self) -> &[Row]
        ensures actions { map action_in result.now ≡ (sheet self.now).actions }
        ensures few { length result.now ≤ 16 }
    {
        self.parts.rows.as_slice()
    }
}

fn needs_of(rows: &[Row], action: u8) -> LiteralSet
    ensures { result ≡ (slice_index_or (map action_in rows.now) action no_action).needs }
{
    rows.get(usize::from(action)).map_or(0, |row| row.needs)
}

fn effects_of(rows: &[Row], action: u8) -> &[Effect]
    ensures { result.now ≡ effects_by (slice_index_or (map action_in rows.now) action no_action).deed }
{
    match rows.get(usize::from(action)) {
        Some(
            Row {
                kind: Kind::Working { effects },
                ..
            },
        ) => effects.as_slice(),
        _ => &[],
    }
}

fn sensed_of(rows: &[Row], action: u8) -> Option<u8>
    ensures { result ≡ sensed_by (slice_index_or (map action_in rows.now) action no_action).deed }
{
    match rows.get(usize::from(action)) {
        Some(
            Row {
                kind: Kind::Sensing { fluent },
                ..
            },
        ) => Some(*fluent),
        _ => None,
    }
}
