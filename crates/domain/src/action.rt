use lists::fixed_list::FixedList;
use literals::set::{Literal, LiteralSet};

// An effect of a working action: where all its conditions are true, its literal is true at the next moment.
#[derive(Clone, Copy)]
pub struct Effect {
    pub conditions: LiteralSet,
    pub literal: Literal,
}

// What an action does: it works by its effects, in sequence, or it senses a fluent.
#[derive(Clone, Copy)]
pub(crate) enum Kind {
    Working { effects: FixedList<Effect, 8> },
    Sensing { fluent: u8 },
}

// An action: its needs and what it does.
#[derive(Clone, Copy)]
pub(crate) struct Row {
    pub(crate) needs: LiteralSet,
    pub(crate) kind: Kind,
}

// The parts of a sheet, its groups and its actions in sequence: they need not be lawful.
#[derive(Clone, Copy)]
pub(crate) struct Parts {
    pub(crate) fluents: u8,
    pub(crate) initial: LiteralSet,
    pub(crate) groups: FixedList<LiteralSet, 8>,
    pub(crate) rows: FixedList<Row, 16>,
    pub(crate) strong: LiteralSet,
    pub(crate) weak: LiteralSet,
}
