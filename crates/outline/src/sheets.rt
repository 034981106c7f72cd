// Domain sheets as text.
use domain::action::Effect;
use domain::record::Domain;
use literals::set::{Literal, LiteralSet, contains, lowest, with, without};
use std::fmt;
use std::fmt::Formatter;

// A literal: its fluent's number, after "not" where it says that the fluent is false.
#[derive(Clone, Copy)]
struct LiteralText {
    literal: Literal,
}

impl fmt::Display for LiteralText {
    fn fmt<W: fmt::Write>(&self, f: &mut Formatter<W>) -> fmt::Result {
        let fluent = self.literal / 2;
        if self.literal % 2 == 0 {
            f.write_str("not ")?;
        }
        write!(f, "{fluent}")
    }
}

// The literals of a set in rising sequence, or "none".
#[derive(Clone, Copy)]
struct SetText {
    set: LiteralSet,
}

impl fmt::Display for SetText {
    fn fmt<W: fmt::Write>(&self, f: &mut Formatter<W>) -> fmt::Result {
        let Some(first) = lowest(self.set) else {
            return f.write_str("none");
        };
        write!(f, "{}", LiteralText { literal: first })?;
        let others = without(self.set, with(0, first));
        for literal in (0..64).filter(|literal| contains(others, *literal)) {
            write!(f, ", {}", LiteralText { literal })?;
        }
        Ok(())
    }
}

// An effect: what it makes true, and when.
#[derive(Clone, Copy)]
struct EffectText {
    effect: Effect,
}

impl fmt::Display for EffectText {
    fn fmt<W: fmt::Write>(&self, f: &mut Formatter<W>) -> fmt::Result {
        let conditions = SetText {
            set: self.effect.conditions,
        };
        let literal = LiteralText {
            literal: self.effect.literal,
        };
        if self.effect.conditions == 0 {
            writeln!(f, "  always makes {literal}")
        } else {
            writeln!(f, "  when {conditions} makes {literal}")
        }
    }
}

// An action: a line for its needs and a line for each of its effects, or for the fluent that it senses.
#[derive(Clone, Copy)]
struct ActionText<'a> {
    domain: &'a Domain,
    action: u8,
}

impl fmt::Display for ActionText<'_> {
    fn fmt<W: fmt::Write>(&self, f: &mut Formatter<W>) -> fmt::Result {
        let action = self.action;
        let needs = SetText {
            set: self.domain.needs(action),
        };
        writeln!(f, "action {action} needs {needs}")?;
        if let Some(fluent) = self.domain.sensed(action) {
            return writeln!(f, "  senses {fluent}");
        }
        for effect in self.domain.effects(action) {
            write!(f, "{}", EffectText { effect: *effect })?;
        }
        Ok(())
    }
}

// A sheet to print: counts, initial literals, groups, actions, goals.
#[derive(Clone, Copy)]
pub struct Sheet<'a> {
    pub domain: &'a Domain,
}

impl fmt::Display for Sheet<'_> {
    fn fmt<W: fmt::Write>(&self, f: &mut Formatter<W>) -> fmt::Result {
        let domain = self.domain;
        let fluents = domain.fluents();
        let actions = domain.actions();
        writeln!(f, "domain: fluents {fluents}, actions {actions}")?;
        let initial = SetText {
            set: domain.initial(),
        };
        writeln!(f, "initially {initial}")?;
        for group in domain.groups() {
            let group = SetText { set: *group };
            writeln!(f, "one of {group}")?;
        }
        for action in 0..actions {
            write!(f, "{}", ActionText { domain, action })?;
        }
        write!(f, "{}", Goals { domain })
    }
}

// The goals: what every end must know, and what some end must know. A type of its own, as each type is printed one way.
#[derive(Clone, Copy)]
struct Goals<'a> {
    domain: &'a Domain,
}

impl fmt::Display for Goals<'_> {
    fn fmt<W: fmt::Write>(&self, f: &mut Formatter<W>) -> fmt::Result {
        let strong = SetText {
            set: self.domain.strong(),
        };
        let weak = SetText {
            set: self.domain.weak(),
        };
        writeln!(f, "strong goals {strong}")?;
        writeln!(f, "weak goals {weak}")
    }
}
