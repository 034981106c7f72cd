// Domain sheets, written.
ghost use Rattle.std.specs.Prelude.{◌≡◌, ◌≤◌, ◌++◌, length, drop, is_ok, if◌then◌else◌};
ghost use Rattle.std.specs.List.{flat_map};
ghost use Rattle.bits.specs.Bits.{numeral};
ghost use Rattle.bits.specs.Fields.{Wrote};
ghost use Rattle.lists.specs.Lists.{items_of};
ghost use Rattle.domain.specs.Domains.{sheet};
ghost use Rattle.domain.specs.Layout.{effect_bits, kind_of, deed_bits, action_bits, domain_bits, written, written_to};
ghost use Rattle.domain.specs.Lists.{list_bits};
ghost use Rattle.domain.specs.Promises.{WrittenOnce};
ghost use Rattle.domain.specs.Rows.{action_in, deed_in};

use crate::action::{Effect, Kind, Row};
use crate::list::{list_len, put_list};
use crate::record::Domain;
use bits::packed::{Packed, packed_len, put_all, write};
use bits::refusal::TooShort;
use bits::width::Width;
use bits::writer::Writer;
use lists::fixed_list::FixedList;
use literals::set::LiteralSet;

impl Domain {
    // The sheet's packed layout at the start of the buffer; the answer is how many bytes it has.
    pub fn write(&self, buffer: &mut [u8]) -> Result<usize, TooShort>
        ensures value { result ≡ written_to (sheet self.now) (length buffer.old) }
        ensures bytes { buffer.new ≡ (if is_ok result then written (sheet self.now) ++ drop (length (written (sheet self.now))) buffer.old else buffer.old) }
        ensures once { WrittenOnce (sheet self.now) }
    {
        self.write_packed(buffer)
    }

    // The same, with its proof by hand, so that a wrong line of `write` is refused at that line.
    fn write_packed(&self, buffer: &mut [u8]) -> Result<usize, TooShort>
        ensures value { result ≡ written_to (sheet self.now) (length buffer.old) }
        ensures bytes { buffer.new ≡ (if is_ok result then written (sheet self.now) ++ drop (length (written (sheet self.now))) buffer.old else buffer.old) }
        ensures once { WrittenOnce (sheet self.now) }
    {
        write(self, buffer)
    }
}

// The edition, the counts and the rest.
impl Packed for Domain {
    ghost bits = { λ domain. domain_bits (sheet domain) };

    ghost most = { 62865 };

    fn packed_len(&self) -> usize {
        let lists = list_len(Width::SIX, self.parts.initial)
            + list_len(Width::FOUR, self.parts.strong)
            + list_len(Width::FOUR, self.parts.weak);
        17 + lists + lists_len(self.groups()) + packed_len(self.rows()) as usize
    }

    fn put(&self, writer: &mut Writer) -> Result<(), TooShort> {
        writer.put(1, Width::FOUR)?;
        writer.put(u16::from(self.fluents() - 1), Width::FIVE)?;
        writer.put(u16::from(self.actions() - 1), Width::FOUR)?;
        put_facts(writer, self)
    }
}

// How many bits groups have. Groups are words, which are no type of this crate's, so the trait cannot be theirs. The loop states
// its bound as it goes: a sum would ask for that of the whole list beforehand.
fn lists_len(groups: &[LiteralSet]) -> usize
    requires { length groups.now ≤ 8 }
    ensures value { result ≡ length (flat_map (list_bits 4) groups.now) }
    ensures few { result ≤ 3200 }
{
    let mut bits = 0;
    for group in groups {
        bits += list_len(Width::FOUR, *group);
    }
    bits
}

// The initial literals, the groups, the actions and the goals.
fn put_facts(writer: &mut Writer, domain: &Domain) -> Result<(), TooShort>
    ensures { Wrote (is_ok result) (list_bits 6 (sheet domain.now).initial ++ ((numeral 4 (length (sheet domain.now).groups) ++ flat_map (list_bits 4) (sheet domain.now).groups) ++ (flat_map action_bits (sheet domain.now).actions ++ (list_bits 4 (sheet domain.now).strong ++ list_bits 4 (sheet domain.now).weak)))) writer.old writer.new }
{
    put_list(writer, Width::SIX, domain.parts.initial)?;
    put_groups(writer, &domain.parts.groups)?;
    put_all(writer, domain.rows())?;
    put_list(writer, Width::FOUR, domain.parts.strong)?;
    put_list(writer, Width::FOUR, domain.parts.weak)
}

// A count of groups, and the groups; `put_working` is the same of effects, which are packed by the trait.
fn put_groups(writer: &mut Writer, groups: &FixedList<LiteralSet, 8>) -> Result<(), TooShort>
    ensures { Wrote (is_ok result) (numeral 4 (length (items_of groups.now)) ++ flat_map (list_bits 4) (items_of groups.now)) writer.old writer.new }
{
    let groups = groups.as_slice();
    writer.put(groups.len() as u16, Width::FOUR)?;
    put_lists(writer, groups)
}

// Groups in sequence. Groups are words, so this is no instance of `put_all`.
fn put_lists(writer: &mut Writer, groups: &[LiteralSet]) -> Result<(), TooShort>
    ensures { Wrote (is_ok result) (flat_map (list_bits 4) groups.now) writer.old writer.new }
{
    for group in groups {
        put_list(writer, Width::FOUR, *group)?;
    }
    Ok(())
}

impl Packed for Row {
    ghost bits = { λ row. action_bits (action_in row) };

    ghost most = { 3653 };

    fn packed_len(&self) -> usize {
        1 + list_len(Width::FOUR, self.needs) + self.kind.packed_len()
    }

    fn put(&self, writer: &mut Writer) -> Result<(), TooShort> {
        writer.put(self.kind.bit(), Width::ONE)?;
        put_list(writer, Width::FOUR, self.needs)?;
        self.kind.put(writer)
    }
}

impl Kind {
    // The bit by which the layout says of an action what it does.
    fn bit(&self) -> u16
        ensures { result ≡ kind_of (deed_in self.now) }
    {
        match self {
            Kind::Working { .. } => 0,
            Kind::Sensing { .. } => 1,
        }
    }
}

// A count of effects and the effects, or the sensed fluent.
impl Packed for Kind {
    ghost bits = { λ kind. deed_bits (deed_in kind) };

    ghost most = { 3252 };

    fn packed_len(&self) -> usize {
        match self {
            Kind::Working { effects } => 4 + packed_len(effects.as_slice()) as usize,
            Kind::Sensing { .. } => 5,
        }
    }

    fn put(&self, writer: &mut Writer) -> Result<(), TooShort> {
        match self {
            Kind::Working { effects } => put_working(writer, effects),
            Kind::Sensing { fluent } => {
                writer.put(u16::from(*fluent), Width::FIVE)?;
                Ok(())
            }
        }
    }
}

// A count of effects, and the effects.
fn put_working(writer: &mut Writer, effects: &FixedList<Effect, 8>) -> Result<(), TooShort>
    ensures { Wrote (is_ok result) (numeral 4 (length (items_of effects.now)) ++ flat_map effect_bits (items_of effects.now)) writer.old writer.new }
{
    let effects = effects.as_slice();
    writer.put(effects.len() as u16, Width::FOUR)?;
    put_all(writer, effects)
}

impl Packed for Effect {
    ghost bits = { effect_bits };

    ghost most = { 406 };

    fn packed_len(&self) -> usize {
        list_len(Width::THREE, self.conditions) + 6
    }

    fn put(&self, writer: &mut Writer) -> Result<(), TooShort> {
        put_list(writer, Width::THREE, self.conditions)?;
        writer.put(u16::from(self.literal), Width::SIX)?;
        Ok(())
    }
}
