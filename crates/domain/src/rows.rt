// Effects and actions, read field by field.
ghost use Rattle.std.specs.Prelude.{◌≡◌, ◌+◌, ◌^◌, ◌<◌, ◌≤◌, [], length, IfOk, if◌then◌else◌, Some, None};
ghost use Rattle.bits.specs.Bits.{bits_of};
ghost use Rattle.bits.specs.Fields.{Onward};
ghost use Rattle.domain.specs.Layout.{effect_at, effects_at, counted_at, working_at, sensing_at, deed_at, clash_place};
ghost use Rattle.lists.specs.Lists.{items_of};
ghost use Rattle.domain.specs.Rows.{deed_in, holds};
ghost use Rattle.domain.specs.Sheet.{clash, clashes, clash_free};

use crate::action::{Effect, Kind};
use crate::list::{CONDITIONS, UP_TO_EIGHT, count, field, list, literal};
use crate::refusal::Refusal;
use bits::packed::Packed;
use bits::reader::Reader;
use bits::width::Width;
use lists::fixed_list::FixedList;
use literals::set::{opposite, opposites};

// What the action does: it senses, or it works.
pub(crate) fn deed(
    reader: &mut Reader,
    fluents: u8,
    action: u8,
    senses: bool,
) -> Result<(Kind, u128), Refusal>
    ensures value { holds deed_in result ≡ deed_at (bits_of reader.old.bytes.now) fluents action (if senses then 1 else 0) reader.old.place }
    ensures moved { Onward result reader.old reader.new }
{
    if senses {
        let (fluent, next) = sensing(reader, fluents)?;
        return Ok((Kind::Sensing { fluent }, next));
    }
    let (effects, next) = working(reader, fluents, action)?;
    Ok((Kind::Working { effects }, next))
}

// The fluent that an action senses.
fn sensing(reader: &mut Reader, fluents: u8) -> Result<(u8, u128), Refusal>
    ensures value { result ≡ sensing_at (bits_of reader.old.bytes.now) fluents reader.old.place }
    ensures moved { Onward result reader.old reader.new }
{
    let place = reader.place();
    let (fluent, next) = field(reader, Width::FIVE)?;
    if fluent >= u16::from(fluents) {
        return Err(Refusal::UnknownFluent { place });
    }
    Ok((fluent as u8, next))
}

// The effects of an action, none of which clashes with an earlier one.
fn working(
    reader: &mut Reader,
    fluents: u8,
    action: u8,
) -> Result<(FixedList<Effect, 8>, u128), Refusal>
    ensures value { holds items_of result ≡ working_at (bits_of reader.old.bytes.now) fluents action reader.old.place }
    ensures moved { Onward result reader.old reader.new }
{
    let start = reader.place();
    let (effects, next) = counted(reader, fluents)?;
    match first_clash(effects.as_slice(), start) {
        Some(place) => Err(Refusal::NotExclusive { action, place }),
        None => Ok((effects, next)),
    }
}

// The first bit of the earliest effect that clashes with an earlier one; the effects' count stands at the place. Each effect is compared
// with every earlier one, as the layout says it, and the place runs along.
fn first_clash(effects: &[Effect], count_place: u128) -> Option<u128>
    requires few { length effects.now ≤ 8 }
    requires fits { count_place ≤ 2 ^ 67 }
    ensures { result ≡ (if clash_free [] effects.now then None else Some (clash_place [] (count_place + 4) effects.now)) }
{
    let mut place = count_place + 4;
    for (i, effect) in effects.iter().enumerate() {
        if clashes(effect, &effects[0..i]) {
            return Some(place);
        }
        place += effect.packed_len() as u128;
    }
    None
}

// Whether an effect clashes with one of the earlier ones.
fn clashes(effect: &Effect, earlier: &[Effect]) -> bool
    ensures { result ≡ clashes effect.now earlier.now }
{
    earlier.iter().any(|other| clash(effect, other))
}

// Whether the literals of two effects are opposites, and no condition of one is the opposite of a condition of the other.
fn clash(one: &Effect, other: &Effect) -> bool
    ensures { result ≡ clash one.now other.now }
{
    one.literal == opposite(other.literal) && one.conditions & opposites(other.conditions) == 0
}

// A count of effects and the effects.
fn counted(reader: &mut Reader, fluents: u8) -> Result<(FixedList<Effect, 8>, u128), Refusal>
    ensures value { holds items_of result ≡ counted_at (bits_of reader.old.bytes.now) fluents reader.old.place }
    ensures moved { Onward result reader.old reader.new }
{
    let (count, _) = count(reader, UP_TO_EIGHT)?;
    effects(reader, fluents, count)
}

// So many effects whose literals rise strictly.
fn effects(
    reader: &mut Reader,
    fluents: u8,
    count: u8,
) -> Result<(FixedList<Effect, 8>, u128), Refusal>
    requires { count ≤ 8 }
    ensures value { holds items_of result ≡ effects_at count (bits_of reader.old.bytes.now) fluents 0 reader.old.place }
    ensures moved { Onward result reader.old reader.new }
{
    let nothing = Effect {
        conditions: 0,
        literal: 0,
    };
    let mut effects = FixedList::empty(nothing);
    let mut least = 0;
    for _ in 0..count {
        let (next, _) = effect(reader, fluents, least)?;
        effects.push(next);
        least = next.literal + 1;
    }
    Ok((effects, reader.place()))
}

// An effect whose literal is not below the least.
fn effect(reader: &mut Reader, fluents: u8, least: u8) -> Result<(Effect, u128), Refusal>
    ensures value { result ≡ effect_at (bits_of reader.old.bytes.now) fluents least reader.old.place }
    ensures small { IfOk result (λ v. v.0.literal < 64) }
    ensures moved { Onward result reader.old reader.new }
{
    let (conditions, _) = list(reader, fluents, CONDITIONS)?;
    let (literal, next) = literal(reader, fluents, least)?;
    Ok((
        Effect {
            conditions,
            literal,
        },
        next,
    ))
}
