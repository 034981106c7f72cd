// Fields, literals and lists of literals. The number of fluents goes beside the reader: as a field of what is lent, each function would
// have to promise that it stays.
ghost use Rattle.std.specs.Prelude.{◌≡◌, ◌/◌, ◌^◌, ◌<◌, ◌≤◌, length, is_ok, IfOk};
ghost use Rattle.std.specs.List.{flat_map};
ghost use Rattle.bits.specs.Bits.{bits_of, numeral};
ghost use Rattle.bits.specs.Fields.{next_place, Onward, Wrote};
ghost use Rattle.domain.specs.Lists.{domain_field, count_at, literal_at, literals_at, list_at, members_from, members, list_bits};

use crate::refusal::Refusal;
use bits::reader::Reader;
use bits::refusal::TooShort;
use bits::width::Width;
use bits::writer::Writer;
use literals::set::{Literal, LiteralSet, contains, with};

// A field, and the place of the bit after it. Not one function with the plan's, generic over the refusal: `From` says what it gives as a
// relation, so an answer could not be told by equality.
pub(crate) fn field(reader: &mut Reader, width: Width) -> Result<(u16, u128), Refusal>
    ensures value { result ≡ domain_field (bits_of reader.old.bytes.now) reader.old.place width.bits }
    ensures small { IfOk result (λ v. v.0 < 2 ^ width.bits) }
    ensures moved { Onward result reader.old reader.new }
    ensures place { reader.new.place ≡ next_place result reader.old.place }
{
    let read = reader.field(width)?;
    Ok(read)
}

// A field for a count: its width, and what the count may be.
#[derive(Clone, Copy)]
pub(crate) struct Range {
    pub(crate) width: Width,
    pub(crate) least: u8,
    pub(crate) most: u8,
}

pub(crate) const INITIAL: Range = Range {
    width: Width::SIX,
    least: 0,
    most: 32,
};

pub(crate) const GROUP: Range = Range {
    width: Width::FOUR,
    least: 2,
    most: 8,
};

// The count of needs, of goals, of groups and of effects.
pub(crate) const UP_TO_EIGHT: Range = Range {
    width: Width::FOUR,
    least: 0,
    most: 8,
};

pub(crate) const CONDITIONS: Range = Range {
    width: Width::THREE,
    least: 0,
    most: 7,
};

// A count in its range, and the place of the bit after it.
pub(crate) fn count(reader: &mut Reader, range: Range) -> Result<(u8, u128), Refusal>
    ensures value { result ≡ count_at (bits_of reader.old.bytes.now) range.width.bits range.least range.most reader.old.place }
    ensures few { IfOk result (λ v. v.0 ≤ range.most) }
    ensures moved { Onward result reader.old reader.new }
{
    let place = reader.place();
    let (count, next) = field(reader, range.width)?;
    if count < u16::from(range.least) || count > u16::from(range.most) {
        return Err(Refusal::Count { place });
    }
    Ok((count as u8, next))
}

// A literal of one of the fluents, not below the least, and the place of the bit after it.
pub(crate) fn literal(
    reader: &mut Reader,
    fluents: u8,
    least: u8,
) -> Result<(Literal, u128), Refusal>
    ensures value { result ≡ literal_at (bits_of reader.old.bytes.now) fluents least reader.old.place }
    ensures small { IfOk result (λ v. v.0 < 64) }
    ensures known { IfOk result (λ v. v.0 / 2 < fluents) }
    ensures moved { Onward result reader.old reader.new }
{
    let place = reader.place();
    let (number, next) = field(reader, Width::SIX)?;
    let literal = number as u8;
    if literal / 2 >= fluents {
        return Err(Refusal::UnknownFluent { place });
    }
    if literal < least {
        return Err(Refusal::NotRising { place });
    }
    Ok((literal, next))
}

// A list: a count in its range, and as many literals whose fluents rise strictly.
pub(crate) fn list(
    reader: &mut Reader,
    fluents: u8,
    range: Range,
) -> Result<(LiteralSet, u128), Refusal>
    ensures value { result ≡ list_at (bits_of reader.old.bytes.now) fluents range.width.bits range.least range.most reader.old.place }
    ensures moved { Onward result reader.old reader.new }
{
    let (count, _) = count(reader, range)?;
    literals(reader, fluents, count)
}

// So many literals whose fluents rise strictly.
fn literals(reader: &mut Reader, fluents: u8, count: u8) -> Result<(LiteralSet, u128), Refusal>
    ensures value { result ≡ literals_at count (bits_of reader.old.bytes.now) fluents 0 0 reader.old.place }
    ensures moved { Onward result reader.old reader.new }
{
    let mut set = 0;
    let mut least = 0;
    for _ in 0..count {
        let (next, _) = literal(reader, fluents, least)?;
        set = with(set, next);
        least = (next / 2 + 1) * 2;
    }
    Ok((set, reader.place()))
}

// A set as a list: the count of its members, and its members in rising sequence.
pub(crate) fn put_list(writer: &mut Writer, width: Width, set: LiteralSet) -> Result<(), TooShort>
    ensures { Wrote (is_ok result) (list_bits width.bits set) writer.old writer.new }
{
    writer.put(u16::from(members(set)), width)?;
    put_members(writer, set)
}

// How many bits a set has as a list.
pub(crate) fn list_len(width: Width, set: LiteralSet) -> usize
    ensures value { result ≡ length (list_bits width.bits set) }
    ensures few { result ≤ 400 }
{
    usize::from(width.bits()) + 6 * usize::from(members(set))
}

// How many members a set has.
#[tactic(auto, using(crate::proofs::ListSteps::count_members))]
pub(crate) fn members(set: LiteralSet) -> u8
    ensures value { result ≡ length (members set) }
    ensures few { result ≤ 64 }
{
    set.count_ones() as u8
}

// The members of a set in rising sequence. The literals are gone through, and not a filter of them: by a literal the proof says which
// members are put so far.
fn put_members(writer: &mut Writer, set: LiteralSet) -> Result<(), TooShort>
    ensures { Wrote (is_ok result) (flat_map (numeral 6) (members set)) writer.old writer.new }
{
    for literal in 0..64 {
        put_member(writer, set, literal)?;
    }
    Ok(())
}

// A literal, if it is a member of the set.
fn put_member(writer: &mut Writer, set: LiteralSet, literal: Literal) -> Result<(), TooShort>
    ensures { Wrote (is_ok result) (flat_map (numeral 6) (members_from set 1 literal)) writer.old writer.new }
{
    if contains(set, literal) {
        writer.put(u16::from(literal), Width::SIX)?;
    }
    Ok(())
}
