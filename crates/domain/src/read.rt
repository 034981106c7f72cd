// Domain sheets, read field by field.
ghost use Rattle.std.specs.Prelude.{◌≡◌, ◌≤◌, true, IfOk, if◌then◌else◌};
ghost use Rattle.bits.specs.Bits.{bits_of};
ghost use Rattle.bits.specs.Fields.{Onward};
ghost use Rattle.lists.specs.Lists.{items_of};
ghost use Rattle.domain.specs.Domains.{held, spelled};
ghost use Rattle.domain.specs.Layout.{row_at, action_at, actions_at, groups_at, all_groups_at, goals_at, facts_at, sheet_at, read_domain};
ghost use Rattle.domain.specs.Promises.{ReadsExactly};
ghost use Rattle.domain.specs.Sheet.{lawful as is_lawful};
ghost use Rattle.domain.specs.Rows.{action_in, actions_in, holds, parts_sheet};

use crate::action::{Kind, Parts, Row};
use crate::list::{GROUP, INITIAL, UP_TO_EIGHT, count, field, list};
use crate::record::Domain;
use crate::refusal::Refusal;
use crate::rows::deed;
use bits::reader::Reader;
use bits::width::Width;
use lists::fixed_list::FixedList;
use literals::set::LiteralSet;

impl Domain {
    // The sheet that the bytes are the packed layout of.
    pub fn read(bytes: &[u8]) -> Result<Domain, Refusal>
        ensures value { held result ≡ read_domain bytes.now }
        ensures exact { ReadsExactly bytes.now }
    {
        let parts = whole(bytes)?;
        Ok(Domain { parts })
    }
}

// The parts of a lawful sheet, which fills the bytes. Not one function with the plan's, for the same reason as `field`.
fn whole(bytes: &[u8]) -> Result<Parts, Refusal>
    ensures value { spelled result ≡ read_domain bytes.now }
    ensures lawful { IfOk result (λ d. is_lawful (parts_sheet d) ≡ true) }
    ensures exact { ReadsExactly bytes.now }
{
    let mut reader = Reader::new(bytes);
    let (edition, _) = field(&mut reader, Width::FOUR)?;
    if edition != 1 {
        return Err(Refusal::Edition { place: 0 });
    }
    let (parts, _) = sheet(&mut reader)?;
    reader.finish()?;
    Ok(parts)
}

// The counts of fluents and of actions, each less one, and what comes after them.
fn sheet(reader: &mut Reader) -> Result<(Parts, u128), Refusal>
    ensures value { holds parts_sheet result ≡ sheet_at (bits_of reader.old.bytes.now) reader.old.place }
    ensures moved { Onward result reader.old reader.new }
{
    let (fluents, _) = field(reader, Width::FIVE)?;
    let (actions, _) = field(reader, Width::FOUR)?;
    facts(reader, fluents as u8 + 1, actions as u8 + 1)
}

// The initial literals, the groups, so many actions, and the goals.
fn facts(reader: &mut Reader, fluents: u8, actions: u8) -> Result<(Parts, u128), Refusal>
    requires { actions ≤ 16 }
    ensures value { holds parts_sheet result ≡ facts_at (bits_of reader.old.bytes.now) fluents actions reader.old.place }
    ensures moved { Onward result reader.old reader.new }
{
    let (initial, _) = list(reader, fluents, INITIAL)?;
    let (groups, _) = all_groups(reader, fluents)?;
    let (rows, _) = rows(reader, fluents, actions)?;
    let ((strong, weak), next) = goals(reader, fluents)?;
    let parts = Parts {
        fluents,
        initial,
        groups,
        rows,
        strong,
        weak,
    };
    Ok((parts, next))
}

// So many groups. This loop, that of actions and that of effects take different things along (nothing, a number, a least literal): one
// function over a closure would have to carry that in the closure's contract.
fn groups(
    reader: &mut Reader,
    fluents: u8,
    count: u8,
) -> Result<(FixedList<LiteralSet, 8>, u128), Refusal>
    requires { count ≤ 8 }
    ensures value { holds items_of result ≡ groups_at count (bits_of reader.old.bytes.now) fluents reader.old.place }
    ensures moved { Onward result reader.old reader.new }
{
    let mut groups = FixedList::empty(0);
    for _ in 0..count {
        let (next, _) = list(reader, fluents, GROUP)?;
        groups.push(next);
    }
    Ok((groups, reader.place()))
}

// A count of groups and the groups; `counted` is the same of effects, and what both share is one line.
fn all_groups(reader: &mut Reader, fluents: u8) -> Result<(FixedList<LiteralSet, 8>, u128), Refusal>
    ensures value { holds items_of result ≡ all_groups_at (bits_of reader.old.bytes.now) fluents reader.old.place }
    ensures moved { Onward result reader.old reader.new }
{
    let (count, _) = count(reader, UP_TO_EIGHT)?;
    groups(reader, fluents, count)
}

// So many actions.
fn rows(reader: &mut Reader, fluents: u8, count: u8) -> Result<(FixedList<Row, 16>, u128), Refusal>
    requires { count ≤ 16 }
    ensures value { holds actions_in result ≡ actions_at count (bits_of reader.old.bytes.now) fluents 0 reader.old.place }
    ensures moved { Onward result reader.old reader.new }
{
    let nothing = Row {
        needs: 0,
        kind: Kind::Sensing { fluent: 0 },
    };
    let mut rows = FixedList::empty(nothing);
    for action in 0..count {
        let (next, _) = row(reader, fluents, action)?;
        rows.push(next);
    }
    Ok((rows, reader.place()))
}

// An action.
fn row(reader: &mut Reader, fluents: u8, action: u8) -> Result<(Row, u128), Refusal>
    ensures value { holds action_in result ≡ action_at (bits_of reader.old.bytes.now) fluents action reader.old.place }
    ensures moved { Onward result reader.old reader.new }
{
    let (kind, _) = field(reader, Width::ONE)?;
    row_of_kind(reader, fluents, action, kind == 1)
}

// An action's needs and what it does.
fn row_of_kind(
    reader: &mut Reader,
    fluents: u8,
    action: u8,
    senses: bool,
) -> Result<(Row, u128), Refusal>
    ensures value { holds action_in result ≡ row_at (bits_of reader.old.bytes.now) fluents action (if senses then 1 else 0) reader.old.place }
    ensures moved { Onward result reader.old reader.new }
{
    let (needs, _) = list(reader, fluents, UP_TO_EIGHT)?;
    let (kind, next) = deed(reader, fluents, action, senses)?;
    Ok((Row { needs, kind }, next))
}

// The strong and the weak goals.
fn goals(reader: &mut Reader, fluents: u8) -> Result<((LiteralSet, LiteralSet), u128), Refusal>
    ensures value { result ≡ goals_at (bits_of reader.old.bytes.now) fluents reader.old.place }
    ensures moved { Onward result reader.old reader.new }
{
    let (strong, _) = list(reader, fluents, UP_TO_EIGHT)?;
    let (weak, next) = list(reader, fluents, UP_TO_EIGHT)?;
    Ok(((strong, weak), next))
}
