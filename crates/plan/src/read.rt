ghost use Rattle.std.specs.Prelude.{◌≡◌, ◌^◌, ◌<◌, ◌∷◌, ◌++◌, [], length, IfOk};
ghost use Rattle.bits.specs.Bits.{bits_of};
ghost use Rattle.bits.specs.Fields.{next_place, Onward};
ghost use Rattle.lists.specs.Lists.{items_of};
ghost use Rattle.plan.specs.Layout.{plan_field, node_at, plan_at, read_plan};
ghost use Rattle.plan.specs.Plans.{held, spelled};
ghost use Rattle.plan.specs.Promises.{ReadsExactly};
ghost use Rattle.plan.specs.Reading.{Added};
ghost use Rattle.plan.specs.Tree.{Whole};

use crate::node::Node;
use crate::record::{Nodes, Plan};
use crate::refusal::Refusal;
use bits::reader::Reader;
use bits::width::Width;

impl Plan {
    // The plan that the bytes are the packed layout of.
    pub fn read(bytes: &[u8]) -> Result<Plan, Refusal>
        ensures value { held result ≡ read_plan bytes.now }
        ensures exact { ReadsExactly bytes.now }
    {
        let nodes = whole(bytes)?;
        Ok(Plan { nodes })
    }
}

// The nodes of a whole plan, which fill the bytes. Not one function with the domain's, for the same reason as `field`.
fn whole(bytes: &[u8]) -> Result<Nodes, Refusal>
    ensures value { spelled result ≡ read_plan bytes.now }
    ensures lawful { IfOk result (λ n. Whole (items_of n)) }
    ensures exact { ReadsExactly bytes.now }
{
    let mut reader = Reader::new(bytes);
    let (edition, _) = field(&mut reader, Width::FOUR)?;
    if edition != 1 {
        return Err(Refusal::Edition { place: 0 });
    }
    let mut nodes = Nodes::empty(Node::End);
    subplan(&mut reader, &mut nodes, 32)?;
    reader.finish()?;
    Ok(nodes)
}

// The plan at the reader's place, at most `remaining` orders and looks deep; its nodes go after those before it.
fn subplan(reader: &mut Reader, nodes: &mut Nodes, remaining: u8) -> Result<(), Refusal>
    ensures bytes { reader.new.bytes ≡ reader.old.bytes }
    ensures added { Added (plan_at remaining (bits_of reader.old.bytes.now) (length (items_of nodes.old)) reader.old.place) result (items_of nodes.old) (items_of nodes.new) reader.new.place }
{
    let (first, _) = node(reader, nodes.as_slice().len(), remaining)?;
    push(nodes, first);
    match first {
        Node::End => Ok(()),
        Node::Order { .. } => subplan(reader, nodes, remaining - 1),
        Node::Look { .. } => {
            subplan(reader, nodes, remaining - 1)?;
            subplan(reader, nodes, remaining - 1)
        }
    }
}

// One node more; its contract says that there is room, which the list's own cannot.
fn push(nodes: &mut Nodes, node: Node)
    requires { length (items_of nodes.old) < 255 }
    ensures { items_of nodes.new ≡ items_of nodes.old ++ node ∷ [] }
{
    nodes.push(node);
}

// The node at the reader's place, with `count` nodes before it and room for `remaining` orders and looks. The tag is the layout's number
// and becomes a `Node` here: an enum of tags would be `Node` again, without its actions.
fn node(reader: &mut Reader, count: usize, remaining: u8) -> Result<(Node, u128), Refusal>
    ensures value { result ≡ node_at (bits_of reader.old.bytes.now) remaining count reader.old.place }
    ensures moved { Onward result reader.old reader.new }
{
    let place = reader.place();
    let (tag, next) = field(reader, Width::TWO)?;
    if tag == 3 {
        return Err(Refusal::Tag { place });
    }
    if count == 255 {
        return Err(Refusal::TooLarge { place });
    }
    if tag == 0 {
        return Ok((Node::End, next));
    }
    if remaining == 0 {
        return Err(Refusal::TooLarge { place });
    }
    let (action, next) = field(reader, Width::FOUR)?;
    let action = action as u8;
    if tag == 1 {
        Ok((Node::Order { action }, next))
    } else {
        Ok((Node::Look { action }, next))
    }
}

// A field of the plan, and the place of the bit after it. Not one function with the domain's, generic over the refusal: `From` says what it
// gives as a relation, so an answer could not be told by equality.
fn field(reader: &mut Reader, width: Width) -> Result<(u16, u128), Refusal>
    ensures value { result ≡ plan_field (bits_of reader.old.bytes.now) reader.old.place width.bits }
    ensures small { IfOk result (λ v. v.0 < 2 ^ width.bits) }
    ensures moved { Onward result reader.old reader.new }
    ensures place { reader.new.place ≡ next_place result reader.old.place }
{
    let read = reader.field(width)?;
    Ok(read)
}
