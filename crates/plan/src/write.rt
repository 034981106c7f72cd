ghost use Rattle.std.specs.Prelude.{◌≡◌, ◌++◌, length, drop, is_ok, if◌then◌else◌};
ghost use Rattle.bits.specs.Bits.{numeral};
ghost use Rattle.bits.specs.Fields.{Wrote};
ghost use Rattle.plan.specs.Layout.{node_bits, plan_bits, written, written_to};
ghost use Rattle.plan.specs.Plans.{plan_tree};
ghost use Rattle.plan.specs.Promises.{WrittenOnce};

use crate::node::Node;
use crate::record::Plan;
use bits::packed::{Packed, packed_len, put_all, write};
use bits::refusal::TooShort;
use bits::width::Width;
use bits::writer::Writer;

impl Plan {
    // The plan's packed layout at the start of the buffer; the answer is how many bytes it has.
    pub fn write(&self, buffer: &mut [u8]) -> Result<usize, TooShort>
        ensures value { result ≡ written_to (plan_tree self.now) (length buffer.old) }
        ensures bytes { buffer.new ≡ (if is_ok result then written (plan_tree self.now) ++ drop (length (written (plan_tree self.now))) buffer.old else buffer.old) }
        ensures once { WrittenOnce (plan_tree self.now) }
    {
        self.write_packed(buffer)
    }

    // The same, with its proof by hand, so that a wrong line of `write` is refused at that line.
    fn write_packed(&self, buffer: &mut [u8]) -> Result<usize, TooShort>
        ensures value { result ≡ written_to (plan_tree self.now) (length buffer.old) }
        ensures bytes { buffer.new ≡ (if is_ok result then written (plan_tree self.now) ++ drop (length (written (plan_tree self.now))) buffer.old else buffer.old) }
        ensures once { WrittenOnce (plan_tree self.now) }
    {
        write(self, buffer)
    }
}

// The edition and the nodes.
impl Packed for Plan {
    ghost bits = { λ plan. plan_bits (plan_tree plan) };

    ghost most = { 1534 };

    fn packed_len(&self) -> usize {
        4 + packed_len(self.nodes()) as usize
    }

    fn put(&self, writer: &mut Writer) -> Result<(), TooShort> {
        writer.put(1, Width::FOUR)?;
        put_all(writer, self.nodes())
    }
}

impl Packed for Node {
    ghost bits = { node_bits };

    ghost most = { 6 };

    fn packed_len(&self) -> usize {
        match self {
            Node::End => 2,
            Node::Order { .. } => 6,
            Node::Look { .. } => 6,
        }
    }

    fn put(&self, writer: &mut Writer) -> Result<(), TooShort> {
        match self {
            Node::End => {
                writer.put(0, Width::TWO)?;
                Ok(())
            }
            Node::Order { action } => put_action(writer, 1, *action),
            Node::Look { action } => put_action(writer, 2, *action),
        }
    }
}

// A tag and an action more. The tag is the layout's number of the kind of node: an enum of tags would be `Node` again.
fn put_action(writer: &mut Writer, tag: u16, action: u8) -> Result<(), TooShort>
    ensures { Wrote (is_ok result) (numeral 2 tag ++ numeral 4 action) writer.old writer.new }
{
    writer.put(tag, Width::TWO)?;
    writer.put(u16::from(action), Width::FOUR)?;
    Ok(())
}
