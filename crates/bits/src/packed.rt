// Values that a layout packs into bits.
ghost use Rattle.std.specs.Prelude.{◌≡◌, ℕ, ◌*◌, ◌≤◌, Bool, true, List, ◌++◌, length, drop, is_ok, if◌then◌else◌};
ghost use Rattle.std.specs.List.{flat_map};
ghost use Rattle.bits.specs.Bits.{packed};
ghost use Rattle.bits.specs.Fields.{Wrote, Filled, packed_to};

use crate::refusal::TooShort;
use crate::writer::Writer;

// What has its place in a layout.
pub trait Packed {
    ghost bits: { Self → List Bool };

    // No value has more bits than that.
    ghost most: { ℕ };

    // How many bits it has.
    fn packed_len(&self) -> usize
        ensures value { result ≡ length (bits self.now) }
        ensures few { result ≤ most };

    // Its bits, after those that the writer has put.
    fn put(&self, writer: &mut Writer) -> Result<(), TooShort>
        ensures { Wrote (is_ok result) (bits self.now) writer.old writer.new };
}

// The value's bits packed at the start of the buffer, with zero bits to the end of their last byte; the answer is how many bytes they are.
pub fn write<T: Packed>(value: &T, buffer: &mut [u8]) -> Result<usize, TooShort>
    ensures value { result ≡ packed_to (T.bits value.now) (length buffer.old) }
    ensures bytes { buffer.new ≡ (if is_ok result then packed (T.bits value.now) ++ drop (length (packed (T.bits value.now))) buffer.old else buffer.old) }
{
    let needed = bytes_len(value);
    if buffer.len() < needed {
        return Err(TooShort {
            needed: needed as u128,
        });
    }
    fill(value, buffer)?;
    Ok(needed)
}

// How many bytes hold the value's bits.
fn bytes_len<T: Packed>(value: &T) -> usize
    ensures { result ≡ length (packed (T.bits value.now)) }
{
    ((value.packed_len() as u128 + 7) / 8) as usize
}

// The packed bits in a buffer that has room for them.
fn fill<T: Packed>(value: &T, buffer: &mut [u8]) -> Result<(), TooShort>
    requires { length (packed (T.bits value.now)) ≤ length buffer.old }
    ensures value { is_ok result ≡ true }
    ensures bytes { buffer.new ≡ packed (T.bits value.now) ++ drop (length (packed (T.bits value.now))) buffer.old }
{
    put_from_start(value, buffer)
}

fn put_from_start<T: Packed>(value: &T, buffer: &mut [u8]) -> Result<(), TooShort>
    ensures { Filled (is_ok result) (T.bits value.now) buffer.old buffer.new }
{
    let mut writer = Writer::new(buffer);
    put_first(value, &mut writer)
}

// The first value that the writer puts.
fn put_first<T: Packed>(value: &T, writer: &mut Writer) -> Result<(), TooShort>
    ensures filled { writer.old.place ≡ 0 → Filled (is_ok result) (T.bits value.now) writer.old.bytes.now writer.new.bytes.now }
    ensures name { writer.new.bytes.ghost_name ≡ writer.old.bytes.ghost_name }
{
    value.put(writer)
}

// How many bits the items have. A loop, since it states its bound as it goes: a sum would ask for that of the whole list beforehand.
pub fn packed_len<T: Packed>(items: &[T]) -> u128
    ensures value { result ≡ length (flat_map T.bits items.now) }
    ensures few { result ≤ T.most * length items.now }
{
    let mut bits = 0;
    for item in items {
        bits += item.packed_len() as u128;
    }
    bits
}

// The items in sequence.
pub fn put_all<T: Packed>(writer: &mut Writer, items: &[T]) -> Result<(), TooShort>
    ensures { Wrote (is_ok result) (flat_map T.bits items.now) writer.old writer.new }
{
    put_each(writer, items)
}

// The same, with its proof by hand, so that a wrong line of `put_all` is refused at that line.
fn put_each<T: Packed>(writer: &mut Writer, items: &[T]) -> Result<(), TooShort>
    ensures { Wrote (is_ok result) (flat_map T.bits items.now) writer.old writer.new }
{
    for item in items {
        item.put(writer)?;
    }
    Ok(())
}
