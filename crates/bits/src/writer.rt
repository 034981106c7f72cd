ghost use Rattle.std.specs.Prelude.{◌≡◌, ◌+◌, ◌*◌, ◌<◌, ◌≤◌, length, is_ok, if◌then◌else◌};
ghost use Rattle.bits.specs.Bits.{numeral, put as put_bits, put_bit, with_bit};
ghost use Rattle.bits.specs.Fields.{written_field, Wrote};

use crate::refusal::TooShort;
use crate::width::Width;

// A lent buffer and a place in it.
#[derive(Drop)]
pub struct Writer<'a> {
    bytes: &'a mut [u8],
    place: u128,
}

impl<'a> Writer<'a> {
    // At the first bit of the buffer.
    pub fn new(bytes: &'a mut [u8]) -> Self
        ensures bytes { result.bytes.now ≡ bytes.old }
        ensures name { result.bytes.ghost_name ≡ bytes.entry.ghost_name }
        ensures place { result.place ≡ 0 }
    {
        Writer { bytes, place: 0 }
    }

    // One field more: the lowest bits of the value. The answer is the place of the bit after it.
    pub fn put(&mut self, value: u16, width: Width) -> Result<u128, TooShort>
        ensures value { result ≡ written_field (length self.old.bytes.now) self.old.place width.bits }
        ensures place { self.new.place ≡ (if is_ok result then self.old.place + width.bits else self.old.place) }
        ensures bytes { self.new.bytes.now ≡ (if is_ok result then put_bits self.old.place (numeral width.bits value) self.old.bytes.now else self.old.bytes.now) }
        ensures wrote { Wrote (is_ok result) (numeral width.bits value) self.old self.new }
    {
        self.put_field(value, width)
    }

    // The same, with its proof by hand, so that a wrong line of `put` is refused at that line. Tried without it, with the lemma named on
    // `put`: the clause `wrote` stayed open.
    fn put_field(&mut self, value: u16, width: Width) -> Result<u128, TooShort>
        ensures value { result ≡ written_field (length self.old.bytes.now) self.old.place width.bits }
        ensures place { self.new.place ≡ (if is_ok result then self.old.place + width.bits else self.old.place) }
        ensures bytes { self.new.bytes.now ≡ (if is_ok result then put_bits self.old.place (numeral width.bits value) self.old.bytes.now else self.old.bytes.now) }
        ensures wrote { Wrote (is_ok result) (numeral width.bits value) self.old self.new }
    {
        let place = self.place;
        let bits = u128::from(width.bits());
        let end = 8 * self.bytes.len() as u128;
        if place > end || bits > end - place {
            return Err(TooShort {
                needed: place / 8 + (place % 8 + bits + 7) / 8,
            });
        }
        put_number(self.bytes, place, value, width);
        self.place = place + bits;
        Ok(place + bits)
    }
}

// The lowest bits of a number from a place of the buffer on.
fn put_number(bytes: &mut [u8], place: u128, value: u16, width: Width)
    requires { place + width.bits ≤ 8 * length bytes.old }
    ensures { bytes.new ≡ put_bits place (numeral width.bits value) bytes.old }
{
    for i in 0..width.bits() {
        let bit = value >> (width.bits() - 1 - i) & 1 == 1;
        put_bit(bytes, place + u128::from(i), bit);
    }
}

// The bit at a place of the buffer; the bits after it in its byte become zero.
fn put_bit(bytes: &mut [u8], place: u128, bit: bool)
    requires { place < 8 * length bytes.old }
    ensures { bytes.new ≡ put_bit place bit bytes.old }
{
    let index = (place / 8) as usize;
    bytes[index] = with_bit(bytes[index], (place % 8) as u8, bit);
}

// The byte with a bit put into it: the bits before it stay, and those after it become zero.
fn with_bit(byte: u8, at: u8, bit: bool) -> u8
    requires { at < 8 }
    ensures { result ≡ with_bit at bit byte }
{
    let left = 8 - at;
    let before = u16::from(byte) >> left << left;
    (before + (u16::from(bit) << (left - 1))) as u8
}
