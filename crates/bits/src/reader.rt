ghost use Rattle.std.specs.Prelude.{◌*◌, ◌≤◌, length};

use crate::refusal::Refusal;
use crate::width::Width;

// Lent bytes and a place in them. A place counts bits, so it needs three bits more than a length, and is no `usize`.
#[derive(Clone, Copy)]
pub struct Reader<'a> {
    bytes: &'a [u8],
    place: u128,
    ghost within: { place ≤ 8 * length bytes.now },
}

impl<'a> Reader<'a> {
    ghost use Rattle.std.specs.Prelude.{◌≡◌, ◌+◌, ◌*◌, ◌^◌, ◌<◌, ◌≤◌, false, length, IfOk, slice_index_or};
    ghost use Rattle.bits.specs.Bits.{bits_of};
    ghost use Rattle.bits.specs.Fields.{field as field_at, number_at, next_place, fill_end, ending};

    // At the first bit of the bytes.
    pub fn new(bytes: &'a [u8]) -> Self
        ensures bytes { result.bytes ≡ bytes.entry }
        ensures place { result.place ≡ 0 }
    {
        Reader { bytes, place: 0 }
    }

    pub fn place(&self) -> u128
        ensures { result ≡ self.now.place }
    {
        self.place
    }

    // The number in the next field, and the place of the bit after it.
    pub fn field(&mut self, width: Width) -> Result<(u16, u128), Refusal>
        ensures value { result ≡ field_at (bits_of self.old.bytes.now) self.old.place width.bits }
        ensures small { IfOk result (λ v. v.0 < 2 ^ width.bits) }
        ensures bytes { self.new.bytes ≡ self.old.bytes }
        ensures place { self.new.place ≡ next_place result self.old.place }
    {
        let end = self.end();
        let next = self.place + u128::from(width.bits());
        if next > end {
            return Err(Refusal::Ended { place: end });
        }
        let value = self.number(width);
        *self = Reader {
            bytes: self.bytes,
            place: next,
        };
        Ok((value, next))
    }

    // Whether the layout ends here: zero bits fill the byte, and no byte follows.
    pub fn finish(&self) -> Result<(), Refusal>
        ensures { result ≡ ending (bits_of self.now.bytes.now) self.now.place }
    {
        let place = self.fill_end();
        if place < self.end() {
            return Err(Refusal::Trailing { place });
        }
        Ok(())
    }

    // The place after the last bit.
    fn end(&self) -> u128
        ensures bits { result ≡ length (bits_of self.now.bytes.now) }
        ensures bytes { result ≡ 8 * length self.now.bytes.now }
    {
        8 * self.bytes.len() as u128
    }

    // The number that the next bits spell. A loop: as a fold, its closure would have to bound the number so far.
    fn number(&self, width: Width) -> u16
        requires { self.now.place + width.bits ≤ length (bits_of self.now.bytes.now) }
        ensures value { result ≡ number_at (bits_of self.now.bytes.now) self.now.place width.bits }
        ensures small { result < 2 ^ width.bits }
    {
        let mut number = 0;
        for i in 0..width.bits() {
            number = number * 2 + u16::from(self.bit(self.place + u128::from(i)));
        }
        number
    }

    // The first place from here on that is not a zero bit of this byte. A `for` that returns: `find` would name the end twice.
    fn fill_end(&self) -> u128
        ensures { result ≡ fill_end (bits_of self.now.bytes.now) self.now.place }
    {
        let end = self.place + (8 - self.place % 8) % 8;
        for place in self.place..end {
            if self.bit(place) {
                return place;
            }
        }
        end
    }

    // Whether the bit at a place is 1; there is none past the end.
    fn bit(&self, place: u128) -> bool
        ensures { result ≡ slice_index_or (bits_of self.now.bytes.now) place false }
    {
        let index = place / 8;
        if index >= self.bytes.len() as u128 {
            return false;
        }
        let shift = 7 - (place % 8) as u8;
        self.bytes[index as usize] >> shift & 1 == 1
    }
}
