ghost use Rattle.std.specs.Prelude.{◌≡◌, ◌+◌, ◌^◌, ◌<◌, ◌≤◌, [], ◌++◌, length, take, drop, slice_set};
ghost use Rattle.mip_words.specs.Numbers.{number_bytes};

use arrayvec::ArrayVec;
use mip_words::u16_bytes;
use std::marker::Model;

/// The bytes of a message, of which there are 96 at most, in the value itself: they take no other memory. Clauses see the bytes.
#[derive(Drop)]
pub struct MessageBytes {
    list: ArrayVec<u8, 96>,
}

impl Model for MessageBytes {
    ghost use Rattle.std.specs.Prelude.{ℕ, List};

    ghost Value = { List ℕ };

    ghost view = { λ m. m.list.items };
}

impl MessageBytes {
    pub(crate) fn new() -> MessageBytes
        ensures { result ≡ [] }
    {
        MessageBytes {
            list: ArrayVec::new(),
        }
    }

    /// Appends these bytes.
    pub(crate) fn extend(&mut self, bytes: &[u8])
        requires { length self.old + length bytes.now ≤ 96 }
        ensures { self.new ≡ self.old ++ bytes.now }
    {
        self.list.try_extend_from_slice(bytes).unwrap()
    }

    /// Puts a byte in the place of the one that stands there.
    pub(crate) fn set(&mut self, place: usize, byte: u8)
        requires { place < length self.old }
        ensures { self.new ≡ slice_set self.old place byte }
    {
        self.list[place] = byte;
    }

    /// Puts a number in the place of the two bytes that stand there, its high byte first.
    pub(crate) fn set_u16(&mut self, place: usize, number: u16)
        requires within { place + 2 ≤ length self.old }
        requires early { place < 2 ^ 16 }
        ensures { self.new ≡ take place self.old ++ (number_bytes 2 number ++ drop (place + 2) self.old) }
    {
        let [high, low] = u16_bytes(number);
        self.set(place, high);
        self.set(place + 1, low);
    }

    pub fn as_slice(&self) -> &[u8]
        ensures is { result.now ≡ self.now }
        ensures short { length result.now ≤ 96 }
    {
        self.list.as_slice()
    }

    pub(crate) fn len(&self) -> usize
        ensures is { result ≡ length self.now }
        ensures short { length self.now ≤ 96 }
    {
        self.list.len()
    }
}
