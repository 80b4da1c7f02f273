ghost use Rattle.std.specs.Prelude.{◌≡◌, ◌==◌, ◌+◌, ◌^◌, ◌<◌, ◌≤◌, ◌∷◌, ◌++◌, List, ℕ, [], length, take, drop, slice_set, IfOk, OnOk, OnErr};
ghost use Rattle.mip_words.specs.Numbers.{number_bytes};

use crate::memory::Memory;
use crate::numbers::u16_bytes;
use std::alloc::Global;
use std::marker::Model;

/// A list of bytes.
#[derive(Drop)]
pub struct Bytes {
    list: Vec<u8>,
}

impl Model for Bytes {
    ghost Value = { List ℕ };

    ghost view = { λ b. b.list.items };
}

impl Bytes {
    pub fn new(alloc: Global) -> Bytes
        ensures { result ≡ [] }
    {
        Bytes {
            list: Vec::new(alloc),
        }
    }

    /// An empty list with room for this many bytes.
    pub fn with_capacity(alloc: Global, capacity: usize) -> Result<Bytes, Memory>
        ensures { IfOk result (λ b. b ≡ []) }
    {
        let list = Vec::with_capacity(alloc, capacity)?;
        Ok(Bytes { list })
    }

    pub fn copy(alloc: Global, bytes: &[u8]) -> Result<Bytes, Memory>
        ensures { IfOk result (λ b. b ≡ bytes.now) }
    {
        let list = Vec::from_slice(alloc, bytes)?;
        Ok(Bytes { list })
    }

    /// The bytes of a list, which is taken over.
    pub fn from_vec(list: Vec<u8>) -> Bytes
        ensures { result ≡ list.items }
    {
        Bytes { list }
    }

    /// Appends a byte.
    pub fn push(&mut self, byte: u8) -> Result<(), Memory>
        ensures ok { OnOk result (self.new ≡ self.old ++ byte ∷ []) }
        ensures err { OnErr result (self.new ≡ self.old) }
    {
        self.list.push(byte)?;
        Ok(())
    }

    /// Appends these bytes.
    pub fn extend(&mut self, bytes: &[u8]) -> Result<(), Memory>
        ensures ok { OnOk result (self.new ≡ self.old ++ bytes.now) }
        ensures err { OnErr result (self.new ≡ self.old) }
    {
        self.list.extend_from_slice(bytes)?;
        Ok(())
    }

    /// Puts a byte in the place of the one that stands there.
    pub fn set(&mut self, place: usize, byte: u8)
        requires { place < length self.old }
        ensures { self.new ≡ slice_set self.old place byte }
    {
        self.list[place] = byte;
    }

    /// Puts a number in the place of the two bytes that stand there, its high byte first.
    pub fn set_u16(&mut self, place: usize, number: u16)
        requires within { place + 2 ≤ length self.old }
        requires early { place < 2 ^ 16 }
        ensures { self.new ≡ take place self.old ++ (number_bytes 2 number ++ drop (place + 2) self.old) }
    {
        let [high, low] = u16_bytes(number);
        self.set(place, high);
        self.set(place + 1, low);
    }

    /// Takes all bytes out. The room that they took stays for those to come.
    pub fn clear(&mut self)
        ensures { self.new ≡ [] }
    {
        self.list.clear();
    }

    pub fn as_slice(&self) -> &[u8]
        ensures { result.now ≡ self.now }
    {
        self.list.as_slice()
    }

    pub fn len(&self) -> usize
        ensures { result ≡ length self.now }
    {
        self.list.len()
    }

    pub fn is_empty(&self) -> bool
        ensures { result ≡ (length self.now == 0) }
    {
        self.list.is_empty()
    }
}
