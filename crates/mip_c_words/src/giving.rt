//! Texts, packets and messages that go into the caller's memory.

ghost use Rattle.std.specs.Prelude.{◌≡◌, ℕ, List, IfOk};
ghost use Rattle.mip_c_words.specs.Giving.{Tells, Writes};

use crate::status::{MEMORY, NO_ROOM};
use mip_words::{Bytes, Memory};

/// Tells a text with a status: writes it where it has room, and tells its size in any case.
pub fn tell(told: u32, text: &[u8], out: &mut [u8], size: &mut usize) -> u32
    ensures { Tells told text.now result out.old out.new size.new }
{
    *size = text.len();
    if out.len() < text.len() {
        return NO_ROOM;
    }
    out[..text.len()].copy_from_slice(text);
    told
}

/// Tells what was written, or that memory has run out.
pub fn give(written: Result<Bytes, Memory>, out: &mut [u8], size: &mut usize) -> u32
    ensures { (text : List ℕ) → IfOk written (λ w. w ≡ text) → Writes text result out.old out.new size.old size.new }
{
    match written {
        Ok(text) => tell(0, text.as_slice(), out, size),
        Err(Memory) => MEMORY,
    }
}
