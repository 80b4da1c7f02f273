ghost use Rattle.std.specs.Prelude.{◌≡◌, ◌≤◌, length, IfOk, IfSome, Some};
ghost use Rattle.mip_lines.specs.HexFields.{hex_field};
ghost use Rattle.mip_schedule.specs.KeptBytes.{bytes_in, IsWithin};

use crate::kept_room::KeptRoom;
use mip_words::{Bytes, Memory, hex_exact};
use std::alloc::Global;
use std::marker::Model;

/// How many bytes stand in place.
const FEW: usize = 14;

/// Bytes in the room of two pointers, without memory of their own where they are few. Clauses see the bytes.
#[derive(Drop)]
pub struct KeptBytes {
    room: KeptRoom,
}

impl Model for KeptBytes {
    ghost use Rattle.std.specs.Prelude.{ℕ, List};
    ghost use Rattle.mip_schedule.specs.KeptBytes.{bytes_in, IsWithin};

    ghost Value = { List ℕ };

    ghost view = { λ k. bytes_in k.room };

    ghost invariant = { λ k. IsWithin k.room };
}

impl KeptBytes {
    pub fn copy(alloc: Global, bytes: &[u8]) -> Result<KeptBytes, Memory>
        ensures { IfOk result (λ k. k ≡ bytes.now) }
    {
        if bytes.len() <= FEW {
            return Ok(KeptBytes { room: few(bytes) });
        }
        let many = Bytes::copy(alloc, bytes)?;
        let room = KeptRoom::Many(Box::new(alloc, many)?);
        Ok(KeptBytes { room })
    }

    /// The bytes whose digits a field is, where there are some and they are few. Nothing is said of another field.
    #[tactic(auto, unfolding(mip_lines::specs::HexFields::hex_field), using(crate::proofs::KeptLaws::few_front))]
    pub(crate) fn of_few_digits(field: &[u8]) -> Option<KeptBytes>
        ensures { IfSome result (λ k. hex_field 512 field.now ≡ Some k) }
    {
        let size = field.len() / 2;
        if field.is_empty() || FEW < size || field == b"-".as_slice() {
            return None;
        }
        let mut bytes = [0; FEW];
        if !hex_exact(field, &mut bytes[..size]) {
            return None;
        }
        Some(KeptBytes {
            room: KeptRoom::Few {
                count: size as u8,
                bytes,
            },
        })
    }

    pub fn as_slice(&self) -> &[u8]
        ensures { result.now ≡ self.now }
    {
        match &self.room {
            KeptRoom::Few { count, bytes } => &bytes[..usize::from(*count)],
            KeptRoom::Many(bytes) => bytes.as_slice(),
        }
    }
}

/// Few bytes in place.
#[tactic(auto, using(crate::proofs::KeptLaws::few_front))]
fn few(bytes: &[u8]) -> KeptRoom
    requires { length bytes.now ≤ 14 }
    ensures is { bytes_in result ≡ bytes.now }
    ensures within { IsWithin result }
{
    let count = bytes.len();
    let mut room = [0; FEW];
    room[..count].copy_from_slice(bytes);
    KeptRoom::Few {
        count: count as u8,
        bytes: room,
    }
}
