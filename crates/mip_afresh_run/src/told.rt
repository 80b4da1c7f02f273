ghost use Rattle.std.specs.Prelude.{◌≡◌, option_map};
ghost use Rattle.mip_packets.specs.Says.{carried, kind_of};
ghost use Rattle.mip_history.specs.Outsiders.{careof_told, test_in, told_by};
ghost use Rattle.mip_afresh_run.specs.Forged.{told_seen};

use mip_afresh::Telling;
use mip_packets::{Carried, TestKind, carried_in};
use mip_words::Token;

/// What a test says: its nonce index and its token.
#[derive(Clone, Copy)]
pub(crate) struct Told {
    pub index: u16,
    pub token: Token,
}

/// The test of this kind in a packet, through any depth of tunnels.
fn told_by(kind: TestKind, packet: &[u8]) -> Option<Told>
    ensures { option_map told_seen result ≡ told_by (kind_of kind) (carried packet.now) }
{
    match carried_in(packet) {
        Carried::Test {
            kind: of,
            index,
            token,
            ..
        } if of == kind => Some(Told { index, token }),
        _ => None,
    }
}

/// The test of this kind in a packet that was posted.
#[tactic(auto, using(crate::proofs::ForgingLaws::test_none, crate::proofs::ForgingLaws::test_some))]
pub(crate) fn test_in(telling: &Telling, kind: TestKind, number: u32) -> Option<Told>
    ensures { option_map told_seen result ≡ test_in (kind_of kind) telling.now.run.posts number }
{
    match telling.packet(u64::from(number)) {
        Some(packet) => told_by(kind, packet.bytes),
        None => None,
    }
}

/// The care-of test that an update names; one that ends a binding names none.
pub(crate) fn careof_told(telling: &Telling, number: Option<u32>) -> Option<Option<Told>>
    ensures { option_map (option_map told_seen) result ≡ careof_told telling.now.run.posts number }
{
    match number {
        Some(number) => {
            let told = test_in(telling, TestKind::Careof, number)?;
            Some(Some(told))
        }
        None => Some(None),
    }
}
