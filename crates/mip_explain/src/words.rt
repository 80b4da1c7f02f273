//! The words of what was refused.

ghost use Rattle.std.specs.Prelude.{◌≡◌};
ghost use Rattle.mip_mobhdr.specs.Said.{said};
ghost use Rattle.mip_explain.specs.Words.{refusal_word, fault_word, message_word};

use mip_ipv6::NotPacket;
use mip_mobhdr::{Fault, Message};

/// The word for why bytes are no packet.
pub fn refusal_word(refusal: NotPacket) -> &'static [u8]
    ensures { result.now ≡ refusal_word refusal }
{
    match refusal {
        NotPacket::Short => b"short",
        NotPacket::Version => b"version",
        NotPacket::Length => b"length",
        NotPacket::Header(_) => b"header",
        NotPacket::Route => b"route",
        NotPacket::Option(_) => b"option",
    }
}

/// The word for why a mobility message is refused.
pub fn fault_word(fault: Fault) -> &'static [u8]
    ensures { result.now ≡ fault_word fault }
{
    match fault {
        Fault::Size => b"size",
        Fault::Checksum => b"checksum",
        Fault::Unknown(_) => b"type",
        Fault::Proto => b"proto",
        Fault::HeaderLen => b"headerlen",
        Fault::Option { .. } => b"moption",
    }
}

/// The word for the kind of a mobility message.
pub fn message_word(message: &Message) -> &'static [u8]
    ensures { result.now ≡ message_word (said message.now) }
{
    match message {
        Message::Refresh { .. } => b"brr",
        Message::HomeInit { .. } => b"hoti",
        Message::CareofInit { .. } => b"coti",
        Message::HomeTest { .. } => b"hot",
        Message::CareofTest { .. } => b"cot",
        Message::Update { .. } => b"bu",
        Message::Acknowledgement { .. } => b"ba",
        Message::Error { .. } => b"be",
    }
}
