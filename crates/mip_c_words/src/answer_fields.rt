ghost use Rattle.std.specs.Prelude.{◌≡◌};
ghost use Rattle.mip_c_words.specs.Answered.{blank, entry_fields, sent_fields, fields_of, entry_bytes, bytes_of};

use crate::answer_kind::{
    ACCEPTED, CLAIMED, DENIED, DROPPED, HOME, IDLE, OTHER, RELEASED, SEND, UP,
};
use crate::why_number::why_number;
use mip_entries::{Answer, Entry};
use mip_words::Shield;

/// An answer of a node. A field that its kind does not name is 0.
#[repr(C)]
#[derive(Clone, Copy)]
pub struct AnswerFields {
    /// What it is: a number of `enum mip_answer_kind`, which names the fields.
    pub kind: u8,
    /// The number of the packet, as it was given.
    pub number: u64,
    /// The home address of an update or of a registration, or the address that an agent claims or gives up.
    pub home: [u8; 16],
    /// The binding number; 0 where a home has one binding.
    pub binding: u8,
    /// The care-of address of an update or of a registration; the home address where it deletes the binding.
    pub careof: [u8; 16],
    /// The sequence number of an update or of a registration.
    pub sequence: u16,
    /// The end of the binding or of the registration, in milliseconds.
    pub end: u64,
    /// The home nonce index.
    pub home_index: u16,
    /// Whether there is a care-of nonce index: an update that deletes has none.
    pub has_careof_index: bool,
    pub careof_index: u16,
    /// The status of the acknowledgement.
    pub status: u8,
    /// Why: a number of `enum mip_why`.
    pub why: u8,
    /// Whether a packet that is sent is to be protected (RFC 6275 section 5.1), between `source` and `destination`.
    pub is_shielded: bool,
    /// Whom data is from, a home address where there is one; who protects a packet.
    pub source: [u8; 16],
    /// Whom data is for, a home address where there is one; whom a packet is protected for.
    pub destination: [u8; 16],
    /// The protocol of data.
    pub proto: u8,
}

/// An answer of this kind and zeros.
fn blank(kind: u8) -> AnswerFields
    ensures { result ≡ blank kind }
{
    AnswerFields {
        kind,
        number: 0,
        home: [0; 16],
        binding: 0,
        careof: [0; 16],
        sequence: 0,
        end: 0,
        home_index: 0,
        has_careof_index: false,
        careof_index: 0,
        status: 0,
        why: 0,
        is_shielded: false,
        source: [0; 16],
        destination: [0; 16],
        proto: 0,
    }
}

/// The fields of an entry that a correspondent or a home agent leaves.
fn entry_fields(entry: &Entry) -> AnswerFields
    ensures { result ≡ entry_fields entry.now }
{
    match entry {
        Entry::Accepted {
            number,
            home,
            binding,
            careof,
            sequence,
            end,
            home_index,
            careof_index,
            ..
        } => AnswerFields {
            number: *number,
            home: home.bytes(),
            binding: *binding,
            careof: careof.bytes(),
            sequence: *sequence,
            end: end.0,
            home_index: *home_index,
            has_careof_index: careof_index.is_some(),
            careof_index: careof_index.unwrap_or(0),
            ..blank(ACCEPTED)
        },
        Entry::Denied { number, status, .. } => AnswerFields {
            number: *number,
            status: *status,
            ..blank(DENIED)
        },
        Entry::Dropped { number, why, .. } => AnswerFields {
            number: *number,
            why: why_number(*why),
            ..blank(DROPPED)
        },
        Entry::Up {
            number,
            source,
            destination,
            proto,
            ..
        } => AnswerFields {
            number: *number,
            source: source.bytes(),
            destination: destination.bytes(),
            proto: *proto,
            ..blank(UP)
        },
        Entry::Idle => blank(IDLE),
        Entry::Home {
            home,
            careof,
            sequence,
            end,
            ..
        } => AnswerFields {
            home: home.bytes(),
            careof: careof.bytes(),
            sequence: *sequence,
            end: end.0,
            ..blank(HOME)
        },
        Entry::Claimed { address, .. } => AnswerFields {
            home: address.bytes(),
            ..blank(CLAIMED)
        },
        Entry::Released { address, .. } => AnswerFields {
            home: address.bytes(),
            ..blank(RELEASED)
        },
        _ => blank(OTHER),
    }
}

/// The fields of a packet that is sent.
fn sent_fields(shield: &Option<Shield>) -> AnswerFields
    ensures { result ≡ sent_fields shield.now }
{
    match shield {
        Some(shield) => AnswerFields {
            is_shielded: true,
            source: shield.from.bytes(),
            destination: shield.to.bytes(),
            ..blank(SEND)
        },
        None => blank(SEND),
    }
}

/// The fields of an answer.
pub fn fields_of(answer: &Answer) -> AnswerFields
    ensures { result ≡ fields_of answer.now }
{
    match answer {
        Answer::Send { shield, .. } => sent_fields(shield),
        Answer::Note(entry) => entry_fields(entry),
    }
}

fn entry_bytes(entry: &Entry) -> &[u8]
    ensures { result.now ≡ entry_bytes entry.now }
{
    match entry {
        Entry::Up { payload, .. } => payload.as_slice(),
        _ => &[],
    }
}

/// The bytes of an answer: a packet that is sent, or a payload that is handed up.
pub fn bytes_of(answer: &Answer) -> &[u8]
    ensures { result.now ≡ bytes_of answer.now }
{
    match answer {
        Answer::Send { packet, .. } => packet.as_slice(),
        Answer::Note(entry) => entry_bytes(entry),
    }
}
