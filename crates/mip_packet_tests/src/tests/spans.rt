//! Where the options of each message begin, at one message of each type.

use mip_mobhdr::{Message, Options, read_message};
use mip_words::Address;

const HOME: Address = Address(0x20010db8000100000000000000000077);

const PEER: Address = Address(0x20010db8000200000000000000000002);

/// A message of each type between the two, and the place of its options (RFC 6275 sections 6.1.2 to 6.1.9).
const MESSAGES: [(&[u8], usize); 8] = [
    (b"\x3b\x00\x00\x00\x68\x82\x00\x00", 8),
    (
        b"\x3b\x01\x01\x00\x57\x65\x00\x00\x01\x02\x03\x04\x05\x06\x07\x08",
        16,
    ),
    (
        b"\x3b\x01\x02\x00\x56\x65\x00\x00\x01\x02\x03\x04\x05\x06\x07\x08",
        16,
    ),
    (
        b"\x3b\x02\x03\x00\x0a\x14\x00\x07\x01\x02\x03\x04\x05\x06\x07\x08\x1e\x89\x69\x19\x00\x48\xc3\x56",
        24,
    ),
    (
        b"\x3b\x02\x04\x00\x09\x1b\xff\xff\x01\x02\x03\x04\x05\x06\x07\x08\x1e\x89\x69\x19\x00\x48\xc3\x56",
        24,
    ),
    (
        b"\x3b\x06\x05\x00\x18\x41\x02\x01\xf0\x00\x00\x69\x04\x04\x00\x03\x00\x04\x00\x00\x00\x00\x03\x10\x20\x01\x0d\xb8\x00\x03\x00\x00\x00\x00\x00\x00\x00\x00\x00\x99\x00\x00\x05\x0c\x00\x01\x02\x03\x04\x05\x06\x07\x08\x09\x0a\x0b",
        12,
    ),
    (
        b"\x3b\x03\x06\x00\xb3\x3b\x87\x80\x02\x01\x00\x69\x02\x02\x00\x0f\x00\x00\x05\x0c\x00\x01\x02\x03\x04\x05\x06\x07\x08\x09\x0a\x0b",
        12,
    ),
    (
        b"\x3b\x02\x07\x00\x32\x3f\x01\x00\x20\x01\x0d\xb8\x00\x01\x00\x00\x00\x00\x00\x00\x00\x00\x00\x77",
        24,
    ),
];

#[test]
fn options_span_the_rest_of_their_message(rt: HostRuntime) {
    for (body, at) in MESSAGES {
        let Ok(message) = read_message(HOME, PEER, body) else {
            panic!(rt; "refused");
        };
        assert!(rt; body.get(at..) == Some(options_of(&message).span));
    }
}

fn options_of<'a>(message: &Message<'a>) -> Options<'a> {
    match message {
        Message::Refresh { options }
        | Message::HomeInit { options, .. }
        | Message::CareofInit { options, .. }
        | Message::HomeTest { options, .. }
        | Message::CareofTest { options, .. }
        | Message::Update { options, .. }
        | Message::Acknowledgement { options, .. }
        | Message::Error { options, .. } => *options,
    }
}
