use mip_mobhdr::{Indices, Message, OptionSet, Plain, read_message, write_message};
use mip_words::Address;
use std::test::Fail;

const HOME: Address = Address(0x20010db8000300000000000000000077);

const PEER: Address = Address(0x20010db8b2149482c3212014a3e5b00c);

/// A Binding Update of 56 bytes, its Header Len 6, made by another program.
const UPDATE: [u8; 56] = [
    0x3b, 0x06, 0x05, 0x00, 0x36, 0xe9, 0xa8, 0x54, 0x50, 0x00, 0xff, 0xff, 0x04, 0x04, 0x19, 0xde,
    0x60, 0x7d, 0x01, 0x02, 0x00, 0x00, 0x03, 0x10, 0x20, 0x01, 0x0d, 0xb8, 0x00, 0x03, 0x00, 0x00,
    0x00, 0x00, 0x00, 0x00, 0x00, 0x00, 0x00, 0x77, 0x01, 0x00, 0x05, 0x0c, 0x62, 0x4e, 0xce, 0x27,
    0x9a, 0x2c, 0x35, 0x6c, 0xc2, 0xe1, 0x3c, 0xaf,
];

const OPTIONS: OptionSet = OptionSet {
    advice: None,
    alternate: Some(HOME),
    nonces: Some(Indices {
        home: 6622,
        careof: 24701,
    }),
    number: None,
    authorization: Some([
        0x62, 0x4e, 0xce, 0x27, 0x9a, 0x2c, 0x35, 0x6c, 0xc2, 0xe1, 0x3c, 0xaf,
    ]),
};

#[test]
fn worked_update_is_read(rt: HostRuntime) {
    let Ok(
        Message::Update {
            sequence,
            home,
            local,
            lifetime,
            options,
            ..
        },
    ) = read_message(HOME, PEER, &UPDATE)
    else {
        panic!(rt; "refused");
    };
    assert!(rt; sequence == 43092 && home && !local && lifetime == 65535);
    assert!(rt; options.alternate == OPTIONS.alternate && options.nonces == OPTIONS.nonces);
    assert!(rt; options.authorization == OPTIONS.authorization && options.advice.is_none());
}

#[test]
fn worked_update_is_written(rt: HostRuntime) -> Result<(), Fail> {
    let update = Plain::Update {
        sequence: 43092,
        ack: false,
        home: true,
        local: false,
        key: true,
        lifetime: 65535,
        options: OPTIONS,
    };
    let bytes = write_message(rt.alloc(), HOME, PEER, &update)?;
    assert!(rt; bytes.as_slice() == &UPDATE[..]);
    Ok(())
}
