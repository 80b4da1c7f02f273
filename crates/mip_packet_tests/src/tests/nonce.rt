use mip_nonce::{Secrets, by_index};
use mip_words::{Moment, NodeId};

// A life with its first number and one with the last number of all, as another implementation of
// ChaCha20 (the Python package `cryptography`) gives them.
#[test]
fn secrets_of_two_lives(rt: HostRuntime) {
    let mut seed = [0; 32];
    for (place, byte) in seed.iter_mut().enumerate() {
        *byte = place as u8;
    }
    let first = Secrets::new(&seed, NodeId(0), 0);
    assert_eq!(rt;
        first.kcn().bytes(),
        *b"\x7d\x2b\xfd\x39\x6a\x19\xc5\xd9\x77\x03\xbd\x8d\x49\x4a\xdc\xb8\x6f\xd8\x35\x8a"
    );
    assert_eq!(rt; first.nonce(0), *b"\x02\xf1\xa4\x2f\x89\x8e\x80\x50");
    assert_eq!(rt; first.cookie(0).0, 0xd175_b254_17d8_654c);
    let last = Secrets::new(&seed, NodeId(255), u32::MAX);
    assert_eq!(rt;
        last.kcn().bytes(),
        *b"\xe1\x6d\xe2\xf1\x8e\xa7\xde\x21\x96\xb5\x39\x5c\x08\x23\xd7\xa5\x65\xd9\x69\x50"
    );
    assert_eq!(rt; last.nonce(u64::MAX), *b"\x63\x64\x28\xf1\xd0\xc2\x0f\x50");
    assert_eq!(rt; last.cookie(u64::MAX).0, 0x1742_2189_ecd8_af84);
}

// The newest nonce is number 65540 here: the index 65532 names none, and 65533 the oldest valid one.
#[test]
fn eight_nonces_are_valid(rt: HostRuntime) {
    let now = Moment(65_540 * 30_000);
    for (index, number) in [
        (65_532, None),
        (65_533, Some(65_533)),
        (4, Some(65_540)),
        (5, None),
    ] {
        assert_eq!(rt; by_index(now, index), number);
    }
}
