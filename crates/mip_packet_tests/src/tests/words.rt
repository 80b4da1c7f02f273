use mip_words::{Address, Bytes, Prefix, after, put_hex, u16_bytes, u32_bytes};
use std::test::Fail;

#[test]
fn addresses_and_sequences(rt: HostRuntime) -> Result<(), Fail> {
    let home = Address::read(b"20010db8000100000000000000000077")?;
    assert_eq!(rt; home.prefix(), Prefix(0x2001_0db8_0001_0000));
    assert_eq!(rt; home.prefix().join(0x77), home);
    assert_eq!(rt;
        home.digits().as_slice(),
        b"20010db8000100000000000000000077".as_slice()
    );
    assert_eq!(rt;
        home.prefix().anycast().digits().as_slice(),
        b"20010db800010000fdfffffffffffffe".as_slice()
    );
    assert_eq!(rt; home.bytes()[15], 0x77);
    assert!(rt; Address::read(b"20010DB8000100000000000000000077").is_err());
    for (digits, routable) in [
        (b"20010db8000100000000000000000077", true),
        (b"00000000000000000000000000000001", false),
        (b"ff020000000000000000000000000001", false),
        (b"febf0000000000000000000000000001", false),
        (b"fec00000000000000000000000000001", true),
    ] {
        assert_eq!(rt; Address::read(digits)?.routable(), routable);
    }
    for (new, last, want) in [
        (6, 5, true),
        (5, 5, false),
        (0, 65535, true),
        (32783, 15, false),
        (32782, 15, true),
    ] {
        assert_eq!(rt; after(new, last), want);
    }
    Ok(())
}

#[test]
fn byte_lists(rt: HostRuntime) -> Result<(), Fail> {
    let mut bytes = Bytes::copy(rt.alloc(), &u32_bytes(0x0102_0304))?;
    bytes.extend(&u16_bytes(5))?;
    assert_eq!(rt; bytes.as_slice(), [1, 2, 3, 4, 0, 5].as_slice());
    let mut digits = Bytes::new(rt.alloc());
    put_hex(&mut digits, bytes.as_slice())?;
    assert_eq!(rt; digits.as_slice(), b"010203040005".as_slice());
    Ok(())
}

// Digits of more bytes than one piece holds.
#[test]
fn digits_in_pieces(rt: HostRuntime) -> Result<(), Fail> {
    let mut digits = Bytes::with_capacity(rt.alloc(), 260)?;
    put_hex(&mut digits, &[0xa5; 130])?;
    assert_eq!(rt; digits.len(), 260);
    digits.set(259, b'0');
    assert_eq!(rt; digits.as_slice()[255..], b"5a5a0"[..]);
    digits.clear();
    assert!(rt; digits.is_empty());
    Ok(())
}
