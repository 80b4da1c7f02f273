use mip_tokens::{
    Kbm, PreparedKbm, PreparedKey, authentic, authenticator, careof_token, home_token,
};
use mip_words::Address;

// The values of another implementation (Python's `hmac` and `hashlib`), for Kcn and nonce 0 of node 0 in
// life 0 under the seed 00 01 .. 1f: an update with sequence 1 and lifetime 105.
#[test]
fn tokens_keys_and_authenticators(rt: HostRuntime) {
    let kcn = PreparedKey::new(
        b"\x7d\x2b\xfd\x39\x6a\x19\xc5\xd9\x77\x03\xbd\x8d\x49\x4a\xdc\xb8\x6f\xd8\x35\x8a",
    );
    let nonce = b"\x02\xf1\xa4\x2f\x89\x8e\x80\x50";
    let home = Address(0x2001_0db8_0001_0000_0000_0000_0000_0077);
    let careof = Address(0x2001_0db8_0003_0000_0000_0000_0000_0077);
    let peer = Address(0x2001_0db8_0002_0000_0000_0000_0000_0002);
    let home_token = home_token(&kcn, home, nonce);
    assert_eq!(rt; home_token.0, *b"\x1e\x89\x69\x19\x00\x48\xc3\x56");
    let careof_token = careof_token(&kcn, careof, nonce);
    assert_eq!(rt; careof_token.0, *b"\xed\x2a\xbd\x49\x20\x37\xc3\xa2");
    let both = Kbm::both(home_token, careof_token);
    assert_eq!(rt;
        both.0,
        *b"\x67\x5e\xf4\xdb\xe6\xd7\x63\x48\x37\x56\xde\xa1\x2b\x8d\x76\x28\xa9\x10\xf6\xc9"
    );
    let update =
        b"\x3b\x03\x05\x00\xab\xcd\x00\x01\x80\x00\x00\x69\x04\x04\x00\x00\x00\x00\x05\x0c\xe9\x33\x1a\x17\x43\x9b\xb5\x89\x77\x23\x65\xdb";
    let both = PreparedKbm::new(both);
    assert!(rt; authentic(&both, careof, peer, update));
    assert!(rt; !authentic(&both, home, peer, update));
    let deleting = PreparedKbm::new(Kbm::home(home_token));
    let deleting = authenticator(&deleting, home, peer, update);
    assert_eq!(rt;
        deleting,
        *b"\xff\xc7\x2f\x97\x19\xc8\xd5\xc7\x76\x00\xad\xab"
    );
}
