use mip_bcache::{Accepted, Cache};
use mip_nonce::Secrets;
use mip_rules_correspondent::Verdict;
use mip_tokens::Kbm;
use mip_verdict::{UpdateSeen, judge};
use mip_words::{Address, Moment, NodeId};

// An update with sequence 1 and lifetime 105 under nonces 0 of node 0 in life 0, whose key and authenticator
// another implementation made (Python's `hmac`, `hashlib` and the package `cryptography`).
#[test]
fn an_authentic_update_is_accepted(rt: HostRuntime) {
    let mut seed = [0; 32];
    for (place, byte) in seed.iter_mut().enumerate() {
        *byte = place as u8;
    }
    let secrets = Secrets::new(&seed, NodeId(0), 0);
    let home = Address(0x2001_0db8_0001_0000_0000_0000_0000_0077);
    let careof = Address(0x2001_0db8_0003_0000_0000_0000_0000_0077);
    let peer = Address(0x2001_0db8_0002_0000_0000_0000_0000_0002);
    let update = UpdateSeen {
        source: careof,
        home: Some(home),
        message: b"\x3b\x03\x05\x00\xab\xcd\x00\x01\x80\x00\x00\x69\x04\x04\x00\x00\x00\x00\x05\x0c\xe9\x33\x1a\x17\x43\x9b\xb5\x89\x77\x23\x65\xdb",
    };
    let cache = Cache::with_limit(rt.alloc(), 4, 1).expect(&rt, "memory");
    let verdict = judge(Moment(1_000), &secrets, &cache, peer, &update);
    let accepted = Accepted {
        careof,
        sequence: 1,
        end: Moment(421_000),
        home_nonce: 0,
        careof_nonce: Some(0),
    };
    let kbm = Kbm(
        *b"\x67\x5e\xf4\xdb\xe6\xd7\x63\x48\x37\x56\xde\xa1\x2b\x8d\x76\x28\xa9\x10\xf6\xc9",
    );
    assert!(rt;
        verdict
            == Verdict::Accept {
                home,
                number: 0,
                accepted,
                granted: 105,
                kbm,
            }
    );
}
