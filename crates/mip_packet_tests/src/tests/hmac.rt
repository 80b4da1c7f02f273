use mip_tokens::hmac;

// RFC 2202 section 3, each text cut in two at every place.
#[test]
fn vectors_cut_anywhere(rt: HostRuntime) {
    let vectors: [(&[u8], &[u8], &[u8; 20]); 4] = [
        (
            &[0x0b; 20],
            b"Hi There",
            b"\xb6\x17\x31\x86\x55\x05\x72\x64\xe2\x8b\xc0\xb6\xfb\x37\x8c\x8e\xf1\x46\xbe\x00",
        ),
        (
            b"Jefe",
            b"what do ya want for nothing?",
            b"\xef\xfc\xdf\x6a\xe5\xeb\x2f\xa2\xd2\x74\x16\xd5\xf1\x84\xdf\x9c\x25\x9a\x7c\x79",
        ),
        (
            &[0xaa; 20],
            &[0xdd; 50],
            b"\x12\x5d\x73\x42\xb9\xac\x11\xcd\x91\xa3\x9a\xf4\x8a\xa1\x7b\x4f\x63\xf1\x75\xd3",
        ),
        (
            &[0xaa; 80],
            b"Test Using Larger Than Block-Size Key - Hash Key First",
            b"\xaa\x4a\xe5\xe1\x52\x72\xd0\x0e\x95\x70\x56\x37\xce\x8a\x3b\x55\xed\x40\x21\x12",
        ),
    ];
    for (key, text, digest) in vectors {
        for cut in 0..=text.len() {
            assert_eq!(rt; hmac(key, &text[..cut], &text[cut..]), *digest);
        }
    }
}
