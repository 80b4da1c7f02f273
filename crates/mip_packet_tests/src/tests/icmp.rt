use mip_icmp::{Icmp, PlainIcmp, read_icmp, write_icmp};
use mip_words::Address;
use std::test::Fail;

const SOURCE: Address = Address(0xff39_e500_4cab_d674_dc64_a9cf_c8cd_8bc7);

const AGENTS: Address = Address(0x2001_0db8_0001_0000_fdff_ffff_ffff_fffe);

/// An advertisement that another tool made: options 7, 3 and 1.
const ADVERTISEMENT: [u8; 64] = [
    0x86, 0x00, 0xf9, 0xc6, 0xff, 0xb1, 0xfe, 0x13, 0x00, 0x00, 0x00, 0x00, 0xaf, 0x87, 0x23, 0x35,
    0x07, 0x01, 0x42, 0x86, 0xc4, 0x19, 0x91, 0x03, 0x03, 0x04, 0x80, 0xcb, 0x98, 0x00, 0xe5, 0x8e,
    0xc6, 0xd1, 0x39, 0x08, 0x00, 0x00, 0x00, 0x00, 0x20, 0x01, 0x0d, 0xb8, 0xbc, 0xe3, 0xbc, 0x56,
    0xa9, 0x68, 0x2b, 0xe1, 0xca, 0x2e, 0xb8, 0x11, 0x01, 0x01, 0x02, 0x00, 0x00, 0x00, 0x00, 0x01,
];

#[test]
fn reads_an_advertisement(rt: HostRuntime) -> Result<(), Fail> {
    let message = read_icmp(SOURCE, AGENTS, &ADVERTISEMENT)?;
    let Icmp::Advertisement {
        hop,
        agent,
        life,
        options,
    } = message
    else {
        return Err("no advertisement".into());
    };
    assert_eq!(rt; (hop, agent, life), (0xff, true, 0xfe13));
    assert_eq!(rt; options.interval, Some(0xc419_9103));
    let prefix = options.prefix.ok_or("no prefix")?;
    assert_eq!(rt; (prefix.length, prefix.flags), (128, 0xcb));
    assert_eq!(rt; options.agent, None);
    Ok(())
}

#[test]
fn writes_a_request(rt: HostRuntime) -> Result<(), Fail> {
    let peer = Address(0x2001_0db8_9783_4482_4253_74af_9b05_3e19);
    let request = PlainIcmp::DiscoverAsk { identifier: 0x16b1 };
    let bytes = write_icmp(rt.alloc(), AGENTS, peer, &request)?;
    assert_eq!(rt;
        bytes.as_slice(),
        [0x90, 0x00, 0x93, 0x72, 0x16, 0xb1, 0x00, 0x00].as_slice()
    );
    Ok(())
}
