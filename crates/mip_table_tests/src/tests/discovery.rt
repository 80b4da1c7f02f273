use mip_discovery::Agents;
use mip_words::{Address, Moment};
use std::test::Fail;

const AGENT: Address = Address(0x2001_0db8_0001_0000_0000_0000_0000_0001);

const OTHER: Address = Address(0x2001_0db8_0001_0000_0000_0000_0000_0003);

const CAREOF: Address = Address(0x2001_0db8_0003_0000_0000_0000_0000_0077);

// The body's first eight bytes, with their checksum, are from outside.
#[test]
fn a_reply_names_the_answering_agent_and_those_heard(rt: HostRuntime) -> Result<(), Fail> {
    let mut agents = Agents::new(rt.alloc())?;
    let alone = agents.answer_discovery(rt.alloc(), Moment(0), AGENT, 10, CAREOF, 1)?;
    assert_eq!(rt;
        alone.as_slice().get(40..48),
        Some(b"\x91\x00\xe5\x02\x00\x01\x00\x00".as_slice())
    );
    assert_eq!(rt; alone.as_slice().get(48..), Some(AGENT.bytes().as_slice()));

    agents.heard(Moment(0), OTHER, 20, 1800)?;
    assert_eq!(rt; agents.live(Moment(1_799_999), 0), Some(OTHER));
    assert_eq!(rt; agents.live(Moment(1_800_000), 0), None);
    Ok(())
}
