//! Texts that only a user of the libraries asks for.

use super::given::HANDOVER;
use mip_config::read_config;
use mip_config_writing::write_config;
use mip_make::summary;
use mip_replay::replay;
use mip_replies::Status;
use mip_schedule::read_schedule;
use mip_top::{Output, mip_in_memory};
use mip_words::{Bytes, Memory};
use std::alloc::Global;
use std::test::Fail;

/// An agent, and a mobile that finds one, with each kind of line that they may have.
const AGENT: &[u8] =
    b"mip 1\nseed 000102030405060708090a0b0c0d0e0f101112131415161718191a1b1c1d1e1f\nself 0\nport 9001\nroute 20010db800030000 9003\ndefault 9000\nagent 20010db8000100000000000000000001 10 1800 16\nserve 20010db8000100000000000000000077\n";

const MOBILE: &[u8] =
    b"mip 1\nseed 000102030405060708090a0b0c0d0e0f101112131415161718191a1b1c1d1e1f\nself 2\nport 9003\nmobile 20010db8000100000000000000000077 find\npayload 2 20010db8000200000000000000000002 253 bb\n";

/// The text of a configuration, read and written.
fn written(alloc: Global, text: &[u8]) -> Result<Bytes, Fail> {
    if text.len() > 1_000 {
        return Err("a long text".into());
    }
    let config = read_config(alloc, text)?;
    Ok(write_config(alloc, &config)?)
}

#[test]
fn a_configuration_is_written_as_it_was_read(rt: HostRuntime) -> Result<(), Fail> {
    let agent = written(rt.alloc(), AGENT)?;
    let mobile = written(rt.alloc(), MOBILE)?;
    assert_eq!(rt; agent.as_slice(), AGENT);
    assert_eq!(rt; mobile.as_slice(), MOBILE);
    Ok(())
}

const SUMMARY: &[u8] =
    b"events 9\nentries 47\nsent 14\nhanded 14\nup 3\naccepted 1\ndenied 0\ndropped 0\nforged 0\n";

/// The summary of the run of the handover.
fn summed(alloc: Global) -> Result<Bytes, Fail> {
    let schedule = read_schedule(alloc, HANDOVER)?;
    let history = replay(alloc, &schedule)?;
    Ok(summary(alloc, &schedule, &history)?)
}

#[test]
fn a_run_has_its_summary(rt: HostRuntime) -> Result<(), Fail> {
    let text = summed(rt.alloc())?;
    assert_eq!(rt; text.as_slice(), SUMMARY);
    Ok(())
}

/// What the program answers to a word.
fn answered(alloc: Global, word: &str, input: &[u8]) -> Result<Output, Memory> {
    let mut words = Vec::new(alloc);
    words.push(String::from_str(alloc, word)?)?;
    mip_in_memory(alloc, &words, input)
}

#[test]
fn the_program_answers_in_memory(rt: HostRuntime) -> Result<(), Fail> {
    let output = answered(rt.alloc(), "decode", b"")?;
    assert_eq!(rt; output.status, Status::NOT_A_PACKET);
    assert_eq!(rt; output.text.as_slice(), b"drop short\n".as_slice());
    Ok(())
}
