//! Answers in words, a line each: a packet with its shield, and an entry as a trace has it.

use mip_entries::{Answer, Answers};
use mip_trace::write_entry;
use mip_words::{Address, Bytes, Memory, Shield, put_hex};
use std::alloc::Global;

fn put_address(line: &mut Bytes, address: Address) -> Result<(), Memory> {
    line.extend(&address.digits())
}

fn put_shield(line: &mut Bytes, shield: Option<Shield>) -> Result<(), Memory> {
    match shield {
        None => line.extend(b"send "),
        Some(Shield { from, to }) => {
            line.extend(b"shielded ")?;
            put_address(line, from)?;
            line.extend(b" ")?;
            put_address(line, to)?;
            line.extend(b" ")
        }
    }
}

/// The line of an answer, with its end.
fn line_of(alloc: Global, answer: &Answer) -> Result<Bytes, Memory> {
    let mut line = Bytes::new(alloc);
    match answer {
        Answer::Send { shield, packet } => {
            put_shield(&mut line, *shield)?;
            put_hex(&mut line, packet.as_slice())?;
            line.extend(b"\n")?;
        }
        Answer::Note(entry) => write_entry(alloc, &mut line, None, entry)?,
    }
    Ok(line)
}

/// Whether these are the lines of the answers, without their ends.
pub fn are_told(alloc: Global, answers: &Answers, lines: &[&str]) -> Result<bool, Memory> {
    let mut told = Bytes::new(alloc);
    for line in lines {
        told.extend(line.as_bytes())?;
        told.extend(b"\n")?;
    }
    let mut given = Bytes::new(alloc);
    for place in 0..answers.len() {
        if let Some(answer) = answers.at(place) {
            given.extend(line_of(alloc, answer)?.as_slice())?;
        }
    }
    Ok(given.as_slice() == told.as_slice())
}
