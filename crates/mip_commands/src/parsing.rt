//! The words of the command line, read.

ghost use Rattle.std.specs.Prelude.{◌≡◌, ◌≢◌, ◌≤◌, map, option_map, string_bytes, IfSome, IfOk, OnErr, None};
ghost use Rattle.std.specs.List.{list_any};
ghost use Rattle.clap.specs.Words.{subcommand_rows_of};
ghost use Rattle.mip_commands.specs.Commands as commands;
ghost use Rattle.mip_commands.specs.Forms as forms;

use crate::command::Command;
use crate::draft::Draft;
use crate::forms::forms;
use clap::ArgMatches;
use clap::error::ErrorKind;
use mip_lines::number;
use mip_words::{Address, Memory, hex_exact};
use std::alloc::Global;

/// The command of the words, if they are one of the forms.
pub fn parse(alloc: Global, words: &[String]) -> Result<Option<Command>, Memory>
    ensures command { IfOk result (λ command. command ≡ commands.command_of (map string_bytes words.now)) }
    ensures within { IfOk result (λ command. IfSome command commands.IsWithin) }
{
    if has_flag(words) {
        return Ok(None);
    }
    match forms(alloc)?.try_get_matches_from(words) {
        Ok(matches) => Ok(asked(&matches)),
        Err(error) => refused(error.kind()),
    }
}

/// Whether one of the words begins with a hyphen, as none of a form does.
fn has_flag(words: &[String]) -> bool
    ensures { result ≡ list_any (λ word. forms.is_flag (string_bytes word)) words.now }
{
    words.iter().any(|word| is_flag(word.as_str()))
}

fn is_flag(word: &str) -> bool
    ensures { result ≡ forms.is_flag word.now }
{
    word.as_bytes().first() == Some(&b'-')
}

/// What a parse that was refused comes to.
fn refused(kind: ErrorKind) -> Result<Option<Command>, Memory>
    ensures none { IfOk result (λ command. (kind ≢ ErrorKind.OutOfMemory) × (command ≡ None)) }
    ensures memory { OnErr result (kind ≡ ErrorKind.OutOfMemory) }
{
    match kind {
        ErrorKind::OutOfMemory => Err(Memory),
        _ => Ok(None),
    }
}

/// The command of the subcommand that a parse met.
fn asked(matches: &ArgMatches<'_>) -> Option<Command>
    ensures command { result ≡ forms.asked (subcommand_rows_of matches.now) }
    ensures within { IfSome result commands.IsWithin }
{
    let (name, given) = matches.subcommand()?;
    named(
        name,
        given.get_str("address"),
        given.get_str("seed"),
        given.get_str("count"),
        given.get_str("turns"),
    )
}

/// The command of a subcommand's name, by the arguments that it has.
fn named(
    name: &str,
    address: Option<&str>,
    seed: Option<&str>,
    count: Option<&str>,
    turns: Option<&str>,
) -> Option<Command>
    ensures command { result ≡ forms.named name.now (option_map (λ s. s.now) address.entry) (option_map (λ s. s.now) seed.entry)
        (option_map (λ s. s.now) count.entry) (option_map (λ s. s.now) turns.entry) }
    ensures within { IfSome result commands.IsWithin }
{
    if name == "replay" {
        Some(Command::Replay)
    } else if name == "decode" {
        Some(Command::Decode)
    } else if name == "claims" {
        claims(address)
    } else if name == "audit" {
        Some(Command::Audit)
    } else if name == "make" {
        Some(Command::Make(draft(seed, count)?))
    } else if name == "sum" {
        Some(Command::Sum(draft(seed, count)?))
    } else if name == "node" {
        Some(Command::Node(turns_of(turns)?))
    } else if name == "hub" {
        Some(Command::Hub(turns_of(turns)?))
    } else {
        None
    }
}

/// The claims, and the address that is asked for if there is one.
fn claims(address: Option<&str>) -> Option<Command>
    ensures command { result ≡ forms.claims (option_map (λ s. s.now) address.entry) }
    ensures within { IfSome result commands.IsWithin }
{
    match address {
        Some(address) => Some(Command::Claims(Some(address_in(address.as_bytes())?))),
        None => Some(Command::Claims(None)),
    }
}

#[tactic(auto, unfolding(crate::specs::Commands::address_in))]
fn address_in(word: &[u8]) -> Option<Address>
    ensures { result ≡ commands.address_in word.now }
{
    match Address::read(word) {
        Ok(address) => Some(address),
        Err(_) => None,
    }
}

fn seed_in(word: &[u8]) -> Option<[u8; 32]>
    ensures { result ≡ commands.seed_in word.now }
{
    let mut seed = [0; 32];
    if hex_exact(word, &mut seed) {
        Some(seed)
    } else {
        None
    }
}

fn count_in(word: &[u8]) -> Option<u32>
    ensures value { result ≡ commands.count_in word.now }
    ensures within { IfSome result (λ count. count ≤ 20000) }
{
    match number(1, 20_000, word) {
        Some(count) => Some(count as u32),
        None => None,
    }
}

fn turns_in(word: &[u8]) -> Option<u32>
    ensures value { result ≡ commands.turns_in word.now }
    ensures within { IfSome result (λ turns. (1 ≤ turns) × (turns ≤ 1000000)) }
{
    match number(1, 1_000_000, word) {
        Some(turns) => Some(turns as u32),
        None => None,
    }
}

/// What a schedule is made of.
fn draft(seed: Option<&str>, count: Option<&str>) -> Option<Draft>
    ensures draft { result ≡ forms.draft (option_map (λ s. s.now) seed.entry) (option_map (λ s. s.now) count.entry) }
    ensures within { IfSome result (λ draft. draft.count ≤ 20000) }
{
    let seed = seed_in(seed?.as_bytes())?;
    let count = count_in(count?.as_bytes())?;
    Some(Draft { seed, count })
}

fn turns_of(turns: Option<&str>) -> Option<u32>
    ensures turns { result ≡ forms.turns_of (option_map (λ s. s.now) turns.entry) }
    ensures within { IfSome result (λ turns. (1 ≤ turns) × (turns ≤ 1000000)) }
{
    turns_in(turns?.as_bytes())
}
