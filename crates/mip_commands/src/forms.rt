//! The forms of words, as clap knows them.

ghost use Rattle.std.specs.Prelude.{◌≡◌, IfOk, false};
ghost use Rattle.clap.specs.Words.{app_of};
ghost use Rattle.clap.specs.declared.builder.Command.TheViews.{out-Command as fields_of};
ghost use Rattle.mip_commands.specs.Forms as specs;

use clap::{Arg, Command};
use std::alloc::{AllocError, Global};

/// The forms: `replay`, `decode`, `claims`, `claims ADDRESS`, `audit`, `make SEED COUNT`, `sum SEED COUNT`, `node TURNS` and `hub TURNS`.
pub fn forms<'a>(alloc: Global) -> Result<Command<'a>, AllocError>
    ensures { IfOk result (λ command. app_of command ≡ specs.forms) }
{
    readers(alloc)?
        .subcommand(drafted(alloc, "make")?)?
        .subcommand(drafted(alloc, "sum")?)?
        .subcommand(turned(alloc, "node")?)?
        .subcommand(turned(alloc, "hub")?)
}

/// The forms that read a schedule or a packet.
fn readers<'a>(alloc: Global) -> Result<Command<'a>, AllocError>
    ensures app { IfOk result (λ command. app_of command ≡ specs.readers) }
    ensures local { IfOk result (λ command. (fields_of command).has_globals ≡ false) }
{
    top(alloc)
        .subcommand(Command::new(alloc, "replay"))?
        .subcommand(Command::new(alloc, "decode"))?
        .subcommand(asking(alloc, "claims")?)?
        .subcommand(Command::new(alloc, "audit"))
}

/// The program without its subcommands. It has no help, since a word of help is none of the forms.
fn top<'a>(alloc: Global) -> Command<'a>
    ensures app { app_of result ≡ specs.top }
    ensures local { (fields_of result).has_globals ≡ false }
{
    Command::new(alloc, "mip")
        .no_binary_name(true)
        .subcommand_required(true)
        .disable_help_flag(true)
        .disable_help_subcommand(true)
}

/// A subcommand that may have an address.
fn asking<'a>(alloc: Global, name: &'a str) -> Result<Command<'a>, AllocError>
    ensures app { IfOk result (λ command. app_of command ≡ specs.asking name.now) }
    ensures local { IfOk result (λ command. (fields_of command).has_globals ≡ false) }
{
    Command::new(alloc, name).arg(Arg::new(alloc, "address"))
}

/// A subcommand with a seed and a count.
fn drafted<'a>(alloc: Global, name: &'a str) -> Result<Command<'a>, AllocError>
    ensures app { IfOk result (λ command. app_of command ≡ specs.drafted name.now) }
    ensures local { IfOk result (λ command. (fields_of command).has_globals ≡ false) }
{
    Command::new(alloc, name)
        .arg(Arg::new(alloc, "seed").required(true))?
        .arg(Arg::new(alloc, "count").required(true))
}

/// A subcommand with a number of turns.
fn turned<'a>(alloc: Global, name: &'a str) -> Result<Command<'a>, AllocError>
    ensures app { IfOk result (λ command. app_of command ≡ specs.turned name.now) }
    ensures local { IfOk result (λ command. (fields_of command).has_globals ≡ false) }
{
    Command::new(alloc, name).arg(Arg::new(alloc, "turns").required(true))
}
