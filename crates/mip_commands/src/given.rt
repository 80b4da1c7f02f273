//! The words that a program was started with.

ghost use Rattle.std.specs.Prelude.{◌≡◌, ◌≢◌, [], IfOk, OnErr, IsErr};
ghost use Rattle.std.specs.Vec.Iter.{into_iter_items};
ghost use Rattle.mip_commands.specs.Given.{words_behind, LacksMemory};

use mip_words::Memory;
use std::alloc::{AllocError, Global};
use std::env::Args;
use std::io::{ErrorKind, Result as IoResult};

/// The words behind the program's name. Where one of them is no text there are none, which is no form.
pub fn words(alloc: Global, all: IoResult<Args>) -> Result<Vec<String>, Memory>
    ensures words { IfOk result (λ words. words.items ≡ words_behind all) }
    ensures memory { LacksMemory all → IsErr result }
{
    match all {
        Ok(mut all) => {
            let _name = all.next();
            Ok(gathered(alloc, all)?)
        }
        Err(error) => no_words(alloc, error.kind()),
    }
}

/// The words that are left.
fn gathered(alloc: Global, left: Args) -> Result<Vec<String>, AllocError>
    ensures { IfOk result (λ words. words.items ≡ into_iter_items left) }
{
    left.collect(alloc)
}

/// What stands for words that could not be had.
fn no_words(alloc: Global, kind: ErrorKind) -> Result<Vec<String>, Memory>
    ensures none { IfOk result (λ words. (kind ≢ ErrorKind.OutOfMemory) × (words.items ≡ [])) }
    ensures memory { OnErr result (kind ≡ ErrorKind.OutOfMemory) }
{
    match kind {
        ErrorKind::OutOfMemory => Err(Memory),
        _ => Ok(Vec::new(alloc)),
    }
}
