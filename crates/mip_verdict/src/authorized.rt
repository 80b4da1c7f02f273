ghost use Rattle.std.specs.Prelude.{◌≤◌, length};

use crate::judge_context::JudgeContext;
use mip_reception::Registration;

/// An update with an authenticator, by what it asks and by its bytes; and who judges it.
#[derive(Clone, Copy)]
pub(crate) struct Authorized<'a> {
    pub judge: &'a JudgeContext<'a>,
    pub registration: &'a Registration,
    pub message: &'a [u8],
    ghost long: { 18 ≤ length message.now },
}
