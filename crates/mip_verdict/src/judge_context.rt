ghost use Rattle.std.specs.Prelude.{◌≤◌, ◌<◌, ◌^◌};

use mip_bcache::Cache;
use mip_nonce::Secrets;
use mip_words::{Address, Moment};

/// Who judges an update, when, and over which binding cache. The moment is no earlier than the last change of the cache, and far
/// from the last one that there is.
#[derive(Clone, Copy)]
pub struct JudgeContext<'a> {
    pub own: Address,
    pub secrets: &'a Secrets,
    pub moment: Moment,
    pub cache: &'a Cache,
    ghost early: { moment.0 < 2 ^ 62 },
    ghost later: { cache.now.last ≤ moment.0 },
}
