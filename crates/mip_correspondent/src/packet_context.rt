ghost use Rattle.std.specs.Prelude.{◌≤◌, ◌<◌, ◌^◌};

use mip_bcache::Cache;
use mip_rules_correspondent::Identity;
use mip_words::Moment;

/// The context of a packet: who takes it, the binding cache that it finds, the moment, and the packet's number. The moment is no
/// earlier than the last change of the cache, and far from the last one that there is.
#[derive(Clone, Copy)]
pub struct PacketContext<'a> {
    pub identity: &'a Identity,
    pub cache: &'a Cache,
    pub moment: Moment,
    pub number: u64,
    ghost early: { moment.0 < 2 ^ 62 },
    ghost later: { cache.now.last ≤ moment.0 },
}
