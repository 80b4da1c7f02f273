ghost use Rattle.std.specs.Prelude.{◌≡◌, IfOk, Some, option_map};
ghost use Rattle.mip_packets.specs.Says.{carried};
ghost use Rattle.mip_afresh_marks.specs.Sighting.{post_of, post_told};

use crate::said::Said;
use mip_entries::Entry;
use mip_provenance::Maker;
use mip_words::{Bytes, Memory};
use std::alloc::Global;

/// A packet that was posted: who posted it, and what it says.
#[derive(Drop)]
pub struct Post {
    pub maker: Maker,
    pub said: Said,
}

impl Post {
    /// The packet that an entry posts.
    pub fn by(alloc: Global, entry: &Entry) -> Result<Option<Post>, Memory>
        ensures { IfOk result (λ o. option_map post_of o ≡ post_told entry.now) }
    {
        match entry {
            Entry::Sent { node, packet, .. } => posted(alloc, Maker::Node(*node), packet),
            Entry::Injected {
                outsider,
                packet,
                ..
            } => posted(alloc, Maker::Outsider(*outsider), packet),
            _ => Ok(None),
        }
    }
}

fn posted(alloc: Global, maker: Maker, packet: &Bytes) -> Result<Option<Post>, Memory>
    ensures { IfOk result (λ o. option_map post_of o ≡ Some (record { maker = maker; carried = carried packet.now })) }
{
    let said = Said::by(alloc, packet.as_slice())?;
    Ok(Some(Post { maker, said }))
}
