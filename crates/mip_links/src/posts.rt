ghost use Rattle.std.specs.Prelude.{◌≡◌, ◌+◌, ◌≤◌, [], ◌∷◌, ◌++◌, length, option_map, slice_get, slice_range, IfOk, IfSome, OnOk, OnErr};
ghost use Rattle.mip_links.specs.Kept.{end_before, post_of};

use crate::kept_post::KeptPost;
use crate::posted::Posted;
use crate::shields::Shields;
use mip_words::{LinkId, Memory, Shield};
use std::alloc::Global;
use std::marker::Model;

/// Room for the bytes of a packet, which most need not more of.
const ROOM: usize = 96;

/// Every packet ever posted. Their bytes stand one behind the other, so that no packet takes memory of its own.
#[derive(Drop)]
pub(crate) struct Posts {
    list: Vec<KeptPost>,
    shields: Shields,
    bytes: Vec<u8>,
}

impl Model for Posts {
    ghost use Rattle.std.specs.Prelude.{List};
    ghost use Rattle.mip_links.specs.Table.{Post};
    ghost use Rattle.mip_links.specs.Kept.{AreKept, posts_in};

    ghost Value = { List Post };

    ghost view = { λ p. posts_in p.bytes.items p.shields 0 p.list.items };

    ghost invariant = { λ p. AreKept p.bytes.items p.shields 0 p.list.items };
}

impl Posts {
    pub(crate) fn new(alloc: Global) -> Posts
        ensures { result ≡ [] }
    {
        Posts {
            list: Vec::new(alloc),
            shields: Shields::new(alloc),
            bytes: Vec::new(alloc),
        }
    }

    pub(crate) fn len(&self) -> usize
        ensures { result ≡ length self.now }
    {
        self.list.len()
    }

    /// Makes room for this many packets more.
    pub(crate) fn reserve(&mut self, more: usize) -> Result<(), Memory>
        ensures { self.new ≡ self.old }
    {
        self.list.reserve(more)?;
        self.bytes.reserve(more.saturating_mul(ROOM))?;
        Ok(())
    }

    /// Takes one more packet. Four GiB of bytes are the most, and one more counts as memory that is wanting.
    pub(crate) fn push(
        &mut self,
        from: LinkId,
        shield: Option<Shield>,
        packet: &[u8],
    ) -> Result<(), Memory>
        requires { 40 ≤ length packet.now }
        ensures ok { OnOk result (self.new ≡ self.old ++ record { from = from.0; shield = shield; packet = packet.now } ∷ []) }
        ensures err { OnErr result (self.new ≡ self.old) }
    {
        let end = end_behind(&self.bytes, packet)?;
        self.list.reserve(1)?;
        let flight = self.shields.keep(from, shield)?;
        self.bytes.extend_from_slice(packet)?;
        self.list.push_reserved(KeptPost { flight, end });
        Ok(())
    }

    /// The packet with this number.
    pub(crate) fn get(&self, number: usize) -> Option<Posted<'_>>
        ensures found { option_map post_of result ≡ slice_get self.now number }
        ensures whole { IfSome result (λ p. 40 ≤ length p.packet.now) }
    {
        match row(&self.list, number) {
            Some(post) => {
                let start = start_of(&self.list, number);
                Some(Posted {
                    flight: self.shields.flight(&post.flight),
                    packet: part(&self.bytes, start, post.end as usize),
                })
            }
            None => None,
        }
    }
}

fn row(posts: &[KeptPost], number: usize) -> Option<KeptPost>
    ensures { result ≡ slice_get posts.now number }
{
    posts.get(number).copied()
}

/// The bytes of a packet among those of all.
fn part(bytes: &[u8], start: usize, end: usize) -> &[u8]
    requires some { start + 40 ≤ end }
    requires within { end ≤ length bytes.now }
    ensures is { result.now ≡ slice_range bytes.now start end }
    ensures whole { 40 ≤ length result.now }
{
    &bytes[start..end]
}

/// Where the bytes of a packet will end behind these.
fn end_behind(bytes: &[u8], packet: &[u8]) -> Result<u32, Memory>
    ensures { IfOk result (λ end. end ≡ length bytes.now + length packet.now) }
{
    match u32::try_from(bytes.len() + packet.len()) {
        Ok(end) => Ok(end),
        Err(_) => Err(Memory),
    }
}

/// Where the bytes of a packet begin: where those of the packet before end.
fn start_of(posts: &[KeptPost], number: usize) -> usize
    ensures { result ≡ end_before posts.now number }
{
    if number == 0 {
        return 0;
    }
    match posts.get(number - 1) {
        Some(before) => before.end as usize,
        None => 0,
    }
}
