//! Packets by their numbers.

ghost use Rattle.std.specs.Prelude.{◌≡◌, option_map};
ghost use Rattle.mip_packets.specs.Says.{key_of};
ghost use Rattle.mip_afresh_marks.specs.Sighting.{post_numbered, token_numbered, key_numbered};

use crate::post::Post;
use mip_packets::UpdateIdentity;
use mip_provenance::Maker;
use mip_words::Token;

/// Who posted a packet.
pub(crate) fn maker(posts: &[Post], number: u64) -> Option<Maker>
    ensures { result ≡ option_map (λ p. p.maker) (post_numbered posts.now number) }
{
    match posts.get(number as usize) {
        Some(post) => Some(post.maker),
        None => None,
    }
}

/// The token of a packet, where it is a test.
pub(crate) fn token(posts: &[Post], number: u64) -> Option<Token>
    ensures { option_map (λ t. t.0) result ≡ token_numbered posts.now number }
{
    match posts.get(number as usize) {
        Some(post) => post.said.token(),
        None => None,
    }
}

/// The update in a packet.
pub(crate) fn key(posts: &[Post], number: u64) -> Option<UpdateIdentity<'_>>
    ensures { option_map key_of result ≡ key_numbered posts.now number }
{
    match posts.get(number as usize) {
        Some(post) => post.said.key(),
        None => None,
    }
}
