ghost use Rattle.std.specs.Prelude.{◌≡◌, ◌+◌, ◌*◌, ◌<◌, ◌^◌};
ghost use Rattle.rand_chacha.specs.ChaCha.{key_of, word_at};
ghost use Rattle.mip_nonce.specs.Secrets.{stream_of, kcn_of, nonce_of, cookie_of, AreCookies};

use crate::cookie_row::ROW;
use mip_words::{Cookie, NodeId};
use rand_chacha::ChaCha20Rng;
use rand_core::SeedableRng;
use rand_core::utils::NextWord;
use std::marker::Model;

/// What the secrets of one life of a node are drawn from.
#[derive(Drop)]
pub struct Source {
    seed: [u8; 32],
    node: NodeId,
    life: u32,
}

impl Model for Source {
    ghost use Rattle.mip_nonce.specs.Secrets.{Life};

    ghost Value = { Life };

    ghost view = { λ s. record { seed = s.seed; node = s.node.0; life = s.life } };
}

impl Source {
    pub fn new(seed: &[u8; 32], node: NodeId, life: u32) -> Source
        ensures { result ≡ record { seed = seed.now; node = node.0; life = life } }
    {
        Source {
            seed: *seed,
            node,
            life,
        }
    }

    /// Kcn, the key of the keygen tokens (RFC 6275 section 5.2.1).
    #[tactic(auto, unfolding(crate::specs::Secrets::kcn_of))]
    pub fn kcn(&self) -> [u8; 20]
        ensures { result ≡ kcn_of self.now }
    {
        let mut words = self.words(0, 0);
        let [a0, a1, a2, a3] = words.next_word().to_be_bytes();
        let [b0, b1, b2, b3] = words.next_word().to_be_bytes();
        let [c0, c1, c2, c3] = words.next_word().to_be_bytes();
        let [d0, d1, d2, d3] = words.next_word().to_be_bytes();
        let [e0, e1, e2, e3] = words.next_word().to_be_bytes();
        [
            a0, a1, a2, a3, b0, b1, b2, b3, c0, c1, c2, c3, d0, d1, d2, d3, e0, e1, e2, e3,
        ]
    }

    /// The nonce of this number (RFC 6275 section 5.2.2).
    #[tactic(auto, unfolding(crate::specs::Secrets::nonce_of))]
    pub fn nonce(&self, number: u64) -> [u8; 8]
        ensures { result ≡ nonce_of self.now number }
    {
        let mut words = self.words(1, 2 * number as u128);
        let [a0, a1, a2, a3] = words.next_word().to_be_bytes();
        let [b0, b1, b2, b3] = words.next_word().to_be_bytes();
        [a0, a1, a2, a3, b0, b1, b2, b3]
    }

    /// The cookie that a life draws after this many others.
    #[tactic(auto, unfolding(crate::specs::Secrets::cookie_of))]
    pub fn cookie(&self, number: u64) -> Cookie
        ensures { result.0 ≡ cookie_of self.now number }
    {
        let mut words = self.words(2, 2 * number as u128);
        Cookie(next_cookie(&mut words))
    }

    /// Cookies one behind the other, from the one that a life draws after this many others.
    pub fn cookies(&self, first: u64) -> [u64; ROW]
        ensures { AreCookies self.now first result }
    {
        let mut words = self.words(2, 2 * first as u128);
        let mut cookies = [0; ROW];
        for i in 0..ROW {
            cookies[i] = next_cookie(&mut words);
        }
        cookies
    }

    /// The words of a kind of secret, from a place on.
    fn words(&self, kind: u8, place: u128) -> ChaCha20Rng
        requires small { kind < 4 }
        requires inside { place < 2 ^ 68 }
        ensures { result ≡ record { key = key_of self.now.seed; stream = stream_of self.now kind; word_pos = place } }
    {
        let stream = self.node.0 as u64 * 0x1_0000_0000 + 4 * self.life as u64 + kind as u64;
        let mut words = ChaCha20Rng::from_seed(self.seed);
        words.set_stream(stream);
        words.set_word_pos(place);
        words
    }
}

/// The next two words as one number, the first word its high half.
fn next_cookie(words: &mut ChaCha20Rng) -> u64
    requires { words.old.word_pos + 2 < 2 ^ 68 }
    ensures value { result ≡ word_at 10 words.old.key words.old.stream words.old.word_pos * 2 ^ 32 + word_at 10 words.old.key words.old.stream (words.old.word_pos + 1) }
    ensures words { words.new ≡ record words.old { word_pos = words.old.word_pos + 2 } }
{
    let high = words.next_word() as u64;
    let low = words.next_word() as u64;
    high * 0x1_0000_0000 + low
}
