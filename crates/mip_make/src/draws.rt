ghost use Rattle.std.specs.Prelude.{◌≡◌, ◌+◌, ◌<◌};
ghost use Rattle.mip_make.specs.Draws.{draw_of};

use crate::draw::Draw;
use rand_chacha::ChaCha20Rng;
use rand_core::SeedableRng;
use rand_core::utils::NextWord;
use std::marker::Model;

/// The stream of the words that events are made of. No secret of a node is drawn from it.
const STREAM: u64 = 0x100_0000_0000;

/// What the events of a schedule are made of, one after another.
#[derive(Drop)]
pub struct Draws {
    seed: [u8; 32],
    event: u32,
    words: ChaCha20Rng,
}

impl Model for Draws {
    ghost use Rattle.std.specs.Prelude.{◌≡◌, ◌*◌};
    ghost use Rattle.rand_chacha.specs.ChaCha.{key_of};
    ghost use Rattle.mip_make.specs.Draws.{Place, stream};

    ghost Value = { Place };

    ghost view = { λ d. record { seed = d.seed; event = d.event } };

    ghost invariant = { λ d. d.words ≡ record { key = key_of d.seed; stream = stream; word_pos = 2 * d.event } };
}

impl Draws {
    pub fn new(seed: &[u8; 32]) -> Draws
        ensures { result ≡ record { seed = seed.now; event = 0 } }
    {
        let mut words = ChaCha20Rng::from_seed(*seed);
        words.set_stream(STREAM);
        words.set_word_pos(0);
        Draws {
            seed: *seed,
            event: 0,
            words,
        }
    }

    /// The words of the next event.
    #[tactic(auto, unfolding(crate::specs::Draws::draw_of))]
    pub fn draw(&mut self) -> Draw
        requires { self.old.event < 20000 }
        ensures value { result ≡ draw_of self.old.seed self.old.event }
        ensures next { self.new ≡ record { seed = self.old.seed; event = self.old.event + 1 } }
    {
        let x = self.words.next_word();
        let y = self.words.next_word();
        self.event += 1;
        Draw { x, y }
    }
}
