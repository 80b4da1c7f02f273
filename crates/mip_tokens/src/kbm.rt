ghost use Rattle.std.specs.Prelude.{◌≡◌};
ghost use Rattle.mip_tokens.specs.Token.{kbm_both_of, kbm_home_of};

use mip_words::Token;
use sha1::Sha1;

/// Kbm, the binding management key of an update (RFC 6275 section 5.2.5).
#[derive(Clone, Copy, Debug, PartialEq, Eq)]
pub struct Kbm(pub [u8; 20]);

impl Kbm {
    /// The key of an update that binds.
    #[tactic(auto, unfolding(crate::specs::Token::kbm_both_of))]
    pub fn both(home: Token, careof: Token) -> Kbm
        ensures { result.0 ≡ kbm_both_of home.0 careof.0 }
    {
        let mut hash = Sha1::new();
        hash.update(&home.0);
        hash.update(&careof.0);
        Kbm(hash.finalize())
    }

    /// The key of an update that deletes a binding.
    #[tactic(auto, unfolding(crate::specs::Token::kbm_home_of))]
    pub fn home(home: Token) -> Kbm
        ensures { result.0 ≡ kbm_home_of home.0 }
    {
        Kbm(Sha1::digest(&home.0))
    }
}
