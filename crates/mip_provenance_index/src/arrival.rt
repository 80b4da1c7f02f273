ghost use Rattle.std.specs.Prelude.{◌≡◌, option_map};
ghost use Rattle.mip_provenance_index.specs.Heard.{arrival_from};

use mip_words::Token;

/// A token that came to an outsider.
#[derive(Clone, Copy)]
pub struct Arrival {
    pub outsider: u8,
    pub token: Token,
}

impl Arrival {
    /// The token, where it came to this outsider.
    pub fn token_for(&self, outsider: u8) -> Option<Token>
        ensures { option_map (λ t. t.0) result ≡ arrival_from outsider self.now }
    {
        if self.outsider == outsider {
            Some(self.token)
        } else {
            None
        }
    }
}
