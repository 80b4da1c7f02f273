ghost use Rattle.std.specs.Prelude.{◌≡◌, ◌≤◌, length, true};
ghost use Rattle.std.specs.List.{list_all};
ghost use Rattle.mip_symbols.specs.Names.{is_letter, is_name, name_bytes, name_of};

/// The name of a link, a node or an outsider: 1 to 8 of a to z and 0 to 9, and not `find`. The letters
/// past its length are 0.
#[derive(Clone, Copy, Debug, PartialEq, Eq)]
pub struct Name {
    pub length: u8,
    pub letters: [u8; 8],
}

impl Name {
    /// The name that a text is.
    #[tactic(auto, unfolding(crate::specs::Names::name_of))]
    pub fn read(text: &[u8]) -> Option<Name>
        ensures { result ≡ name_of text.now }
    {
        if !is_name(text) {
            return None;
        }
        let mut letters = [0; 8];
        letters[..text.len()].copy_from_slice(text);
        Some(Name {
            length: text.len() as u8,
            letters,
        })
    }

    /// The letters of the name.
    pub fn as_slice(&self) -> &[u8]
        ensures { result.now ≡ name_bytes self.now }
    {
        let length = (self.length as usize).min(8);
        &self.letters[..length]
    }
}

fn is_letter(c: u8) -> bool
    ensures { result ≡ is_letter c }
{
    matches!(c, b'a'..=b'z') || matches!(c, b'0'..=b'9')
}

fn all_letters(text: &[u8]) -> bool
    ensures { result ≡ list_all is_letter text.now }
{
    text.iter().all(|c| is_letter(*c))
}

#[tactic(auto, unfolding(crate::specs::Names::is_name))]
fn is_name(text: &[u8]) -> bool
    ensures value { result ≡ is_name text.now }
    ensures short { result ≡ true → length text.now ≤ 8 }
{
    if text.is_empty() || 8 < text.len() {
        return false;
    }
    all_letters(text) && !(text == b"find".as_slice())
}
