use crate::test_kind::TestKind;
use crate::update_identity::UpdateIdentity;
use mip_words::{Address, Token};

/// What a packet says.
#[derive(Clone, Copy, Debug, PartialEq, Eq)]
pub enum Carried<'a> {
    /// A Home Test or a Care-of Test (RFC 6275 sections 6.1.5 and 6.1.6), and where it goes.
    Test {
        kind: TestKind,
        index: u16,
        token: Token,
        destination: Address,
    },
    /// A Binding Update with an authenticator (RFC 6275 sections 6.1.7 and 6.2.7).
    Update(UpdateIdentity<'a>),
    /// Anything else.
    Other,
}
