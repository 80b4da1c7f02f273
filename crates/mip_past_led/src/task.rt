/// What work of a mobile is (RFC 6275 sections 11.4.1, 11.7.1, 11.7.2 and 11.8).
#[derive(Clone, Copy, Debug, PartialEq, Eq)]
pub enum Task {
    /// To send a peer's tests or its update again, or to give that up.
    Resend,
    /// To test a peer anew, before its binding ends.
    Renew,
    /// The end of a peer's binding.
    End,
    /// To send the last home registration or deregistration again.
    HomeResend,
    /// To renew the home registration before it ends.
    HomeRenew,
    /// The end of the home registration.
    HomeEnd,
    /// To ask for home agents again, or to give the discovery up.
    Discover,
}
