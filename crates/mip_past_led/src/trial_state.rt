/// How far return routability with a peer is (RFC 6275 sections 5.2 and 11.6).
#[derive(Clone, Copy, Debug, PartialEq, Eq)]
pub enum TrialState {
    /// No test is under way.
    Idle,
    /// Tests were asked for, and not all that are needed have come.
    Probing,
    /// The tests that are needed have come.
    Proved,
    /// An update was made, and no acknowledgement of it has come.
    Pending,
    /// The peer has the binding.
    Bound,
}
