/// What is known of a node.
#[derive(Clone, Copy)]
pub struct Known {
    /// The node has registered a home.
    pub is_agent: bool,
    /// How often it was restarted.
    pub life: usize,
}
