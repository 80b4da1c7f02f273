use mip_afresh_agent::Agent;
use mip_afresh_mobile::Node;

/// What a run keeps of a node.
#[derive(Drop)]
pub enum Role {
    /// Nothing: what a correspondent keeps is asked of the entries.
    Plain,
    Agent(Agent),
    Mobile(Node),
}
