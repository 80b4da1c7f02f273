use crate::scene::Scene;
use mip_words::NodeId;

/// Whom questions are about, at a place of a history.
#[derive(Clone, Copy)]
pub struct Inquiry<'a> {
    pub scene: Scene<'a>,
    pub node: NodeId,
}
