ghost use Rattle.std.specs.Prelude.{◌≡◌};

use mip_c_words::answer_queue::AnswerQueue;
use mip_homeagent::HomeAgent;
use mip_words::Moment;

/// A home agent that C holds: the node, the moment of its last call, and the answers of that call.
#[derive(Drop)]
pub struct Station {
    pub node: HomeAgent,
    pub last: Moment,
    pub queue: AnswerQueue,
    pub ghost tied: { node.known.last ≡ last.0 },
}
