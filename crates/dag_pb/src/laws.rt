//! Laws. Each is the contract of a function that does nothing.

ghost use Rattle.dag_pb.specs.Laws.{SpelledNodesAreRead, NodesAreUnique, NoTwoShareASpelling};

/// The encoded bytes of a node are a block of that node.
#[tactic(auto, using(crate::proofs::Spelled::spelled_read))]
pub fn spelled_nodes_are_read()
    ensures { SpelledNodesAreRead }
{}

/// The same bytes are never the blocks of two different nodes.
pub fn nodes_are_unique()
    ensures { NodesAreUnique }
{}

/// No two nodes are encoded as the same bytes.
#[tactic(auto, using(crate::proofs::Spelled::spelling_unique))]
pub fn no_two_nodes_share_a_spelling()
    ensures { NoTwoShareASpelling }
{}
