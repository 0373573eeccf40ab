//! Laws. Each is the contract of a function that does nothing.

ghost use Rattle.dag_pb_model.specs.Laws.{ModelsAreUnique, ModelsKeepLinks, ModelsAreBlocks};
ghost use Rattle.dag_pb_model.specs.Laws.{PutNodesHaveTheirModels, BlocksHaveTextNames};
ghost use Rattle.dag_pb_model.specs.Laws.{ModelsAreOfOneNode};

/// The same bytes never have two different data models.
pub fn models_are_unique()
    ensures { ModelsAreUnique }
{}

/// The links of a data model are those of its node.
#[tactic(auto, using(crate::proofs::Models::links_kept))]
pub fn models_keep_links()
    ensures { ModelsKeepLinks }
{}

/// The spelling of a data model is a block of DAG-CBOR.
pub fn models_are_blocks()
    ensures { ModelsAreBlocks }
{}

/// The block that `put_node` writes for a data model has that data model.
pub fn put_nodes_have_their_models()
    ensures { PutNodesHaveTheirModels }
{}

/// If the data model of a node is a block, the names of the node's links are UTF-8.
pub fn blocks_have_text_names()
    ensures { BlocksHaveTextNames }
{}

/// No two nodes that can be encoded have the same data model.
pub fn models_are_of_one_node()
    ensures { ModelsAreOfOneNode }
{}
