//! Nodes of trees in rows, sound rows, and the database map that they stand for.
#![tactic(auto)]

mod laws;
mod node;
mod soundness;
mod tree_map;

pub use laws::{
    SoundRows, keys_ascend, map_has_values_of_records, nodes_are_read_back, same_rows_same_map,
    trees_are_low, zero_rows_are_not_reached,
};
pub use node::{INNER, LEAF, LEAST_PAIRS, LEVELS, NODE_PAIRS, Node, read_node, row_of_node};
pub use soundness::sound;
pub use tree_map::map_of;
