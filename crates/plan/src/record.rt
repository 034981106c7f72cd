ghost use Rattle.std.specs.Prelude.{◌≡◌, ◌≤◌, true};
ghost use Rattle.lists.specs.Lists.{items_of};
ghost use Rattle.plan.specs.Tree.{tree_of, nodes_of, depth, small_actions};

use crate::node::Node;
use lists::fixed_list::FixedList;

// Nodes in sequence, and not in boxes: a node's number is its index, and the library allocates nothing.
pub(crate) type Nodes = FixedList<Node, 255>;

// A whole plan: its nodes in sequence, at most 32 orders and looks deep on any way.
#[derive(Clone, Copy)]
pub struct Plan {
    pub(crate) nodes: Nodes,
    ghost whole: { nodes_of (tree_of (items_of nodes)) ≡ items_of nodes },
    ghost shallow: { depth (tree_of (items_of nodes)) ≤ 32 },
    ghost named: { small_actions (tree_of (items_of nodes)) ≡ true },
}
