ghost use Rattle.std.specs.Prelude.{◌≡◌, ◌+◌, ◌≤◌, List, ◌++◌, length};
ghost use Rattle.plan.specs.Plans.{plan_tree};
ghost use Rattle.plan.specs.Tree.{Tree, nodes_of, depth, size, ends as tree_ends};
ghost use Rattle.plan.specs.declared.node.Node.{Node as PlanNode};

use crate::node::Node;
use crate::record::Plan;

impl Plan {
    // The nodes in sequence; a node's number is its index.
    pub fn nodes(&self) -> &[Node]
        ensures { result.now ≡ nodes_of (plan_tree self.now) }
    {
        self.nodes.as_slice()
    }

    // How many ends there are.
    pub fn ends(&self) -> usize
        ensures { result ≡ tree_ends (plan_tree self.now) }
    {
        count_ends(self.nodes())
    }

    // How many orders and looks the longest way has.
    pub fn longest(&self) -> usize
        ensures { result ≡ depth (plan_tree self.now) }
    {
        longest_of(self.nodes())
    }
}

// The ends among the nodes of a plan.
fn count_ends(nodes: &[Node]) -> usize
    ensures { (t : Tree) → nodes.now ≡ nodes_of t → result ≡ tree_ends t }
{
    nodes
        .iter()
        .filter(|node| matches!(node, Node::End))
        .count()
}

// The longest way of a whole plan.
fn longest_of(nodes: &[Node]) -> usize
    ensures { (t : Tree) → nodes.now ≡ nodes_of t → result ≡ depth t }
{
    let (longest, _) = longest_first(nodes);
    longest
}

// The longest way of the plan that nodes begin with, and how many nodes that plan has.
fn longest_first(nodes: &[Node]) -> (usize, usize)
    ensures spelled { (t : Tree) (rest : List PlanNode) → nodes.now ≡ nodes_of t ++ rest → (result.0 ≡ depth t) × (result.1 ≡ size t) }
    ensures short { result.0 ≤ result.1 }
    ensures few { result.1 ≤ length nodes.now }
{
    let Some((first, rest)) = nodes.split_first() else {
        return (0, 0);
    };
    match first {
        Node::End => (0, 1),
        Node::Order { .. } => {
            let (longest, taken) = longest_first(rest);
            (longest + 1, taken + 1)
        }
        Node::Look { .. } => {
            let (yes, taken) = longest_first(rest);
            let (no, more) = longest_first(&rest[taken..]);
            (yes.max(no) + 1, taken + more + 1)
        }
    }
}
