// Plans as text.
ghost use Rattle.std.specs.Prelude.{◌≡◌, ◌≤◌};

use plan::node::Node;
use plan::record::Plan;
use std::fmt;
use std::fmt::Formatter;

// A plan to print: a line of counts, then a line for each node.
#[derive(Clone, Copy)]
pub struct Outline<'a> {
    pub plan: &'a Plan,
}

impl fmt::Display for Outline<'_> {
    fn fmt<W: fmt::Write>(&self, f: &mut Formatter<W>) -> fmt::Result {
        let nodes = self.plan.nodes();
        let count = nodes.len();
        let ends = self.plan.ends();
        let longest = self.plan.longest();
        writeln!(f, "plan: nodes {count}, ends {ends}, longest way {longest}")?;
        let mut lines = Lines {
            nodes,
            at: 0,
            ends: 0,
        };
        lines.subplan(f, 0, "")
    }
}

// The nodes of a plan, the index of the next one to print, and how many ends are before it. The index is the number that is printed.
#[derive(Clone, Copy)]
struct Lines<'a> {
    nodes: &'a [Node],
    at: usize,
    ends: usize,
}

impl Lines<'_> {
    // Prints the plan whose first node is next, under so many looks. The mark names the way that the plan is on.
    fn subplan<W: fmt::Write>(
        &mut self,
        f: &mut Formatter<W>,
        looks: usize,
        mark: &str,
    ) -> fmt::Result
        ensures nodes { self.new.nodes ≡ self.old.nodes }
        ensures onward { self.old.at ≤ self.new.at }
    {
        let at = self.at;
        let Some(node) = self.nodes.get(at) else {
            return Ok(());
        };
        let margin = Margin { looks, mark };
        self.at += 1;
        match node {
            Node::End => {
                let end = self.ends;
                // Counts saturate here: a bound on them would have to be said of every call, and no text depends on it.
                self.ends = end.saturating_add(1);
                writeln!(f, "{margin}{at} end {end}")
            }
            Node::Order { action } => {
                writeln!(f, "{margin}{at} order {action}")?;
                self.subplan(f, looks, "")
            }
            Node::Look { action } => {
                writeln!(f, "{margin}{at} look {action}")?;
                let below = looks.saturating_add(1);
                self.subplan(f, below, "yes: ")?;
                self.subplan(f, below, "no:  ")
            }
        }
    }
}

// The space before a node under so many looks; the first node of a way has its mark there.
#[derive(Clone, Copy)]
struct Margin<'a> {
    looks: usize,
    mark: &'a str,
}

impl fmt::Display for Margin<'_> {
    fn fmt<W: fmt::Write>(&self, f: &mut Formatter<W>) -> fmt::Result {
        for level in 0..self.looks {
            f.write_str("  ")?;
            if level + 1 < self.looks || self.mark.is_empty() {
                f.write_str("     ")?;
            }
        }
        f.write_str(self.mark)
    }
}
