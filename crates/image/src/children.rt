// The children of a combinator, from the last one back to the first.
ghost use Rattle.std.specs.Prelude.{◌≡◌, ◌+◌, ◌-◌, ◌≤◌, ◌<◌, MatchOption};
ghost use Rattle.std.specs.Iterator.{at_most};
ghost use Rattle.image.specs.Decode.{node_at, cell_at};
ghost use Rattle.image.specs.Inner.Valid.{node_of};
ghost use Rattle.image.specs.Inner.Subtree.{Siblings};

use crate::{Node, NodeTable};

// A child: its last node, where its nodes begin, and where they end.
#[derive(Clone, Copy)]
pub struct Child {
    pub node: Node,
    pub start: usize,
    pub end: usize,
}

// The children that are left, of which the nodes are those from `from` up to `end`.
#[derive(Clone, Copy)]
pub struct Children<'a> {
    pub nodes: NodeTable<'a>,
    pub from: usize,
    pub end: usize,
    pub ghost siblings: { ∥ Siblings (cell_at nodes.bytes.now nodes.count) from end ∥₁ },
    pub ghost within: { end ≤ nodes.count },
}

impl<'a> Iterator for Children<'a> {
    type Item = Child;

    ghost next_gives = { λ s r t. (t.nodes.bytes.now ≡ s.nodes.bytes.now) × (t.nodes.count ≡ s.nodes.count) × (t.from ≡ s.from) × MatchOption r ((s.end ≤ s.from) × (t.end ≡ s.end)) (λ c. (s.from < s.end) × (node_of c.node ≡ node_at s.nodes.bytes.now s.nodes.count (s.end - 1)) × (c.start + c.node.size ≡ s.end) × (t.end ≡ c.start) × (c.end ≡ s.end)) };

    ghost remaining = { λ s. at_most (s.end - s.from) };

    #[inline]
    fn next(&mut self) -> Option<Child> {
        if self.end <= self.from {
            return None;
        }
        let end = self.end;
        let node = self.nodes.node(end - 1);
        let start = end - node.size;
        self.end = start;
        Some(Child { node, start, end })
    }
}

impl<'a> NodeTable<'a> {
    // The children whose nodes are those from `from` up to `end`.
    pub fn children(self, from: usize, end: usize) -> Children<'a>
        requires { ∥ Siblings (cell_at self.bytes.now self.count) from end ∥₁ × (end ≤ self.count) }
        ensures { (result.nodes.bytes.now ≡ self.entry.bytes.now) × (result.nodes.count ≡ self.entry.count) × (result.from ≡ from) × (result.end ≡ end) }
    {
        Children {
            nodes: self,
            from,
            end,
        }
    }
}
