// What each leaf of a rule answers, for stores, an age and a confirmed list.
ghost use Rattle.std.specs.Prelude.{◌≡◌, ◌≤◌, length};
ghost use Rattle.rules.specs.Rule.{Leaf};
ghost use Rattle.image.specs.Kinds.{named_kind};
ghost use Rattle.image.specs.Decode.{leaf_meaning, meaning};
ghost use Rattle.image.specs.Inner.Subtree.{NameInside};
ghost use Rattle.evaluate.specs.Evict.{leaf_says};
ghost use Rattle.evaluate.specs.Inner.Known.{env_in, Said};

use confirmed::Confirmed;
use image::{Image, Node, is_leaf};

// What a decision looks at: the age, which stores are confirmed, and how many readable ones are.
#[derive(Clone, Copy)]
pub struct Environment<'a> {
    pub age: u64,
    pub confirmed: Confirmed<'a>,
    pub ready: u64,
}

impl<'a> Environment<'a> {
    // What a leaf says: each kind by its own line. The kinds are numbers, as an image has them. That a name lies in the image is asked
    // where it is read, since a `Node` does not hold its image.
    fn leaf_says(self, image: Image, leaf: Node) -> bool
        requires { leaf.kind ≡ named_kind → NameInside image.bytes.now image.nodes leaf.arg }
        ensures { (l : Leaf) → meaning image.entry.bytes.now image.entry.nodes leaf.kind leaf.arg ≡ leaf_meaning l → result ≡ leaf_says l (env_in self.entry.confirmed.list.bytes.now self.entry.age self.entry.ready) }
    {
        match leaf.kind {
            image::NAMED => self.confirmed.is_confirmed(image.name(leaf.arg)),
            image::OLDER_THAN => leaf.arg <= self.age,
            image::READABLE => leaf.arg <= self.ready,
            _ => false,
        }
    }

    // Writes for each leaf of an image whether it says evict: 1 or 0, the numbers that `evaluate` compares with 1. Room for them is
    // asked by a clause: a struct with room would hold them lent for writing here, and for reading in `evaluate`.
    pub fn say_leaves(self, image: Image, says: &mut [u8])
        requires { image.nodes ≤ length says.old }
        ensures { Said image.entry.bytes.now image.entry.nodes says.new 1 (env_in self.entry.confirmed.list.bytes.now self.entry.age self.entry.ready) }
    {
        for i in 0..image.nodes {
            let node = image.node(i);
            if is_leaf(node.kind) {
                says[i] = u8::from(self.leaf_says(image, node));
            }
        }
    }
}
