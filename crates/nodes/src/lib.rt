// Nodes and name bytes as the parser appends them.
#![tactic(auto)]

ghost use Rattle.std.specs.Prelude.{◌≡◌, ◌+◌, ◌-◌, ◌≤◌, ◌<◌, length};
ghost use Rattle.slices.specs.Text.{part};
ghost use Rattle.rules.specs.Rule.{named};
ghost use Rattle.image.specs.Encode.{tag, leaf_kind, leaf_arg, join_kind, join_arg};
ghost use Rattle.grammar.specs.Inner.Starts.{leaf_of, join_of};
ghost use Rattle.nodes.specs.Inner.Parses.{Long, NameRoom, JoinRoom, Written, pushed, joined, without_root};

use grammar::{Combinator, Test};
use image::{name_arg, tag_kind, tag_of};
use slices::append;

// The first n nodes, each a tag and an argument, and the first m bytes of their names, in arrays of a fixed size, since the library
// has no heap. Tags and arguments have an array each, as in the image, to which each is written as it is.
#[derive(Drop)]
pub struct Nodes<const N: usize> {
    pub tags: [u32; N],
    pub args: [u64; N],
    pub names: [u8; N],
    pub n: usize,
    pub m: usize,
}

// The kind and the argument of a leaf that is no name. A kind is a number, as in `image`, whose bytes may be of no kind.
fn test_entry(test: Test) -> (u32, u64)
    ensures { (result.0 ≡ leaf_kind (leaf_of test)) × (result.1 ≡ leaf_arg (leaf_of test) 0) }
{
    match test {
        Test::OlderThan(milliseconds) => (image::OLDER_THAN, milliseconds),
        Test::Readable(count) => (image::READABLE, count),
    }
}

// The kind and the argument of a combinator. One function for it and for a leaf would take a trait, with both bodies in its impls.
fn combinator_entry(combinator: Combinator) -> (u32, u64)
    ensures { (result.0 ≡ join_kind (join_of combinator)) × (result.1 ≡ join_arg (join_of combinator)) }
{
    match combinator {
        Combinator::AtLeast(count) => (image::AT_LEAST, count),
        Combinator::All => (image::ALL, 0),
        Combinator::Any => (image::ANY, 0),
    }
}

impl<const N: usize> Nodes<N> {
    // No nodes yet.
    pub fn new() -> Nodes<N>
        ensures { (result.n ≡ 0) × (result.m ≡ 0) }
    {
        Nodes {
            tags: [0; N],
            args: [0; N],
            names: [0; N],
            n: 0,
            m: 0,
        }
    }

    // Drops all nodes and the bytes of their names.
    pub fn clear(&mut self)
        ensures { (self.new.n ≡ 0) × (self.new.m ≡ 0) }
    {
        self.n = 0;
        self.m = 0;
    }

    // Appends a node: its kind, its size, its argument.
    fn push(&mut self, kind: u32, size: usize, arg: u64)
        requires { (self.old.n < N) × ((kind < 256) × (size ≤ 65536)) }
        ensures { self.new ≡ pushed (tag kind size) arg self.old }
    {
        self.tags[self.n] = tag_of(kind, size);
        self.args[self.n] = arg;
        self.n += 1;
    }

    // Appends a name's node, and the name, a part of the text. `N ≤ 2048` is in `NameRoom` and `JoinRoom`, not in the type: there `new`
    // would ask it.
    pub fn push_name(&mut self, text: &[u8], start: usize, end: usize)
        requires { NameRoom text.now start end self.old }
        ensures { Written (named (part text.now start end)) self.old self.new }
    {
        let m = self.m;
        let size = end - start;
        // The library's `copy_from_slice` would be a call of C's `memmove`, and C is asked for no more than `memset`.
        append(&mut self.names, m, &text[start..end]);
        self.m = m + size;
        self.push(image::NAMED, 1, name_arg(m, size));
    }

    // Appends the node of a leaf that is no name; the names stay as they are.
    pub fn push_test(&mut self, test: Test)
        requires { self.old.n < N }
        ensures written { Written (leaf_of test) self.old self.new }
        ensures names { self.new.names ≡ self.old.names }
    {
        let (kind, arg) = test_entry(test);
        self.push(kind, 1, arg);
    }

    // Appends a combinator's node, over those from `first` on. `Long` is promised for the parser's cycle, which knows of the nodes after
    // a call what the call promises: tried without it there, the proof did not close.
    pub fn push_combinator(&mut self, first: usize, combinator: Combinator)
        requires { JoinRoom first self.old }
        ensures nodes { self.new ≡ joined (join_of combinator) first self.old }
        ensures long { Long self.new }
    {
        let (kind, arg) = combinator_entry(combinator);
        let size = self.n - first + 1;
        self.push(kind, size, arg);
    }

    // Drops the last node, the root of a chain's left side, where it is of the chain's kind: the chain continues it. This and
    // `next_operand` alone ask `n ≤ N`, those that append ask room for one more, so an invariant would take little away.
    pub fn drop_root(&mut self, kind: u32)
        requires { (0 < self.old.n) × (self.old.n ≤ N) }
        ensures nodes { self.new ≡ without_root kind self.old }
        ensures long { Long self.new }
    {
        let continues = tag_kind(self.tags[self.n - 1]) == kind;
        if continues {
            self.n -= 1;
        }
    }
}
