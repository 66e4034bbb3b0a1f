// The rule image: the kinds of nodes, an image written into a buffer, and a node and a name read from one. The casts lose nothing, as
// is proved: there is no `From` of `usize` into `u32` or `u64`, of `u32` into `usize`, or of `u64` into either.
#![tactic(auto)]

pub mod children;

ghost use Rattle.std.specs.Prelude.{◌≡◌, ℕ, true, ◌+◌, ◌*◌, ◌^◌, ◌≤◌, ◌<◌, length, map};
ghost use Rattle.slices.specs.Text.{written};
ghost use Rattle.little_endian.specs.Bytes.{le_at, packed};
ghost use Rattle.image.specs.Layout.{node_count_in, name_byte_count_in, names_start, tag_start, tag_kind, name_start, name_length, name_of};
ghost use Rattle.image.specs.Encode.{tag, name_arg, image_of};
ghost use Rattle.image.specs.Decode.{node_at, decode};
ghost use Rattle.image.specs.Inner.Leaves.{is_leaf};
ghost use Rattle.image.specs.Inner.Valid.{node_of, is_some};
ghost use Rattle.image.specs.Inner.Subtree.{NameInside, ValidSubtree};

use little_endian::{read, write};
use slices::append;

// The kinds of nodes. They stay numbers, since the image has them as bytes that may be any, and a match on the number gives the
// leaves, the combinators and everything unknown an arm each.
pub const NAMED: u32 = 0;

pub const OLDER_THAN: u32 = 1;

pub const READABLE: u32 = 2;

pub const AT_LEAST: u32 = 3;

pub const ALL: u32 = 4;

pub const ANY: u32 = 5;

// Whether a node of this kind is a leaf.
#[tactic(auto, unfolding(crate::specs::Inner::Leaves::is_leaf))]
pub fn is_leaf(kind: u32) -> bool
    ensures { result ≡ is_leaf kind }
{
    kind <= READABLE
}

// A node's tag, from its kind and its size.
pub fn tag_of(kind: u32, size: usize) -> u32
    requires { (kind < 256) × (size ≤ 65536) }
    ensures { result ≡ tag kind size }
{
    kind + 256 * (size as u32)
}

// The kind that a tag says.
pub fn tag_kind(tag: u32) -> u32
    ensures { result ≡ tag_kind tag }
{
    tag % 256
}

// The argument of a name's node, from where its bytes begin among the name bytes, and how many there are.
pub fn name_arg(start: usize, length: usize) -> u64
    requires { (start ≤ 65536) × (length ≤ 65536) }
    ensures { result ≡ name_arg start length }
{
    (start as u64) * 65536 + (length as u64)
}

// Where the bytes of a name begin among the name bytes, from the argument of its node.
pub fn name_start(arg: u64) -> u64
    ensures { result ≡ name_start arg }
{
    arg / 65536
}

// How many there are.
pub fn name_length(arg: u64) -> u64
    ensures { result ≡ name_length arg }
{
    arg % 65536
}

// Writes numbers one after another, each in K bytes.
fn write_numbers<const K: usize, N: Copy + Into<u64>>(s: &mut [u8], at: usize, numbers: &[N])
    requires { at + K * length numbers.now ≤ length s.old }
    ensures { (value : N → ℕ) → ((x : N) (y : ℕ) → N.converts x y → y ≡ value x) → s.new ≡ written s.old at (packed K (map value numbers.now)) }
{
    for (i, number) in numbers.iter().enumerate() {
        write::<K>(s, at + K * i, (*number).into());
    }
}

// Writes the image of nodes and name bytes at the front of a buffer, and answers its length. The tags and the arguments are two
// slices, since an image has all tags before all arguments. Never inlined: where the arrays are seen to lie apart, its loops become
// calls of C's `memcpy`, and C is asked for no more than `memset`.
#[inline(never)]
pub fn write_image(image: &mut [u8], tags: &[u32], args: &[u64], names: &[u8]) -> usize
    requires { (length args.now ≡ length tags.now) × (names_start (length tags.now) + length names.now ≤ length image.old) }
    ensures { (result ≡ names_start (length tags.now) + length names.now) × (image.new ≡ written image.old 0 (image_of (length tags.now) tags.now args.now names.now)) }
{
    let n = tags.len();
    write::<2>(image, 0, n as u64);
    write::<2>(image, 2, names.len() as u64);
    write_numbers::<4, u32>(image, 4, tags);
    write_numbers::<8, u64>(image, 4 + 4 * n, args);
    append(image, 4 + 12 * n, names)
}

// How many nodes an image has.
pub fn node_count(image: &[u8]) -> usize
    requires { 4 ≤ length image.now }
    ensures { (result ≡ node_count_in image.now) × (result < 2 ^ 16) }
{
    read::<2>(image, 0) as usize
}

// How many name bytes an image has.
pub fn name_byte_count(image: &[u8]) -> usize
    requires { 4 ≤ length image.now }
    ensures { (result ≡ name_byte_count_in image.now) × (result < 2 ^ 16) }
{
    read::<2>(image, 2) as usize
}

// Where the name bytes begin in an image of n nodes.
pub fn names_start(n: usize) -> usize
    requires { n < 2 ^ 16 }
    ensures { result ≡ names_start n }
{
    4 + 12 * n
}

// A node as it lies in the image. That a name's bytes lie there too, `NameInside`, is asked where they are read: it speaks of a node
// and its image, and a node that holds its image could not be read from bytes that are still to be tested.
#[derive(Clone, Copy)]
pub struct Node {
    pub kind: u32,
    pub size: usize,
    pub arg: u64,
}

// The tag of node i. A function of its own: so a compiler sees one load for it, where in `node_at` it loads the kind and the size apart,
// and a walk over a wide rule takes a seventh longer.
fn tag_at(image: &[u8], i: usize) -> u32
    requires { tag_start i + 4 ≤ length image.now }
    ensures { result ≡ le_at image.now (tag_start i) 4 }
{
    read::<4>(image, 4 + 4 * i) as u32
}

// Node i of an image of n nodes. That i is below n is asked here and in the methods, as a slice asks it of an index: a type of such
// indices would ask it wherever one is made.
#[tactic(auto, unfolding(crate::specs::Decode::node_at))]
pub fn node_at(image: &[u8], n: usize, i: usize) -> Node
    requires { (names_start n ≤ length image.now) × (i < n) }
    ensures { node_of result ≡ node_at image.now n i }
{
    let tag = tag_at(image, i);
    Node {
        kind: tag_kind(tag),
        size: (tag / 256) as usize,
        arg: read::<8>(image, 4 + 4 * n + 8 * i),
    }
}

// The bytes of a name in an image of n nodes, from the argument of its node. No call of `names_start`, here or in `write_image`: it
// asks that n is below 65,536, and these do not.
pub fn name_of(image: &[u8], n: usize, arg: u64) -> &[u8]
    requires { NameInside image.now n arg }
    ensures { result.now ≡ name_of image.now n arg }
{
    let start = 4 + 12 * n + name_start(arg) as usize;
    let end = start + name_length(arg) as usize;
    &image[start..end]
}

// The tags and arguments of so many nodes at the front of bytes, whatever they say: bytes that are still to be tested have them too,
// so `Image` is another struct. The methods of both call `node_at` and `name_of`, which are written once.
#[derive(Clone, Copy)]
pub struct NodeTable<'a> {
    pub bytes: &'a [u8],
    pub count: usize,
    pub ghost in_bounds: { names_start count ≤ length bytes.now },
}

impl<'a> NodeTable<'a> {
    // Node i.
    pub fn node(self, i: usize) -> Node
        requires { i < self.count }
        ensures { node_of result ≡ node_at self.entry.bytes.now self.entry.count i }
    {
        node_at(self.bytes, self.count, i)
    }

    // The bytes of a name, from the argument of its node.
    pub fn name(self, arg: u64) -> &'a [u8]
        requires { NameInside self.bytes.now self.count arg }
        ensures { result.now ≡ name_of self.entry.bytes.now self.entry.count arg }
    {
        name_of(self.bytes, self.count, arg)
    }
}

// The nodes of a rule with their names, and how many nodes there are.
#[derive(Clone, Copy)]
pub struct Image<'a> {
    pub bytes: &'a [u8],
    pub nodes: usize,
    pub ghost valid: { ∥ ValidSubtree bytes.now nodes 0 nodes ∥₁ },
}

impl<'a> Image<'a> {
    // The image that these bytes are, where they are known to be one.
    pub fn of(bytes: &'a [u8]) -> Image<'a>
        requires { is_some (decode bytes.now) ≡ true }
        ensures { (result.bytes.now ≡ bytes.now) × (result.nodes ≡ node_count_in bytes.now) }
    {
        let nodes = node_count(bytes);
        Image { bytes, nodes }
    }

    // Node i.
    pub fn node(self, i: usize) -> Node
        requires { i < self.nodes }
        ensures { node_of result ≡ node_at self.entry.bytes.now self.entry.nodes i }
    {
        node_at(self.bytes, self.nodes, i)
    }

    // Its nodes as a table, which the walks over a part of them take: to evaluate and to print.
    pub fn table(self) -> NodeTable<'a>
        ensures { (result.bytes.now ≡ self.entry.bytes.now) × (result.count ≡ self.entry.nodes) }
    {
        NodeTable {
            bytes: self.bytes,
            count: self.nodes,
        }
    }

    // The bytes of a name, from the argument of its node.
    pub fn name(self, arg: u64) -> &'a [u8]
        requires { NameInside self.bytes.now self.nodes arg }
        ensures { result.now ≡ name_of self.entry.bytes.now self.entry.nodes arg }
    {
        name_of(self.bytes, self.nodes, arg)
    }
}
