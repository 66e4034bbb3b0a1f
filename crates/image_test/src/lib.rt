// Whether bytes are a rule's image: forward passes over the nodes, no recursion.
#![tactic(auto)]

ghost use Rattle.std.specs.Prelude.{◌≡◌, MatchOption, true, false, ◌-◌, ◌≤◌, suc, ◌<◌};
ghost use Rattle.std.proofs.Math.Option.{some};
ghost use Rattle.rules.specs.Rule.{Rules};
ghost use Rattle.image.specs.Layout.{node_count_in};
ghost use Rattle.image.specs.Decode.{cell_at, split, build, bind, only, node_at, name_end, ends_at, decode};
ghost use Rattle.image.specs.Inner.Valid.{BuiltUpTo, is_some};

use image::{
    Image, NodeTable, is_leaf, name_byte_count, name_length, name_start, names_start, node_count,
};
use slices::ascii_from;

// Whether the last of the rules that the first `end` nodes make are exactly the nodes from `from` on. A walk
// of its own, since `image::children` is for nodes that are known to be rules, which is what is tested here.
fn children_fit(nodes: NodeTable, from: usize, end: usize) -> bool
    requires { BuiltUpTo nodes.bytes.now nodes.count end × (from ≤ end) }
    ensures { (rs : Rules) → build (cell_at nodes.entry.bytes.now nodes.entry.count) end ≡ some rs → result ≡ is_some (split rs (end - from)) }
{
    let mut at = end;
    while from < at {
        let child = nodes.node(at - 1);
        let back = child.size;
        let past = at - from < back;
        if past {
            return false;
        }
        at -= back;
    }
    true
}

// Whether node i can follow the rules that the nodes before it make. That i is below their number is asked as of an index: a type of
// such indices would ask it where one is made.
fn node_fits(nodes: NodeTable, i: usize) -> bool
    requires { BuiltUpTo nodes.bytes.now nodes.count i × (i < nodes.count) }
    ensures { result ≡ is_some (build (cell_at nodes.entry.bytes.now nodes.entry.count) (suc i)) }
{
    let node = nodes.node(i);
    let kind = node.kind;
    let size = node.size;
    let arg = node.arg;
    if is_leaf(kind) {
        return size == 1;
    }
    match kind {
        image::AT_LEAST..=image::ANY => {
            if image::AT_LEAST < kind {
                if 0 < arg {
                    return false;
                }
            }
            let small = size < 2;
            if small {
                return false;
            }
            if i + 1 < size {
                return false;
            }
            children_fit(nodes, i + 1 - size, i)
        }
        _ => false,
    }
}

// Whether the nodes make exactly one rule.
fn nodes_fit(nodes: NodeTable) -> bool
    requires { 0 < nodes.count }
    ensures { result ≡ is_some (bind (build (cell_at nodes.entry.bytes.now nodes.entry.count) nodes.entry.count) only) }
{
    let n = nodes.count;
    for i in 0..n {
        if !node_fits(nodes, i) {
            return false;
        }
    }
    let root = nodes.node(n - 1);
    let size = root.size;
    size == n
}

// Whether the names of the nodes follow one another and end at m. Nodes are fetched by index: there is no slice of them, since tags and
// arguments lie apart. That they are at most 2,048 is not in `NodeTable`, since `evaluate` takes a table of any number.
fn names_run(nodes: NodeTable, m: usize) -> bool
    requires { nodes.count ≤ 2048 }
    ensures { result ≡ ends_at (name_end (node_at nodes.entry.bytes.now nodes.entry.count) nodes.entry.count) m }
{
    let mut end: u64 = 0;
    for i in 0..nodes.count {
        let node = nodes.node(i);
        let kind = node.kind;
        let arg = node.arg;
        if kind == image::NAMED {
            if name_start(arg) != end {
                return false;
            }
            end += name_length(arg);
        }
    }
    // A cast, which loses nothing: there is no `From` of `u64` into `usize`, or back.
    end as usize == m
}

// The image that the bytes are, if they are one. Inlined, since an answer of this size goes through memory.
#[inline]
pub fn checked(bytes: &[u8]) -> Option<Image>
    ensures { MatchOption result (is_some (decode bytes.now) ≡ false) (λ i. (is_some (decode bytes.now) ≡ true) × ((i.bytes.now ≡ bytes.now) × (i.nodes ≡ node_count_in bytes.now))) }
{
    if bytes.len() < 4 {
        return None;
    }
    let n = node_count(bytes);
    let m = name_byte_count(bytes);
    if n == 0 {
        return None;
    }
    if 2048 < n {
        return None;
    }
    if 2048 < m {
        return None;
    }
    let start = names_start(n);
    if bytes.len() != start + m {
        return None;
    }
    if !ascii_from(bytes, start) {
        return None;
    }
    let table = NodeTable { bytes, count: n };
    if !names_run(table, m) {
        return None;
    }
    if !nodes_fit(table) {
        return None;
    }
    Some(Image { bytes, nodes: n })
}

// Whether the bytes are a rule's image.
pub fn is_image(image: &[u8]) -> bool
    ensures { result ≡ is_some (decode image.now) }
{
    checked(image).is_some()
}
