ghost use Rattle.std.specs.Prelude.{◌≡◌, ◌≤◌, ◌^◌, length};
ghost use Rattle.tseitin_cnf.specs.Parts.{Ascend, PartsAgree, node_in, place_from};

use cyc_net::Node;

/// The place of a number in a list that ascends. Logarithmic in the list.
fn place_of(numbers: &[u32], number: u32) -> Option<u32>
    requires ascend { Ascend 0 numbers.now }
    requires few { length numbers.now ≤ 2 ^ 27 }
    ensures { result ≡ place_from 0 numbers.now number }
{
    let mut low = 0;
    let mut high = numbers.len();
    while low < high {
        let middle = low + (high - low) / 2;
        let here = numbers[middle];
        if here == number {
            return Some(middle as u32);
        }
        if here < number {
            low = middle + 1;
        } else {
            high = middle;
        }
    }
    None
}

/// The node as it is where the net is whole; else with its leaf by its place among the leaves, and 0 where it is none of them.
pub fn node_in(whole: bool, leaves: &[u32], node: Node) -> Node
    requires ascend { Ascend 0 leaves.now }
    requires few { length leaves.now ≤ 2 ^ 27 }
    ensures { result ≡ node_in whole leaves.now node }
{
    if whole {
        return node;
    }
    match node {
        Node::Leaf(number) => match place_of(leaves, number) {
            Some(place) => Node::Leaf(place),
            None => Node::Const(false),
        },
        _ => node,
    }
}

/// A law: the nodes of a part of a net have the values that they have in the net where the leaves of the part have the values at their places,
/// and all others are 0.
pub fn parts_agree()
    ensures { PartsAgree }
{}
