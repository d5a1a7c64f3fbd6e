ghost use Rattle.std.specs.Prelude.{◌≡◌, ℕ, ◌<◌, ◌||◌, Bool, true, eqb, length, IfOk};
ghost use Rattle.cyc_net.specs.Nets.{ReadsBelow, bit_at};
ghost use Rattle.tseitin_cnf.specs.Encoding.{reads_node, IsReadSet};

use bits_core::NoMemory;
use cyc_net::{Net, Node, NodeId};
use std::alloc::Global;

fn mark_inputs(marks: &mut [bool], node: Node)
    requires { ReadsBelow (length marks.old) node }
    ensures { (m : ℕ) → bit_at marks.new m ≡ (bit_at marks.old m || reads_node node m) }
{
    match node {
        Node::Const(_) | Node::Leaf(_) => {}
        Node::And(a, b) | Node::Xor(a, b) => {
            marks[a as usize] = true;
            marks[b as usize] = true;
        }
        Node::Mux(c, a, b) => {
            marks[c as usize] = true;
            marks[a as usize] = true;
            marks[b as usize] = true;
        }
    }
}

/// Goes down from the last node, where the goal is marked alone, and marks what each marked node reads.
fn mark_below(net: &Net, goal: NodeId, marks: &mut [bool])
    requires size { length marks.old ≡ length net.now }
    requires alone { (m : ℕ) → bit_at marks.old m ≡ eqb m goal }
    ensures { IsReadSet net.now goal (bit_at marks.new) }
{
    let mut at = net.len();
    while at > 0 {
        at -= 1;
        if marks[at] {
            mark_inputs(marks, net.node(at as NodeId));
        }
    }
}

/// Marks the nodes that the goal reads, itself included. Linear in the net.
pub fn mark_read(alloc: Global, net: &Net, goal: NodeId) -> Result<Vec<bool>, NoMemory>
    requires { goal < length net.now }
    ensures read { IfOk result (λ marks. IsReadSet net.now goal (bit_at marks.items)) }
    ensures size { IfOk result (λ marks. length marks.items ≡ length net.now) }
{
    let mut marks = vec![in alloc; false; net.len()]?;
    marks[goal as usize] = true;
    mark_below(net, goal, marks.as_mut_slice());
    Ok(marks)
}
