ghost use Rattle.std.specs.Prelude.{◌≡◌, ℕ, ◌<◌, cond, eqb, length, OnOk, IfOk};
ghost use Rattle.cyc_net.specs.Cycles.{LeavesFrom, bit_of, next_of};
ghost use Rattle.unroller.specs.Setups.{value_of};
ghost use Rattle.unroller.specs.Tables.{IsPlaceOf, read_value, read_node};

use crate::setup::FixedBit;
use bits_core::NoMemory;
use cyc_net::{BitLeaf, BitNode, NodeId};
use std::alloc::Global;

/// Puts a node into a table by number, which grows where it is too short; a number without a node has node 0.
pub fn put_node(table: &mut Vec<NodeId>, number: u32, node: NodeId) -> Result<(), NoMemory>
    ensures { OnOk result ((b : ℕ) → read_node table.new.items b ≡ cond (eqb b number) node (read_node table.old.items b)) }
{
    while table.len() <= number as usize {
        table.push(0)?;
    }
    table[number as usize] = node;
    Ok(())
}

/// The place of a bit in a list whose bits ascend. Logarithmic in the list.
fn place_of(bits: &[BitLeaf], bit: u32) -> Option<usize>
    requires { LeavesFrom 0 bits.now }
    ensures { IsPlaceOf bits.now bit result }
{
    let mut low = 0;
    let mut high = bits.len();
    while low < high {
        let middle = low + (high - low) / 2;
        let here = bits[middle].bit;
        if here == bit {
            return Some(middle);
        }
        if here < bit {
            low = middle + 1;
        } else {
            high = middle;
        }
    }
    None
}

/// The fixed value of each bit of a list whose bits ascend, by its place. Takes room for the list, and a search in it for each fixed bit.
pub fn values_by_place(
    alloc: Global,
    bits: &[BitLeaf],
    fixed: &[FixedBit],
) -> Result<Vec<Option<bool>>, NoMemory>
    requires { LeavesFrom 0 bits.now }
    ensures { IfOk result (λ table. (k : ℕ) → k < length bits.now → read_value table.items k ≡ value_of fixed.now (bit_of bits.now k)) }
{
    let mut table = vec![in alloc; None; bits.len()]?;
    for at in 0..fixed.len() {
        let pin = fixed[at];
        if let Some(place) = place_of(bits, pin.bit) {
            table[place] = Some(pin.value);
        }
    }
    Ok(table)
}

/// The next node of each stored bit, by its place. Takes room for the stored bits, and a search among them for each next node.
pub fn nexts_by_place(
    alloc: Global,
    states: &[BitLeaf],
    nexts: &[BitNode],
) -> Result<Vec<NodeId>, NoMemory>
    requires { LeavesFrom 0 states.now }
    ensures { IfOk result (λ table. (k : ℕ) → k < length states.now → read_node table.items k ≡ next_of nexts.now (bit_of states.now k)) }
{
    let mut table = vec![in alloc; 0; states.len()]?;
    let count = nexts.len();
    for done in 0..count {
        let next = nexts[count - 1 - done];
        if let Some(place) = place_of(states, next.bit) {
            table[place] = next.node;
        }
    }
    Ok(table)
}
