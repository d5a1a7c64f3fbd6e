//! Worked cases of the definitions: each operator, and small designs with their rows. Each is a function with an empty body whose contract is the case.
#![tactic(auto)]

ghost use Rattle.design_cases.specs.WorkedRows.{ThroughIsProved, GroundedIsRefuted, GroundedFirst, GatedByCondition, PipedByTwo, EnabledByCondition, KeptStaysOpen, ClearedAtLaunchOne, CarriedByCondition, ResetIsReleased, SwitchedByCondition, TreeIsRead};
ghost use Rattle.design_cases.specs.TreeRows.{ExtendRows, CompareRows, FillRows, IndexRows, PartRows, CallRows, FreeRows, ResetRows};
ghost use Rattle.design_cases.specs.EdgeRows.{EnabledInEachCycle, GatedInLastCycle, ResetEndsInTime, HeldByCycle, LastLaunchCounts, BoxesInBoxes, LaunchFreeByTwo, BitsAsPrinted, LeavesInOrder, SignChangesOutside};
ghost use Rattle.design_cases.specs.OperatorRows.{UnaryRows, ArithmeticRows, BitwiseRows, LessRows, SignRows, EqualRows, ShiftRows, JoinRows, SelectRows, MatchRows, WriteRows};

/// The operators come out as worked by hand.
pub fn operators_as_worked()
    ensures unary { UnaryRows }
    ensures arithmetic { ArithmeticRows }
    ensures bitwise { BitwiseRows }
    ensures less { LessRows }
    ensures sign { SignRows }
    ensures equal { EqualRows }
    ensures shift { ShiftRows }
    ensures join { JoinRows }
    ensures select { SelectRows }
    ensures matching { MatchRows }
    ensures writes { WriteRows }
{}

/// Small designs are ordered, their items are good, and their rows are of the kinds worked by hand.
pub fn rows_as_worked()
    ensures through { ThroughIsProved }
    ensures grounded { GroundedIsRefuted }
    ensures first { GroundedFirst }
    ensures gated { GatedByCondition }
    ensures piped { PipedByTwo }
    ensures enabled { EnabledByCondition }
    ensures kept { KeptStaysOpen }
    ensures cleared { ClearedAtLaunchOne }
    ensures carried { CarriedByCondition }
    ensures reset { ResetIsReleased }
    ensures switched { SwitchedByCondition }
{}

/// A tree is read as the item that it stands for.
pub fn tree_is_read()
    ensures { TreeIsRead }
{}

/// Trees of expressions and statements come out as worked by hand, and a register under reset reads as its reset value at once.
pub fn trees_as_worked()
    ensures extend { ExtendRows }
    ensures compare { CompareRows }
    ensures fill { FillRows }
    ensures index { IndexRows }
    ensures part { PartRows }
    ensures call { CallRows }
    ensures free { FreeRows }
    ensures reset { ResetRows }
{}

/// Conditions are asked for in each cycle, resets end in time, the last launch counts, boxes hold what stands in them, and bits and leaves have their texts and order.
pub fn edges_as_worked()
    ensures each_cycle { EnabledInEachCycle }
    ensures last_cycle { GatedInLastCycle }
    ensures reset_ends { ResetEndsInTime }
    ensures held { HeldByCycle }
    ensures last_launch { LastLaunchCounts }
    ensures boxes { BoxesInBoxes }
    ensures launch_free { LaunchFreeByTwo }
    ensures printed { BitsAsPrinted }
    ensures leaves { LeavesInOrder }
    ensures sign { SignChangesOutside }
{}

#[cfg(test)]
mod shapes;
#[cfg(test)]
mod tests;
