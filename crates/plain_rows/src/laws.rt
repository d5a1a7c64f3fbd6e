// Laws of the definitions.
ghost use Rattle.plain_rows.specs.Laws.{DriversAreAssigns, VerdictsAreOne};

/// The wires of a plain module are its ports in order and its assigns: each assign drives its port, and nothing else drives one.
pub fn drivers_are_assigns()
    ensures { DriversAreAssigns }
{}

/// A row has one right verdict, with one launch and one list of inputs that are 1.
pub fn verdicts_are_one()
    ensures { VerdictsAreOne }
{}
