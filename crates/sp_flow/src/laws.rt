ghost use Rattle.sp_flow.specs.Examples.{FlowsByExample, KindsComeInOrder};
ghost use Rattle.sp_flow.specs.Flow.{HasOneAnswer};
ghost use Rattle.sp_prog.specs.Program.{Program};

/// The flow of a unit is right or has one first rule that is broken, at one line, with one location, cell or port.
pub fn units_have_one_answer()
    ensures { (p : Program) → HasOneAnswer p }
{}

/// Units of one instruction that break a rule, and twins that keep all.
pub fn units_flow_by_example()
    ensures { FlowsByExample }
{}

/// The kinds come in their order, and a location in `reads` isn't asked for.
pub fn kinds_come_in_order()
    ensures { KindsComeInOrder }
{}
