ghost use Rattle.sp_cond.specs.Examples.{ConditionsByExample};
ghost use Rattle.sp_cond.specs.Laws.{ExecutionsGoOn};

/// Executing one step more is executing the steps, and then that step.
pub fn executions_go_on()
    ensures { ExecutionsGoOn }
{}

/// Choices, starts, returns, assertions, calls, inputs and accesses by example.
pub fn conditions_by_example()
    ensures { ConditionsByExample }
{}
