//! What holds of commands alone, as the contract of a function that does nothing.
ghost use Rattle.sp_cli.specs.Stages.{RefusalsAreOne};

/// Of what its inputs hold, a command has one refusal at most, and none where it accepts.
pub fn a_command_has_one_refusal()
    ensures { RefusalsAreOne }
{}
