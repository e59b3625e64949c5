//! Laws on the machine's steps.
ghost use Rattle.sp_machine.specs.Ports.{StepsAreTold};

/// A step of the model is the core's step with the next input, and its event tells what happened at the ports: which
/// input was taken, and what was put out.
pub fn events_tell_the_ports()
    ensures { StepsAreTold }
{}
