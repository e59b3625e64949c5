//! The program `space8080`: its command line over the files of the system and standard output.
#![tactic(auto)]

use std::process::ExitCode;

fn main(rt: HostRuntime) -> ExitCode {
    ExitCode::from(sp_outside::carry_out(&rt).exit_number())
}
