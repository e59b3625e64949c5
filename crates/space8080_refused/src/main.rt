//! The program `space8080` once more, with a stored run that ends with another status than 0.
#![tactic(auto)]

use std::process::ExitCode;

fn main(rt: HostRuntime) -> ExitCode {
    ExitCode::from(sp_outside::carry_out(&rt).exit_number())
}
