ghost use Rattle.std.specs.Prelude.{◌≡◌, ◌<◌, ◌^◌, length, sum_by};
ghost use Rattle.sp_check.specs.Units.{instruction_count};
ghost use Rattle.sp_prog.specs.declared.routine.Routine.{Routine};

use sp_prog::{Routine, Unit};

/// How many instructions routines have.
fn count_all(routines: &[Routine]) -> u64
    requires { sum_by (λ (r : Routine). length r.code) routines.now < 2 ^ 64 }
    ensures { result ≡ sum_by (λ (r : Routine). length r.code) routines.now }
{
    let mut count = 0u64;
    for routine in routines {
        count += routine.code.as_slice().len() as u64;
    }
    count
}

/// How many instructions a unit has.
pub fn instruction_count(unit: &Unit) -> u64
    ensures { result ≡ instruction_count unit.now }
{
    count_all(unit.routines.as_slice())
}
