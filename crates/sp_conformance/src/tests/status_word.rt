//! The program status word on the stack: S Z 0 AC 0 P 1 CY. Flags stand in the order S, Z, AC, P, CY.
use super::{check_cells, check_flags, check_regs, check_step, flags, loaded, set_flags};
use sp_base::Reg;
use sp_machine::Machine;
use std::process::Abort;
use std::test::Fail;

/// The flags and the byte that PUSH PSW makes of them.
static BYTES: [([u8; 5], u8); 32] = [
    ([0, 0, 0, 0, 0], 0x02),
    ([0, 0, 0, 0, 1], 0x03),
    ([0, 0, 0, 1, 0], 0x06),
    ([0, 0, 0, 1, 1], 0x07),
    ([0, 0, 1, 0, 0], 0x12),
    ([0, 0, 1, 0, 1], 0x13),
    ([0, 0, 1, 1, 0], 0x16),
    ([0, 0, 1, 1, 1], 0x17),
    ([0, 1, 0, 0, 0], 0x42),
    ([0, 1, 0, 0, 1], 0x43),
    ([0, 1, 0, 1, 0], 0x46),
    ([0, 1, 0, 1, 1], 0x47),
    ([0, 1, 1, 0, 0], 0x52),
    ([0, 1, 1, 0, 1], 0x53),
    ([0, 1, 1, 1, 0], 0x56),
    ([0, 1, 1, 1, 1], 0x57),
    ([1, 0, 0, 0, 0], 0x82),
    ([1, 0, 0, 0, 1], 0x83),
    ([1, 0, 0, 1, 0], 0x86),
    ([1, 0, 0, 1, 1], 0x87),
    ([1, 0, 1, 0, 0], 0x92),
    ([1, 0, 1, 0, 1], 0x93),
    ([1, 0, 1, 1, 0], 0x96),
    ([1, 0, 1, 1, 1], 0x97),
    ([1, 1, 0, 0, 0], 0xC2),
    ([1, 1, 0, 0, 1], 0xC3),
    ([1, 1, 0, 1, 0], 0xC6),
    ([1, 1, 0, 1, 1], 0xC7),
    ([1, 1, 1, 0, 0], 0xD2),
    ([1, 1, 1, 0, 1], 0xD3),
    ([1, 1, 1, 1, 0], 0xD6),
    ([1, 1, 1, 1, 1], 0xD7),
];

/// What bits 1, 3 and 5 may have in a byte that POP PSW takes, each as a difference from what PUSH PSW writes.
const FIXED_BITS: [u8; 8] = [0x00, 0x02, 0x08, 0x0A, 0x20, 0x22, 0x28, 0x2A];

#[test]
fn push_psw_fixes_three_bits(rt: HostRuntime) -> Result<(), Fail> {
    let mut machine = loaded(rt.alloc(), 0, &[0xF5])?;
    machine.set_reg(Reg::A, 0xA5);
    for (before, byte) in &BYTES {
        machine.set_pc(0);
        machine.set_sp(0x2400);
        set_flags(&mut machine, *before);
        check_step(&rt, &mut machine, 1, 0x23FE);
        check_cells(&rt, &machine, &[(0x23FF, 0xA5), (0x23FE, *byte)]);
        check_flags(&rt, &machine, *before);
    }
    Ok(())
}

/// POP PSW gives these flags, whatever the fixed bits of the byte.
fn check_pop(rt: &impl Abort, machine: &mut Machine, byte: u8, after: [u8; 5]) {
    for difference in FIXED_BITS {
        machine.set_pc(0);
        machine.set_sp(0x23FE);
        machine.set_cell(0x23FE, byte ^ difference);
        check_step(rt, machine, 1, 0x2400);
        check_regs(rt, machine, &[(Reg::A, 0xA5)]);
        assert_eq!(rt; flags(machine), after, "{byte} {difference}");
    }
}

#[test]
fn pop_psw_ignores_three_bits(rt: HostRuntime) -> Result<(), Fail> {
    let mut machine = loaded(rt.alloc(), 0, &[0xF1])?;
    machine.set_cell(0x23FF, 0xA5);
    for (after, byte) in &BYTES {
        check_pop(&rt, &mut machine, *byte, *after);
    }
    Ok(())
}
