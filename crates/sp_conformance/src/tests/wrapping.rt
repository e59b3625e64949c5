//! Addresses are taken modulo 65,536: programs, words and the stack at the end of memory.
use super::{check_cells, check_flags, check_regs, check_step, loaded, set_flags};
use sp_base::Reg;
use sp_machine::{Event, Machine};
use std::alloc::Global;
use std::process::Abort;
use std::test::Fail;

/// An address, the bytes of an instruction there, and the program counter after it, Z and CY being 0.
static GOING_ON: [(u16, &[u8], u16); 13] = [
    // NOP; MVI A; ADI; LXI H; STA
    (0xFFFF, &[0x00], 0x0000),
    (0xFFFE, &[0x3E, 0x77], 0x0000),
    (0xFFFF, &[0x3E, 0x77], 0x0001),
    (0xFFFF, &[0xC6, 0x01], 0x0001),
    (0xFFFD, &[0x21, 0x34, 0x12], 0x0000),
    (0xFFFE, &[0x21, 0x34, 0x12], 0x0001),
    (0xFFFF, &[0x21, 0x34, 0x12], 0x0002),
    (0xFFFF, &[0x32, 0x34, 0x12], 0x0002),
    // JMP; JZ and CZ, not taken; JNC, taken; RC, not taken
    (0xFFFE, &[0xC3, 0x34, 0x12], 0x1234),
    (0xFFFF, &[0xCA, 0x34, 0x12], 0x0002),
    (0xFFFD, &[0xCC, 0x34, 0x12], 0x0000),
    (0xFFFF, &[0xD2, 0x34, 0x12], 0x1234),
    (0xFFFF, &[0xD8], 0x0000),
];

#[test]
fn the_program_counter_wraps(rt: HostRuntime) -> Result<(), Fail> {
    for (pc, bytes, after) in &GOING_ON {
        let mut machine = loaded(rt.alloc(), *pc, bytes)?;
        check_step(&rt, &mut machine, *after, 0);
    }
    Ok(())
}

#[test]
fn operands_after_the_last_address_are_read(rt: HostRuntime) -> Result<(), Fail> {
    // MVI A,77H and LXI B,1234H, each at FFFFH
    let mut machine = loaded(rt.alloc(), 0xFFFF, &[0x3E, 0x77])?;
    check_step(&rt, &mut machine, 0x0001, 0);
    assert_eq!(rt; machine.reg(Reg::A), 0x77);
    let mut machine = loaded(rt.alloc(), 0xFFFF, &[0x01, 0x34, 0x12])?;
    check_step(&rt, &mut machine, 0x0002, 0);
    check_regs(&rt, &machine, &[(Reg::B, 0x12), (Reg::C, 0x34)]);
    Ok(())
}

/// SP before, the addresses that take the high and the low byte, and SP after.
static PUSHED: [(u16, u16, u16, u16); 4] = [
    (0x0000, 0xFFFF, 0xFFFE, 0xFFFE),
    (0x0001, 0x0000, 0xFFFF, 0xFFFF),
    (0x0002, 0x0001, 0x0000, 0x0000),
    (0xFFFF, 0xFFFE, 0xFFFD, 0xFFFD),
];

/// An instruction at an address puts 1234H onto the stack and goes on at this address.
fn check_pushes(
    rt: &impl Abort,
    alloc: Global,
    pc: u16,
    bytes: &[u8],
    after: u16,
) -> Result<(), Fail> {
    for (sp, high, low, sp_after) in &PUSHED {
        let mut machine = loaded(alloc, pc, bytes)?;
        machine.set_reg(Reg::B, 0x12);
        machine.set_reg(Reg::C, 0x34);
        machine.set_sp(*sp);
        check_step(rt, &mut machine, after, *sp_after);
        check_cells(rt, &machine, &[(*high, 0x12), (*low, 0x34)]);
    }
    Ok(())
}

#[test]
fn what_is_pushed_wraps(rt: HostRuntime) -> Result<(), Fail> {
    // PUSH B, CALL 4000H, CNZ 4000H, RST 5
    check_pushes(&rt, rt.alloc(), 0x8000, &[0xC5], 0x8001)?;
    check_pushes(&rt, rt.alloc(), 0x1231, &[0xCD, 0x00, 0x40], 0x4000)?;
    check_pushes(&rt, rt.alloc(), 0x1231, &[0xC4, 0x00, 0x40], 0x4000)?;
    check_pushes(&rt, rt.alloc(), 0x1233, &[0xEF], 0x0028)?;
    Ok(())
}

/// The address of a call, its bytes, and the word that it puts onto the stack.
static CALLS: [(u16, &[u8], u8, u8); 6] = [
    (0xFFFD, &[0xCD, 0x00, 0x40], 0x00, 0x00),
    (0xFFFE, &[0xCD, 0x00, 0x40], 0x00, 0x01),
    (0xFFFF, &[0xCD, 0x00, 0x40], 0x00, 0x02),
    (0xFFFC, &[0xCD, 0x00, 0x40], 0xFF, 0xFF),
    (0xFFFF, &[0xFF], 0x00, 0x00),
    (0xFFFE, &[0xFF], 0xFF, 0xFF),
];

#[test]
fn calls_at_the_last_addresses_return_to_the_first(rt: HostRuntime) -> Result<(), Fail> {
    for (pc, bytes, high, low) in &CALLS {
        let mut machine = loaded(rt.alloc(), *pc, bytes)?;
        machine.set_sp(0x2400);
        assert_eq!(rt; (machine.step(0), machine.sp()), (Event::Plain, 0x23FE));
        check_cells(&rt, &machine, &[(0x23FF, *high), (0x23FE, *low)]);
    }
    Ok(())
}

/// SP, the addresses of the low and the high byte that stand there, and SP when they are taken.
static POPPED: [(u16, u16, u16, u16); 3] = [
    (0xFFFF, 0xFFFF, 0x0000, 0x0001),
    (0xFFFE, 0xFFFE, 0xFFFF, 0x0000),
    (0xFFFD, 0xFFFD, 0xFFFE, 0xFFFF),
];

/// A machine with 1234H on the stack, 5678H in HL, and this instruction at 8000H.
fn with_word(alloc: Global, code: u8, row: &(u16, u16, u16, u16)) -> Result<Machine, Fail> {
    let (sp, low, high, _) = *row;
    let mut machine = loaded(alloc, 0x8000, &[code])?;
    machine.set_reg(Reg::H, 0x56);
    machine.set_reg(Reg::L, 0x78);
    machine.set_cell(low, 0x34);
    machine.set_cell(high, 0x12);
    machine.set_sp(sp);
    Ok(machine)
}

#[test]
fn pop_wraps(rt: HostRuntime) -> Result<(), Fail> {
    for row in &POPPED {
        let mut machine = with_word(rt.alloc(), 0xC1, row)?;
        check_step(&rt, &mut machine, 0x8001, row.3);
        check_regs(&rt, &machine, &[(Reg::B, 0x12), (Reg::C, 0x34)]);
    }
    Ok(())
}

#[test]
fn ret_wraps(rt: HostRuntime) -> Result<(), Fail> {
    for row in &POPPED {
        let mut machine = with_word(rt.alloc(), 0xC9, row)?;
        check_step(&rt, &mut machine, 0x1234, row.3);
    }
    Ok(())
}

#[test]
fn xthl_wraps(rt: HostRuntime) -> Result<(), Fail> {
    for row in &POPPED {
        let (sp, low, high, _) = *row;
        let mut machine = with_word(rt.alloc(), 0xE3, row)?;
        check_step(&rt, &mut machine, 0x8001, sp);
        check_regs(&rt, &machine, &[(Reg::H, 0x12), (Reg::L, 0x34)]);
        check_cells(&rt, &machine, &[(low, 0x78), (high, 0x56)]);
    }
    Ok(())
}

#[test]
fn words_at_the_last_address_end_at_the_first(rt: HostRuntime) -> Result<(), Fail> {
    // SHLD FFFFH, then LHLD FFFFH
    let program = [0x22, 0xFF, 0xFF, 0x2A, 0xFF, 0xFF];
    let mut machine = loaded(rt.alloc(), 0x8000, &program)?;
    machine.set_reg(Reg::H, 0x56);
    machine.set_reg(Reg::L, 0x78);
    check_step(&rt, &mut machine, 0x8003, 0);
    let words = [(0xFFFF, 0x78), (0x0000, 0x56), (0x0001, 0x00)];
    check_cells(&rt, &machine, &words);
    machine.set_cell(0xFFFF, 0x34);
    machine.set_cell(0x0000, 0x12);
    check_step(&rt, &mut machine, 0x8006, 0);
    check_regs(&rt, &machine, &[(Reg::H, 0x12), (Reg::L, 0x34)]);
    Ok(())
}

/// A machine with this word in BC, DE, HL and SP, and this instruction at 8000H, with every flag set.
fn with_pairs(alloc: Global, code: u8, high: u8, low: u8) -> Result<Machine, Fail> {
    let mut machine = loaded(alloc, 0x8000, &[code])?;
    machine.set_reg(Reg::B, high);
    machine.set_reg(Reg::C, low);
    machine.set_reg(Reg::D, high);
    machine.set_reg(Reg::E, low);
    machine.set_reg(Reg::H, high);
    machine.set_reg(Reg::L, low);
    machine.set_sp(u16::from(low) + 256 * u16::from(high));
    set_flags(&mut machine, [1, 1, 1, 1, 1]);
    Ok(machine)
}

/// BC, DE and HL have these bytes.
fn check_pairs(rt: &impl Abort, machine: &Machine, [b, c, d, e, h, l]: [u8; 6]) {
    check_regs(rt, machine, &[(Reg::B, b), (Reg::C, c), (Reg::D, d)]);
    check_regs(rt, machine, &[(Reg::E, e), (Reg::H, h), (Reg::L, l)]);
}

/// An instruction, the bytes of each pair before, those of BC, DE and HL after, and SP after.
static COUNTS: [(u8, [u8; 2], [u8; 6], u16); 11] = [
    // INX B, D, H and SP
    (
        0x03,
        [0xFF, 0xFF],
        [0x00, 0x00, 0xFF, 0xFF, 0xFF, 0xFF],
        0xFFFF,
    ),
    (
        0x13,
        [0xFF, 0xFF],
        [0xFF, 0xFF, 0x00, 0x00, 0xFF, 0xFF],
        0xFFFF,
    ),
    (
        0x23,
        [0xFF, 0xFF],
        [0xFF, 0xFF, 0xFF, 0xFF, 0x00, 0x00],
        0xFFFF,
    ),
    (
        0x33,
        [0xFF, 0xFF],
        [0xFF, 0xFF, 0xFF, 0xFF, 0xFF, 0xFF],
        0x0000,
    ),
    // DCX B, D, H and SP
    (
        0x0B,
        [0x00, 0x00],
        [0xFF, 0xFF, 0x00, 0x00, 0x00, 0x00],
        0x0000,
    ),
    (
        0x1B,
        [0x00, 0x00],
        [0x00, 0x00, 0xFF, 0xFF, 0x00, 0x00],
        0x0000,
    ),
    (
        0x2B,
        [0x00, 0x00],
        [0x00, 0x00, 0x00, 0x00, 0xFF, 0xFF],
        0x0000,
    ),
    (
        0x3B,
        [0x00, 0x00],
        [0x00, 0x00, 0x00, 0x00, 0x00, 0x00],
        0xFFFF,
    ),
    // INX H and SP, DCX H from one byte into the other
    (
        0x23,
        [0x12, 0xFF],
        [0x12, 0xFF, 0x12, 0xFF, 0x13, 0x00],
        0x12FF,
    ),
    (
        0x33,
        [0x7F, 0xFF],
        [0x7F, 0xFF, 0x7F, 0xFF, 0x7F, 0xFF],
        0x8000,
    ),
    (
        0x2B,
        [0x13, 0x00],
        [0x13, 0x00, 0x13, 0x00, 0x12, 0xFF],
        0x1300,
    ),
];

#[test]
fn counts_of_pairs_wrap_and_keep_the_flags(rt: HostRuntime) -> Result<(), Fail> {
    for (code, [high, low], after, sp) in &COUNTS {
        let mut machine = with_pairs(rt.alloc(), *code, *high, *low)?;
        check_step(&rt, &mut machine, 0x8001, *sp);
        check_pairs(&rt, &machine, *after);
        check_flags(&rt, &machine, [1, 1, 1, 1, 1]);
    }
    Ok(())
}

/// The bytes of HL and BC, those of HL after DAD B, and CY after it.
static SUMS: [([u8; 4], [u8; 2], u8); 7] = [
    ([0x00, 0x00, 0x00, 0x00], [0x00, 0x00], 0),
    ([0xFF, 0xFF, 0x00, 0x01], [0x00, 0x00], 1),
    ([0xFF, 0xFF, 0x00, 0x00], [0xFF, 0xFF], 0),
    ([0xFF, 0xFF, 0xFF, 0xFF], [0xFF, 0xFE], 1),
    ([0x80, 0x00, 0x80, 0x00], [0x00, 0x00], 1),
    ([0x7F, 0xFF, 0x00, 0x01], [0x80, 0x00], 0),
    ([0x00, 0xFF, 0x00, 0x01], [0x01, 0x00], 0),
];

/// DAD B gives this sum and this carry, and leaves the other flags as they are.
fn check_sum(
    rt: &impl Abort,
    machine: &mut Machine,
    row: &([u8; 4], [u8; 2], u8),
    before: [u8; 5],
) {
    let ([h, l, b, c], [high, low], carry) = *row;
    let [s, z, ac, p, _] = before;
    machine.set_pc(0x8000);
    machine.set_reg(Reg::H, h);
    machine.set_reg(Reg::L, l);
    machine.set_reg(Reg::B, b);
    machine.set_reg(Reg::C, c);
    set_flags(machine, before);
    check_step(rt, machine, 0x8001, 0);
    check_pairs(rt, machine, [b, c, 0, 0, high, low]);
    check_flags(rt, machine, [s, z, ac, p, carry]);
}

#[test]
fn dad_carries_out_of_bit_15(rt: HostRuntime) -> Result<(), Fail> {
    let mut machine = loaded(rt.alloc(), 0x8000, &[0x09])?;
    for row in &SUMS {
        check_sum(&rt, &mut machine, row, [0, 0, 0, 0, 1]);
        check_sum(&rt, &mut machine, row, [1, 1, 1, 1, 0]);
    }
    Ok(())
}

#[test]
fn dad_h_and_dad_sp_double_a_word(rt: HostRuntime) -> Result<(), Fail> {
    for code in [0x29, 0x39] {
        let mut machine = with_pairs(rt.alloc(), code, 0x80, 0x01)?;
        check_step(&rt, &mut machine, 0x8001, 0x8001);
        check_pairs(&rt, &machine, [0x80, 0x01, 0x80, 0x01, 0x00, 0x02]);
        check_flags(&rt, &machine, [1, 1, 1, 1, 1]);
    }
    Ok(())
}

#[test]
fn m_is_the_last_cell_at_ffffh(rt: HostRuntime) -> Result<(), Fail> {
    // MOV M,A; INR M; ADD M; MVI M,9; DCR M; MOV B,M
    let program = [0x77, 0x34, 0x86, 0x36, 0x09, 0x35, 0x46];
    let mut machine = loaded(rt.alloc(), 0x8000, &program)?;
    machine.set_reg(Reg::H, 0xFF);
    machine.set_reg(Reg::L, 0xFF);
    machine.set_reg(Reg::A, 0x41);
    // the program counter, the cell and A after each
    for (pc, cell, a) in [
        (0x8001, 0x41, 0x41),
        (0x8002, 0x42, 0x41),
        (0x8003, 0x42, 0x83),
        (0x8005, 0x09, 0x83),
        (0x8006, 0x08, 0x83),
        (0x8007, 0x08, 0x83),
    ] {
        check_step(&rt, &mut machine, pc, 0);
        check_cells(&rt, &machine, &[(0xFFFF, cell)]);
        check_regs(&rt, &machine, &[(Reg::A, a)]);
    }
    check_regs(&rt, &machine, &[(Reg::B, 0x08)]);
    check_cells(&rt, &machine, &[(0x0000, 0x00)]);
    Ok(())
}
