//! The worked examples of the 8080 manual, and short programs.
use super::{check_cells, check_flags, check_operation, check_regs, check_step, loaded, place};
use sp_base::{Loc, Reg};
use sp_machine::{Event, Machine};
use std::test::Fail;

#[test]
fn a_machine_keeps_its_parts(rt: HostRuntime) -> Result<(), Fail> {
    let mut machine = Machine::new(rt.alloc())?;
    machine.set_reg(Reg::H, 7);
    machine.set_flag(Loc::Ac, 1);
    machine.set_sp(0xFFFF);
    machine.set_pc(3);
    machine.set_cell(0xFFFF, 0xC9);
    let copy = machine.copy()?;
    machine.set_cell(0xFFFF, 1);
    check_regs(&rt, &copy, &[(Reg::H, 7)]);
    check_flags(&rt, &copy, [0, 0, 1, 0, 0]);
    check_cells(&rt, &copy, &[(0xFFFF, 0xC9), (0, 0)]);
    assert_eq!(rt; place(&copy), (3, 0xFFFF));
    assert!(rt; !copy.halted());
    Ok(())
}

/// An operation's byte, then A, B, AC and CY before it, and A and the flags S, Z, AC, P and CY after it.
static OPERATIONS: [(u8, [u8; 4], u8, [u8; 5]); 24] = [
    // ADD and ADC B
    (0x80, [0x6C, 0x2E, 0, 0], 0x9A, [1, 0, 1, 1, 0]),
    (0x80, [0xFF, 0x01, 0, 1], 0x00, [0, 1, 1, 1, 1]),
    (0x88, [0x3D, 0x42, 0, 1], 0x80, [1, 0, 1, 0, 0]),
    (0x88, [0x3D, 0x42, 0, 0], 0x7F, [0, 0, 0, 0, 0]),
    // SUB and SBB B, SUB A
    (0x90, [0x3E, 0x3E, 0, 0], 0x00, [0, 1, 1, 1, 0]),
    (0x90, [0x00, 0x01, 0, 0], 0xFF, [1, 0, 0, 1, 1]),
    (0x90, [0x10, 0x01, 1, 1], 0x0F, [0, 0, 0, 1, 0]),
    (0x98, [0x04, 0x02, 0, 1], 0x01, [0, 0, 1, 0, 0]),
    (0x98, [0x10, 0x0F, 1, 1], 0x00, [0, 1, 0, 1, 0]),
    (0x97, [0x77, 0x00, 0, 1], 0x00, [0, 1, 1, 1, 0]),
    // SBB A
    (0x9F, [0x77, 0x00, 0, 1], 0xFF, [1, 0, 0, 1, 1]),
    // CMP B
    (0xB8, [0x0A, 0x05, 0, 1], 0x0A, [0, 0, 1, 1, 0]),
    (0xB8, [0x02, 0x05, 1, 0], 0x02, [1, 0, 0, 0, 1]),
    // ANA, XRA and ORA B
    (0xA0, [0xFC, 0x0F, 0, 1], 0x0C, [0, 0, 1, 1, 0]),
    (0xA0, [0x07, 0x70, 1, 1], 0x00, [0, 1, 0, 1, 0]),
    (0xA8, [0x5C, 0x78, 1, 1], 0x24, [0, 0, 0, 1, 0]),
    (0xB0, [0x33, 0x0F, 1, 1], 0x3F, [0, 0, 0, 1, 0]),
    // INR and DCR A, which leave CY
    (0x3C, [0x0F, 0x00, 0, 1], 0x10, [0, 0, 1, 0, 1]),
    (0x3C, [0xFF, 0x00, 0, 0], 0x00, [0, 1, 1, 1, 0]),
    (0x3D, [0x10, 0x00, 1, 1], 0x0F, [0, 0, 0, 1, 1]),
    (0x3D, [0x01, 0x00, 0, 0], 0x00, [0, 1, 1, 1, 0]),
    // RLC, RAR and DAA
    (0x07, [0xF2, 0x00, 0, 0], 0xE5, [0, 0, 0, 0, 1]),
    (0x1F, [0x6A, 0x00, 0, 1], 0xB5, [0, 0, 0, 0, 0]),
    (0x27, [0x9B, 0x00, 0, 0], 0x01, [0, 0, 1, 0, 1]),
];

#[test]
fn operations_set_a_and_the_flags(rt: HostRuntime) -> Result<(), Fail> {
    for (code, [a, b, ac, cy], result, after) in &OPERATIONS {
        let mut machine = loaded(rt.alloc(), 0, &[*code])?;
        let before = [0, 0, *ac, 0, *cy];
        check_operation(&rt, &mut machine, [*a, *b], before, *result, *after);
    }
    Ok(())
}

/// A, AC and CY after DAA, from those before it.
fn adjusted(a: u8, ac: u8, cy: u8) -> (u8, u8, u8) {
    let (high, low) = (a >> 4, a & 15);
    let corrects_low = low >= 10 || ac == 1;
    let corrects_high = cy == 1 || high >= 10 || (high == 9 && low >= 10);
    let mut sum = a;
    if corrects_low {
        sum = sum.wrapping_add(6);
    }
    if corrects_high {
        sum = sum.wrapping_add(0x60);
    }
    let carries = corrects_low && low >= 10;
    (sum, u8::from(carries), u8::from(corrects_high))
}

#[test]
fn daa_corrects_each_digit(rt: HostRuntime) -> Result<(), Fail> {
    let mut machine = loaded(rt.alloc(), 0, &[0x27])?;
    for case in 0..1024u32 {
        let a = (case % 256) as u8;
        let ac = (case / 256 % 2) as u8;
        let cy = (case / 512) as u8 % 2;
        machine.set_pc(0);
        machine.set_reg(Reg::A, a);
        machine.set_flag(Loc::Ac, ac);
        machine.set_flag(Loc::Cy, cy);
        let _ = machine.step(0);
        assert_eq!(rt;
            (
                machine.reg(Reg::A),
                machine.flag(Loc::Ac),
                machine.flag(Loc::Cy)
            ),
            adjusted(a, ac, cy),
            "{case}"
        );
    }
    Ok(())
}

#[test]
fn the_stack_holds_words_low_byte_first(rt: HostRuntime) -> Result<(), Fail> {
    // PUSH PSW, XTHL, POP PSW at the top of memory
    let mut machine = loaded(rt.alloc(), 0x100, &[0xF5, 0xE3, 0xF1])?;
    machine.set_reg(Reg::A, 0x1F);
    machine.set_flag(Loc::Z, 1);
    machine.set_flag(Loc::P, 1);
    machine.set_flag(Loc::Cy, 1);
    machine.set_sp(1);
    check_step(&rt, &mut machine, 0x101, 0xFFFF);
    check_cells(&rt, &machine, &[(0, 0x1F), (0xFFFF, 0x47)]);
    machine.set_reg(Reg::H, 0xAB);
    machine.set_reg(Reg::L, 0x94);
    check_step(&rt, &mut machine, 0x102, 0xFFFF);
    check_regs(&rt, &machine, &[(Reg::H, 0x1F), (Reg::L, 0x47)]);
    check_step(&rt, &mut machine, 0x103, 1);
    check_regs(&rt, &machine, &[(Reg::A, 0xAB)]);
    check_flags(&rt, &machine, [1, 0, 1, 1, 0]);
    Ok(())
}

#[test]
fn programs_go_on_where_they_are_sent(rt: HostRuntime) -> Result<(), Fail> {
    // JMP 0200H, its last byte at address 0
    let mut machine = loaded(rt.alloc(), 0xFFFE, &[0xC3, 0x00, 0x02])?;
    // CALL 0300H, and there RNZ, RZ
    machine.set_cell(0x0200, 0xCD);
    machine.set_cell(0x0202, 0x03);
    machine.set_cell(0x0300, 0xC0);
    machine.set_cell(0x0301, 0xC8);
    // RST 2, and there HLT
    machine.set_cell(0x0203, 0xD7);
    machine.set_cell(0x0010, 0x76);
    machine.set_flag(Loc::Z, 1);
    machine.set_sp(0x2400);
    for (pc, sp) in [
        (0x0200, 0x2400),
        (0x0300, 0x23FE),
        (0x0301, 0x23FE),
        (0x0203, 0x2400),
        (0x0010, 0x23FE),
    ] {
        check_step(&rt, &mut machine, pc, sp);
    }
    check_cells(&rt, &machine, &[(0x23FE, 0x04), (0x23FF, 0x02)]);
    assert_eq!(rt; (machine.step(0), machine.halted()), (Event::Halted, true));
    assert_eq!(rt; (machine.step(0), machine.pc()), (Event::Halted, 0x0010));
    Ok(())
}

#[test]
fn ports_and_unused_bytes_are_told(rt: HostRuntime) -> Result<(), Fail> {
    // IN 10H, OUT 20H, then a byte that begins no instruction
    let mut machine = loaded(rt.alloc(), 0, &[0xDB, 0x10, 0xD3, 0x20, 0xED])?;
    assert_eq!(rt; machine.step(0xFF), Event::In(0x10));
    check_regs(&rt, &machine, &[(Reg::A, 0xFF)]);
    assert_eq!(rt; machine.step(0), Event::Out(0x20, 0xFF));
    assert_eq!(rt; (machine.step(0), machine.pc()), (Event::Stuck(0xED), 4));
    Ok(())
}
