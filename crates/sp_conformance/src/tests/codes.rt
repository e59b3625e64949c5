//! The table of codes of the 8080 manual, written out, byte for byte.
use sp_base::{Pair, Reg};
use sp_isa::Instr::*;
use sp_isa::{Arg, Cond, Instr, Op, StackPair, decode, encode, valid};
use std::alloc::Global;
use std::process::Abort;
use std::test::Fail;

const A: Arg = Arg::Reg(Reg::A);

const B: Arg = Arg::Reg(Reg::B);

const C: Arg = Arg::Reg(Reg::C);

const D: Arg = Arg::Reg(Reg::D);

const E: Arg = Arg::Reg(Reg::E);

const H: Arg = Arg::Reg(Reg::H);

const L: Arg = Arg::Reg(Reg::L);

const M: Arg = Arg::M;

/// A code, with operand bytes as an example, beside its instruction.
type Row = (&'static [u8], Instr);

/// The codes whose first bytes are 00H to 3FH, in that order.
static FIRST_QUARTER: [Row; 57] = [
    (&[0x00], Nop),
    (&[0x01, 0x34, 0x12], Lxi(Pair::B, 0x1234)),
    (&[0x02], Stax(Pair::B)),
    (&[0x03], Inx(Pair::B)),
    (&[0x04], Inr(B)),
    (&[0x05], Dcr(B)),
    (&[0x06, 0x12], Mvi(B, 0x12)),
    (&[0x07], Rlc),
    (&[0x09], Dad(Pair::B)),
    (&[0x0A], Ldax(Pair::B)),
    (&[0x0B], Dcx(Pair::B)),
    (&[0x0C], Inr(C)),
    (&[0x0D], Dcr(C)),
    (&[0x0E, 0x00], Mvi(C, 0x00)),
    (&[0x0F], Rrc),
    (&[0x11, 0xFF, 0x00], Lxi(Pair::D, 0x00FF)),
    (&[0x12], Stax(Pair::D)),
    (&[0x13], Inx(Pair::D)),
    (&[0x14], Inr(D)),
    (&[0x15], Dcr(D)),
    (&[0x16, 0xFF], Mvi(D, 0xFF)),
    (&[0x17], Ral),
    (&[0x19], Dad(Pair::D)),
    (&[0x1A], Ldax(Pair::D)),
    (&[0x1B], Dcx(Pair::D)),
    (&[0x1C], Inr(E)),
    (&[0x1D], Dcr(E)),
    (&[0x1E, 0x80], Mvi(E, 0x80)),
    (&[0x1F], Rar),
    (&[0x21, 0x00, 0xFF], Lxi(Pair::H, 0xFF00)),
    (&[0x22, 0x00, 0x00], Shld(0x0000)),
    (&[0x23], Inx(Pair::H)),
    (&[0x24], Inr(H)),
    (&[0x25], Dcr(H)),
    (&[0x26, 0x7F], Mvi(H, 0x7F)),
    (&[0x27], Daa),
    (&[0x29], Dad(Pair::H)),
    (&[0x2A, 0xFF, 0xFF], Lhld(0xFFFF)),
    (&[0x2B], Dcx(Pair::H)),
    (&[0x2C], Inr(L)),
    (&[0x2D], Dcr(L)),
    (&[0x2E, 0x12], Mvi(L, 0x12)),
    (&[0x2F], Cma),
    (&[0x31, 0xCD, 0xAB], Lxi(Pair::Sp, 0xABCD)),
    (&[0x32, 0x34, 0x12], Sta(0x1234)),
    (&[0x33], Inx(Pair::Sp)),
    (&[0x34], Inr(M)),
    (&[0x35], Dcr(M)),
    (&[0x36, 0x00], Mvi(M, 0x00)),
    (&[0x37], Stc),
    (&[0x39], Dad(Pair::Sp)),
    (&[0x3A, 0xFF, 0x00], Lda(0x00FF)),
    (&[0x3B], Dcx(Pair::Sp)),
    (&[0x3C], Inr(A)),
    (&[0x3D], Dcr(A)),
    (&[0x3E, 0xFF], Mvi(A, 0xFF)),
    (&[0x3F], Cmc),
];

/// The codes whose first bytes are 40H to 7FH, in that order.
static SECOND_QUARTER: [Row; 64] = [
    (&[0x40], Mov(B, B)),
    (&[0x41], Mov(B, C)),
    (&[0x42], Mov(B, D)),
    (&[0x43], Mov(B, E)),
    (&[0x44], Mov(B, H)),
    (&[0x45], Mov(B, L)),
    (&[0x46], Mov(B, M)),
    (&[0x47], Mov(B, A)),
    (&[0x48], Mov(C, B)),
    (&[0x49], Mov(C, C)),
    (&[0x4A], Mov(C, D)),
    (&[0x4B], Mov(C, E)),
    (&[0x4C], Mov(C, H)),
    (&[0x4D], Mov(C, L)),
    (&[0x4E], Mov(C, M)),
    (&[0x4F], Mov(C, A)),
    (&[0x50], Mov(D, B)),
    (&[0x51], Mov(D, C)),
    (&[0x52], Mov(D, D)),
    (&[0x53], Mov(D, E)),
    (&[0x54], Mov(D, H)),
    (&[0x55], Mov(D, L)),
    (&[0x56], Mov(D, M)),
    (&[0x57], Mov(D, A)),
    (&[0x58], Mov(E, B)),
    (&[0x59], Mov(E, C)),
    (&[0x5A], Mov(E, D)),
    (&[0x5B], Mov(E, E)),
    (&[0x5C], Mov(E, H)),
    (&[0x5D], Mov(E, L)),
    (&[0x5E], Mov(E, M)),
    (&[0x5F], Mov(E, A)),
    (&[0x60], Mov(H, B)),
    (&[0x61], Mov(H, C)),
    (&[0x62], Mov(H, D)),
    (&[0x63], Mov(H, E)),
    (&[0x64], Mov(H, H)),
    (&[0x65], Mov(H, L)),
    (&[0x66], Mov(H, M)),
    (&[0x67], Mov(H, A)),
    (&[0x68], Mov(L, B)),
    (&[0x69], Mov(L, C)),
    (&[0x6A], Mov(L, D)),
    (&[0x6B], Mov(L, E)),
    (&[0x6C], Mov(L, H)),
    (&[0x6D], Mov(L, L)),
    (&[0x6E], Mov(L, M)),
    (&[0x6F], Mov(L, A)),
    (&[0x70], Mov(M, B)),
    (&[0x71], Mov(M, C)),
    (&[0x72], Mov(M, D)),
    (&[0x73], Mov(M, E)),
    (&[0x74], Mov(M, H)),
    (&[0x75], Mov(M, L)),
    (&[0x76], Hlt),
    (&[0x77], Mov(M, A)),
    (&[0x78], Mov(A, B)),
    (&[0x79], Mov(A, C)),
    (&[0x7A], Mov(A, D)),
    (&[0x7B], Mov(A, E)),
    (&[0x7C], Mov(A, H)),
    (&[0x7D], Mov(A, L)),
    (&[0x7E], Mov(A, M)),
    (&[0x7F], Mov(A, A)),
];

/// The codes whose first bytes are 80H to BFH, in that order.
static THIRD_QUARTER: [Row; 64] = [
    (&[0x80], Alu(Op::Add, B)),
    (&[0x81], Alu(Op::Add, C)),
    (&[0x82], Alu(Op::Add, D)),
    (&[0x83], Alu(Op::Add, E)),
    (&[0x84], Alu(Op::Add, H)),
    (&[0x85], Alu(Op::Add, L)),
    (&[0x86], Alu(Op::Add, M)),
    (&[0x87], Alu(Op::Add, A)),
    (&[0x88], Alu(Op::Adc, B)),
    (&[0x89], Alu(Op::Adc, C)),
    (&[0x8A], Alu(Op::Adc, D)),
    (&[0x8B], Alu(Op::Adc, E)),
    (&[0x8C], Alu(Op::Adc, H)),
    (&[0x8D], Alu(Op::Adc, L)),
    (&[0x8E], Alu(Op::Adc, M)),
    (&[0x8F], Alu(Op::Adc, A)),
    (&[0x90], Alu(Op::Sub, B)),
    (&[0x91], Alu(Op::Sub, C)),
    (&[0x92], Alu(Op::Sub, D)),
    (&[0x93], Alu(Op::Sub, E)),
    (&[0x94], Alu(Op::Sub, H)),
    (&[0x95], Alu(Op::Sub, L)),
    (&[0x96], Alu(Op::Sub, M)),
    (&[0x97], Alu(Op::Sub, A)),
    (&[0x98], Alu(Op::Sbb, B)),
    (&[0x99], Alu(Op::Sbb, C)),
    (&[0x9A], Alu(Op::Sbb, D)),
    (&[0x9B], Alu(Op::Sbb, E)),
    (&[0x9C], Alu(Op::Sbb, H)),
    (&[0x9D], Alu(Op::Sbb, L)),
    (&[0x9E], Alu(Op::Sbb, M)),
    (&[0x9F], Alu(Op::Sbb, A)),
    (&[0xA0], Alu(Op::Ana, B)),
    (&[0xA1], Alu(Op::Ana, C)),
    (&[0xA2], Alu(Op::Ana, D)),
    (&[0xA3], Alu(Op::Ana, E)),
    (&[0xA4], Alu(Op::Ana, H)),
    (&[0xA5], Alu(Op::Ana, L)),
    (&[0xA6], Alu(Op::Ana, M)),
    (&[0xA7], Alu(Op::Ana, A)),
    (&[0xA8], Alu(Op::Xra, B)),
    (&[0xA9], Alu(Op::Xra, C)),
    (&[0xAA], Alu(Op::Xra, D)),
    (&[0xAB], Alu(Op::Xra, E)),
    (&[0xAC], Alu(Op::Xra, H)),
    (&[0xAD], Alu(Op::Xra, L)),
    (&[0xAE], Alu(Op::Xra, M)),
    (&[0xAF], Alu(Op::Xra, A)),
    (&[0xB0], Alu(Op::Ora, B)),
    (&[0xB1], Alu(Op::Ora, C)),
    (&[0xB2], Alu(Op::Ora, D)),
    (&[0xB3], Alu(Op::Ora, E)),
    (&[0xB4], Alu(Op::Ora, H)),
    (&[0xB5], Alu(Op::Ora, L)),
    (&[0xB6], Alu(Op::Ora, M)),
    (&[0xB7], Alu(Op::Ora, A)),
    (&[0xB8], Alu(Op::Cmp, B)),
    (&[0xB9], Alu(Op::Cmp, C)),
    (&[0xBA], Alu(Op::Cmp, D)),
    (&[0xBB], Alu(Op::Cmp, E)),
    (&[0xBC], Alu(Op::Cmp, H)),
    (&[0xBD], Alu(Op::Cmp, L)),
    (&[0xBE], Alu(Op::Cmp, M)),
    (&[0xBF], Alu(Op::Cmp, A)),
];

/// The codes whose first bytes are C0H to FFH, in that order.
static FOURTH_QUARTER: [Row; 59] = [
    (&[0xC0], Rcc(Cond::Nz)),
    (&[0xC1], Pop(StackPair::B)),
    (&[0xC2, 0x00, 0xFF], Jcc(Cond::Nz, 0xFF00)),
    (&[0xC3, 0x00, 0x00], Jmp(0x0000)),
    (&[0xC4, 0xFF, 0xFF], Ccc(Cond::Nz, 0xFFFF)),
    (&[0xC5], Push(StackPair::B)),
    (&[0xC6, 0x80], AluImmediate(Op::Add, 0x80)),
    (&[0xC7], Rst(0)),
    (&[0xC8], Rcc(Cond::Z)),
    (&[0xC9], Ret),
    (&[0xCA, 0xCD, 0xAB], Jcc(Cond::Z, 0xABCD)),
    (&[0xCC, 0x34, 0x12], Ccc(Cond::Z, 0x1234)),
    (&[0xCD, 0xFF, 0x00], Call(0x00FF)),
    (&[0xCE, 0x7F], AluImmediate(Op::Adc, 0x7F)),
    (&[0xCF], Rst(1)),
    (&[0xD0], Rcc(Cond::Nc)),
    (&[0xD1], Pop(StackPair::D)),
    (&[0xD2, 0x00, 0xFF], Jcc(Cond::Nc, 0xFF00)),
    (&[0xD3, 0x12], Out(0x12)),
    (&[0xD4, 0x00, 0x00], Ccc(Cond::Nc, 0x0000)),
    (&[0xD5], Push(StackPair::D)),
    (&[0xD6, 0x00], AluImmediate(Op::Sub, 0x00)),
    (&[0xD7], Rst(2)),
    (&[0xD8], Rcc(Cond::C)),
    (&[0xDA, 0xFF, 0xFF], Jcc(Cond::C, 0xFFFF)),
    (&[0xDB, 0xFF], In(0xFF)),
    (&[0xDC, 0xCD, 0xAB], Ccc(Cond::C, 0xABCD)),
    (&[0xDE, 0x80], AluImmediate(Op::Sbb, 0x80)),
    (&[0xDF], Rst(3)),
    (&[0xE0], Rcc(Cond::Po)),
    (&[0xE1], Pop(StackPair::H)),
    (&[0xE2, 0x34, 0x12], Jcc(Cond::Po, 0x1234)),
    (&[0xE3], Xthl),
    (&[0xE4, 0xFF, 0x00], Ccc(Cond::Po, 0x00FF)),
    (&[0xE5], Push(StackPair::H)),
    (&[0xE6, 0x7F], AluImmediate(Op::Ana, 0x7F)),
    (&[0xE7], Rst(4)),
    (&[0xE8], Rcc(Cond::Pe)),
    (&[0xE9], Pchl),
    (&[0xEA, 0x00, 0xFF], Jcc(Cond::Pe, 0xFF00)),
    (&[0xEB], Xchg),
    (&[0xEC, 0x00, 0x00], Ccc(Cond::Pe, 0x0000)),
    (&[0xEE, 0x12], AluImmediate(Op::Xra, 0x12)),
    (&[0xEF], Rst(5)),
    (&[0xF0], Rcc(Cond::P)),
    (&[0xF1], Pop(StackPair::Psw)),
    (&[0xF2, 0xFF, 0xFF], Jcc(Cond::P, 0xFFFF)),
    (&[0xF3], Di),
    (&[0xF4, 0xCD, 0xAB], Ccc(Cond::P, 0xABCD)),
    (&[0xF5], Push(StackPair::Psw)),
    (&[0xF6, 0x00], AluImmediate(Op::Ora, 0x00)),
    (&[0xF7], Rst(6)),
    (&[0xF8], Rcc(Cond::M)),
    (&[0xF9], Sphl),
    (&[0xFA, 0x34, 0x12], Jcc(Cond::M, 0x1234)),
    (&[0xFB], Ei),
    (&[0xFC, 0xFF, 0x00], Ccc(Cond::M, 0x00FF)),
    (&[0xFE, 0xFF], AluImmediate(Op::Cmp, 0xFF)),
    (&[0xFF], Rst(7)),
];

/// The first bytes that no instruction has.
const UNUSED: [u8; 12] = [
    0x08, 0x10, 0x18, 0x20, 0x28, 0x30, 0x38, 0xCB, 0xD9, 0xDD, 0xED, 0xFD,
];

fn is_unused(first: u8) -> bool {
    UNUSED.contains(&first)
}

/// The first three bytes of a list, 0 where there are fewer.
fn front(bytes: &[u8]) -> [u8; 3] {
    match bytes {
        [] => [0, 0, 0],
        [first] => [*first, 0, 0],
        [first, second] => [*first, *second, 0],
        [first, second, third, ..] => [*first, *second, *third],
    }
}

/// An instruction has these bytes, and they decode to it and their length.
fn check_code(rt: &impl Abort, alloc: Global, bytes: &[u8], i: &Instr) {
    assert!(rt; valid(i));
    assert_eq!(rt; encode(alloc, i).as_slice(), bytes);
    let (decoded, length) = decode(front(bytes)).expect(rt, "a code decodes");
    assert_eq!(rt; (decoded, length as usize), (*i, bytes.len()));
}

/// Each row is right, and the rows are in the order of their first bytes: those of the 64 from `start` on that begin an
/// instruction.
fn check_quarter(rt: &impl Abort, alloc: Global, start: u8, rows: &[Row]) {
    let mut first = start;
    for (bytes, i) in rows {
        // no two that are unused follow one another
        if is_unused(first) {
            first = first.wrapping_add(1);
        }
        assert_eq!(rt; front(bytes)[0], first);
        check_code(rt, alloc, bytes, i);
        first = first.wrapping_add(1);
    }
    assert_eq!(rt; first, start.wrapping_add(64));
}

#[test]
fn codes_of_the_first_quarter(rt: HostRuntime) {
    check_quarter(&rt, rt.alloc(), 0x00, &FIRST_QUARTER);
}

#[test]
fn codes_of_the_second_quarter(rt: HostRuntime) {
    check_quarter(&rt, rt.alloc(), 0x40, &SECOND_QUARTER);
}

#[test]
fn codes_of_the_third_quarter(rt: HostRuntime) {
    check_quarter(&rt, rt.alloc(), 0x80, &THIRD_QUARTER);
}

#[test]
fn codes_of_the_fourth_quarter(rt: HostRuntime) {
    check_quarter(&rt, rt.alloc(), 0xC0, &FOURTH_QUARTER);
}

#[test]
fn twelve_first_bytes_decode_to_nothing(rt: HostRuntime) -> Result<(), Fail> {
    for first in 0..=255u8 {
        let nothing = decode([first, 1, 2]).is_none();
        assert_eq!(rt; nothing, is_unused(first), "{first}");
    }
    Ok(())
}

#[test]
fn operands_that_no_code_has_are_invalid(rt: HostRuntime) -> Result<(), Fail> {
    assert!(rt; !valid(&Mov(M, M)));
    assert!(rt; !valid(&Stax(Pair::H)));
    assert!(rt; !valid(&Ldax(Pair::Sp)));
    assert!(rt; !valid(&Rst(8)));
    Ok(())
}
