//! The three states in which notes are evaluated.
use sp_base::{Loc, Memory, Reg};
use sp_logic::Frame;
use sp_machine::Machine;
use std::alloc::Global;

/// The registers A, B, C, D, E, H, L and the flags S, Z, AC, P, CY of a machine, and its cells that aren't 0.
pub struct Contents {
    registers: [u8; 7],
    flags: [bool; 5],
    cells: &'static [(u16, u8)],
}

/// A state: a frame, what the machine had at entry, and what it has now.
pub struct State {
    pub frame: Frame,
    pub entry: Contents,
    pub now: Contents,
}

/// A machine with these contents.
pub fn machine_of(alloc: Global, contents: &Contents) -> Result<Machine, Memory> {
    let mut machine = Machine::new(alloc)?;
    let [a, b, c, d, e, h, l] = contents.registers;
    machine.set_reg(Reg::A, a);
    machine.set_reg(Reg::B, b);
    machine.set_reg(Reg::C, c);
    machine.set_reg(Reg::D, d);
    machine.set_reg(Reg::E, e);
    machine.set_reg(Reg::H, h);
    machine.set_reg(Reg::L, l);
    let [s, z, ac, p, cy] = contents.flags;
    machine.set_flag(Loc::S, u8::from(s));
    machine.set_flag(Loc::Z, u8::from(z));
    machine.set_flag(Loc::Ac, u8::from(ac));
    machine.set_flag(Loc::P, u8::from(p));
    machine.set_flag(Loc::Cy, u8::from(cy));
    for (address, byte) in contents.cells {
        machine.set_cell(*address, *byte);
    }
    Ok(machine)
}

pub static STATES: [State; 3] = [
    State {
        frame: Frame {
            first: 8960,
            last: 9215,
            base: 9200,
        },
        entry: Contents {
            registers: [5, 1, 200, 32, 3, 32, 0],
            flags: [false, true, false, true, false],
            cells: &[
                (8192, 1),
                (8193, 2),
                (8194, 3),
                (8207, 16),
                (8208, 7),
                (8210, 52),
                (8211, 18),
                (65534, 254),
                (65535, 255),
                (0, 9),
                (9198, 11),
            ],
        },
        now: Contents {
            registers: [6, 0, 201, 32, 4, 32, 16],
            flags: [true, false, true, false, true],
            cells: &[
                (8192, 10),
                (8193, 20),
                (8194, 30),
                (8195, 40),
                (8207, 160),
                (8208, 8),
                (8209, 77),
                (8210, 53),
                (8211, 19),
                (65534, 1),
                (65535, 2),
                (0, 3),
                (1, 4),
                (2, 5),
                (3, 6),
                (8959, 99),
                (8960, 98),
                (9198, 205),
                (9199, 171),
                (9196, 1),
                (9197, 2),
                (9215, 97),
                (9216, 96),
            ],
        },
    },
    State {
        frame: Frame {
            first: 8960,
            last: 9215,
            base: 3,
        },
        entry: Contents {
            registers: [255, 255, 255, 0, 0, 255, 255],
            flags: [true, true, true, true, true],
            cells: &[
                (0, 255),
                (1, 254),
                (2, 253),
                (3, 252),
                (4, 251),
                (5, 250),
                (6, 249),
                (7, 248),
                (8, 247),
                (9, 246),
                (10, 245),
                (11, 244),
                (12, 243),
                (13, 242),
                (14, 241),
                (15, 240),
                (8192, 0),
                (8193, 3),
                (8194, 6),
                (8195, 9),
                (8196, 12),
                (8197, 15),
                (8198, 18),
                (8199, 21),
                (8200, 24),
                (8201, 27),
                (8202, 30),
                (8203, 33),
                (8204, 36),
                (8205, 39),
                (8206, 42),
                (8207, 45),
                (8208, 255),
                (8210, 255),
                (8211, 255),
                (65535, 200),
            ],
        },
        now: Contents {
            registers: [0, 0, 0, 128, 127, 0, 5],
            flags: [false, false, false, false, false],
            cells: &[
                (0, 0),
                (1, 17),
                (2, 34),
                (3, 51),
                (4, 68),
                (5, 85),
                (6, 102),
                (7, 119),
                (8, 136),
                (9, 153),
                (10, 170),
                (11, 187),
                (12, 204),
                (13, 221),
                (14, 238),
                (15, 255),
                (8192, 255),
                (8193, 255),
                (8194, 255),
                (8195, 255),
                (8196, 255),
                (8197, 255),
                (8198, 255),
                (8199, 255),
                (8200, 255),
                (8201, 255),
                (8202, 255),
                (8203, 255),
                (8204, 255),
                (8205, 255),
                (8206, 255),
                (8207, 255),
                (8208, 0),
                (8209, 1),
                (8210, 0),
                (8211, 128),
                (65534, 33),
                (65535, 44),
                (65533, 55),
                (65532, 66),
            ],
        },
    },
    State {
        frame: Frame {
            first: 1,
            last: 65534,
            base: 65535,
        },
        entry: Contents {
            registers: [16, 32, 64, 8, 4, 2, 1],
            flags: [false, false, true, false, true],
            cells: &[(0, 200), (1, 201), (8192, 50), (65534, 60), (65535, 70)],
        },
        now: Contents {
            registers: [16, 32, 64, 8, 4, 2, 1],
            flags: [false, false, true, false, true],
            cells: &[
                (0, 100),
                (1, 101),
                (8192, 51),
                (65532, 59),
                (65533, 61),
                (65534, 62),
                (65535, 71),
            ],
        },
    },
];
