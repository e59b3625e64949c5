ghost use Rattle.std.specs.Prelude.{◌≡◌, ◌≤◌, IfOk, true};
ghost use Rattle.sp_isa.specs.Core.{IsCore, IsBlank, IsFlag, at, reg_of, cell, with_reg, with_flag, with_sp, with_pc, with_cell, with_halted};

use sp_base::{Loc, Memory, Reg};
use std::alloc::Global;
use std::marker::Model;

/// An 8080 with 65,536 bytes of memory. Contracts see its core.
#[derive(Debug, Drop)]
pub struct Machine {
    b: u8,
    c: u8,
    d: u8,
    e: u8,
    h: u8,
    l: u8,
    a: u8,
    s: u8,
    z: u8,
    ac: u8,
    p: u8,
    cy: u8,
    sp: u16,
    pc: u16,
    halted: bool,
    cells: Vec<u8>,
}

impl Model for Machine {
    ghost use Rattle.sp_isa.specs.Core.{Core};

    ghost Value = { Core };

    ghost use Rattle.sp_machine.specs.code.Machine.{core_of, IsMachine};

    ghost view = { core_of };

    ghost invariant = { IsMachine };
}

impl Machine {
    /// A machine with 0 in every register, flag and cell, not halted.
    pub fn new(alloc: Global) -> Result<Machine, Memory>
        ensures { IfOk result IsBlank }
    {
        Ok(Machine {
            b: 0,
            c: 0,
            d: 0,
            e: 0,
            h: 0,
            l: 0,
            a: 0,
            s: 0,
            z: 0,
            ac: 0,
            p: 0,
            cy: 0,
            sp: 0,
            pc: 0,
            halted: false,
            cells: vec![in alloc; 0u8; 65_536]?,
        })
    }

    /// An equal machine.
    pub fn copy(&self) -> Result<Machine, Memory>
        ensures { IfOk result (λ machine. machine ≡ self.now) }
    {
        Ok(Machine {
            b: self.b,
            c: self.c,
            d: self.d,
            e: self.e,
            h: self.h,
            l: self.l,
            a: self.a,
            s: self.s,
            z: self.z,
            ac: self.ac,
            p: self.p,
            cy: self.cy,
            sp: self.sp,
            pc: self.pc,
            halted: self.halted,
            cells: self.cells.clone()?,
        })
    }

    /// The byte in a register.
    #[tactic(auto, using(crate::proofs::MachineLemmas::is_core))]
    pub fn reg(&self, r: Reg) -> u8
        ensures value { result ≡ reg_of r self.now }
        ensures core { IsCore self.now }
    {
        match r {
            Reg::B => self.b,
            Reg::C => self.c,
            Reg::D => self.d,
            Reg::E => self.e,
            Reg::H => self.h,
            Reg::L => self.l,
            Reg::A => self.a,
        }
    }

    /// The value of a flag, 0 or 1.
    pub fn flag(&self, f: Loc) -> u8
        requires { IsFlag f }
        ensures value { result ≡ at f self.now }
        ensures within { result ≤ 1 }
    {
        match f {
            Loc::S => self.s,
            Loc::Z => self.z,
            Loc::Ac => self.ac,
            Loc::P => self.p,
            Loc::Cy => self.cy,
            _ => unreachable!(),
        }
    }

    /// The stack pointer.
    #[tactic(auto, using(crate::proofs::MachineLemmas::is_core))]
    pub fn sp(&self) -> u16
        ensures value { result ≡ self.now.sp }
        ensures core { IsCore self.now }
    {
        self.sp
    }

    /// The program counter.
    #[tactic(auto, using(crate::proofs::MachineLemmas::is_core))]
    pub fn pc(&self) -> u16
        ensures value { result ≡ self.now.pc }
        ensures core { IsCore self.now }
    {
        self.pc
    }

    /// The byte at an address.
    #[tactic(auto, using(crate::proofs::MachineLemmas::is_core))]
    pub fn cell(&self, a: u16) -> u8
        ensures value { result ≡ cell a self.now }
        ensures core { IsCore self.now }
    {
        self.cells[a as usize]
    }

    /// Whether a HLT has run.
    #[tactic(auto, using(crate::proofs::MachineLemmas::is_core))]
    pub fn halted(&self) -> bool
        ensures value { result ≡ self.now.halted }
        ensures core { IsCore self.now }
    {
        self.halted
    }

    /// Puts a byte into a register.
    #[tactic(auto, unfolding(sp_isa::specs::Core::with_reg))]
    pub fn set_reg(&mut self, r: Reg, v: u8)
        ensures { self.new ≡ with_reg r v self.old }
    {
        match r {
            Reg::B => self.b = v,
            Reg::C => self.c = v,
            Reg::D => self.d = v,
            Reg::E => self.e = v,
            Reg::H => self.h = v,
            Reg::L => self.l = v,
            Reg::A => self.a = v,
        }
    }

    /// Gives a flag a value, 0 or 1.
    #[tactic(auto, unfolding(sp_isa::specs::Core::with_flag))]
    pub fn set_flag(&mut self, f: Loc, v: u8)
        requires flag { IsFlag f }
        requires value { v ≤ 1 }
        ensures { self.new ≡ with_flag f v self.old }
    {
        match f {
            Loc::S => self.s = v,
            Loc::Z => self.z = v,
            Loc::Ac => self.ac = v,
            Loc::P => self.p = v,
            Loc::Cy => self.cy = v,
            _ => unreachable!(),
        }
    }

    /// Sets the stack pointer.
    #[tactic(auto, unfolding(sp_isa::specs::Core::with_sp))]
    pub fn set_sp(&mut self, v: u16)
        ensures { self.new ≡ with_sp v self.old }
    {
        self.sp = v;
    }

    /// Sets the program counter.
    #[tactic(auto, unfolding(sp_isa::specs::Core::with_pc))]
    pub fn set_pc(&mut self, v: u16)
        ensures { self.new ≡ with_pc v self.old }
    {
        self.pc = v;
    }

    /// Puts a byte at an address.
    #[tactic(auto, unfolding(sp_isa::specs::Core::with_cell))]
    pub fn set_cell(&mut self, a: u16, v: u8)
        ensures { self.new ≡ with_cell a v self.old }
    {
        self.cells[a as usize] = v;
    }

    #[tactic(auto, unfolding(sp_isa::specs::Core::with_halted))]
    pub(crate) fn halt(&mut self)
        ensures { self.new ≡ with_halted true self.old }
    {
        self.halted = true;
    }
}
