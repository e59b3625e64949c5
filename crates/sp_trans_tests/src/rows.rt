//! Instructions with what they change in three symbolic states.
use crate::states::Texts;

/// The bytes of an instruction, the number of an IN, and the text of what changes.
pub struct Row {
    pub bytes: [u8; 3],
    pub number: u32,
    pub after: &'static str,
}

/// The state at a routine's entry.
pub static ENTRY: Texts = Texts {
    locs: [
        "a~", "b~", "c~", "d~", "e~", "h~", "l~", "s~", "z~", "ac~", "p~", "cy~",
    ],
    mem: "mem~",
    words: &[],
};

/// A state at an assertion, with two words on the stack.
pub static STARTED: Texts = Texts {
    locs: ["a", "b", "c", "d", "e", "h", "l", "s", "z", "ac", "p", "cy"],
    mem: "mem",
    words: &[("stk1h", "stk1l"), ("stk2h", "stk2l")],
};

/// A state after other instructions: B and C are the two parts of one term, D and E of two, and H and L are numbers.
pub static MIXED: Texts = Texts {
    locs: [
        "((a~ + b~) mod 256)",
        "(((((256 * b~) + c~) + 1) mod 65536) div 256)",
        "(((((256 * b~) + c~) + 1) mod 65536) mod 256)",
        "((((256 * d) + e) + 1) div 256)",
        "((((256 * d) + e) + 2) mod 256)",
        "32",
        "0",
        "(((a~ + b~) mod 256) div 128)",
        "if((((a~ + b~) mod 256) = 0),1,0)",
        "ac_1",
        "par(((a~ + b~) mod 256))",
        "((a~ + b~) div 256)",
    ],
    mem: "update(mem_1,[8192],a_1)",
    words: &[("h_1", "l_1"), ("in_1", "psw(s~,z~,ac~,p~,cy~)")],
};

/// What changes in the state at entry.
pub static OF_ENTRY: [Row; 62] = [
    // NOP
    Row {
        bytes: [0x00, 0, 0],
        number: 1,
        after: "",
    },
    // LXI B,0
    Row {
        bytes: [0x01, 0x00, 0x00],
        number: 1,
        after: "B: 0\nC: 0\n",
    },
    // LXI D,256
    Row {
        bytes: [0x11, 0x00, 0x01],
        number: 1,
        after: "D: 1\nE: 0\n",
    },
    // LXI H,4660
    Row {
        bytes: [0x21, 0x34, 0x12],
        number: 1,
        after: "H: 18\nL: 52\n",
    },
    // LXI SP,65535
    Row {
        bytes: [0x31, 0xFF, 0xFF],
        number: 1,
        after: "",
    },
    // STAX B
    Row {
        bytes: [0x02, 0, 0],
        number: 1,
        after: "mem: update(mem~,[((256 * b~) + c~)],a~)\n",
    },
    // LDAX D
    Row {
        bytes: [0x1A, 0, 0],
        number: 1,
        after: "A: element(mem~,[((256 * d~) + e~)])\n",
    },
    // INX B
    Row {
        bytes: [0x03, 0, 0],
        number: 1,
        after: "B: (((((256 * b~) + c~) + 1) mod 65536) div 256)\nC: (((((256 * b~) + c~) + 1) mod 65536) mod 256)\n",
    },
    // DCX D
    Row {
        bytes: [0x1B, 0, 0],
        number: 1,
        after: "D: (((((256 * d~) + e~) - 1) mod 65536) div 256)\nE: (((((256 * d~) + e~) - 1) mod 65536) mod 256)\n",
    },
    // INX H
    Row {
        bytes: [0x23, 0, 0],
        number: 1,
        after: "H: (((((256 * h~) + l~) + 1) mod 65536) div 256)\nL: (((((256 * h~) + l~) + 1) mod 65536) mod 256)\n",
    },
    // DAD B
    Row {
        bytes: [0x09, 0, 0],
        number: 1,
        after: "H: (((((256 * h~) + l~) + ((256 * b~) + c~)) mod 65536) div 256)\nL: (((((256 * h~) + l~) + ((256 * b~) + c~)) mod 65536) mod 256)\nCY: ((((256 * h~) + l~) + ((256 * b~) + c~)) div 65536)\n",
    },
    // DAD H
    Row {
        bytes: [0x29, 0, 0],
        number: 1,
        after: "H: (((((256 * h~) + l~) + ((256 * h~) + l~)) mod 65536) div 256)\nL: (((((256 * h~) + l~) + ((256 * h~) + l~)) mod 65536) mod 256)\nCY: ((((256 * h~) + l~) + ((256 * h~) + l~)) div 65536)\n",
    },
    // INR B
    Row {
        bytes: [0x04, 0, 0],
        number: 1,
        after: "B: ((b~ + 1) mod 256)\nS: (((b~ + 1) mod 256) div 128)\nZ: if((((b~ + 1) mod 256) = 0),1,0)\nAC: if(((((b~ + 1) mod 256) mod 16) = 0),1,0)\nP: par(((b~ + 1) mod 256))\n",
    },
    // DCR C
    Row {
        bytes: [0x0D, 0, 0],
        number: 1,
        after: "C: ((c~ - 1) mod 256)\nS: (((c~ - 1) mod 256) div 128)\nZ: if((((c~ - 1) mod 256) = 0),1,0)\nAC: if(((c~ mod 16) = 0),0,1)\nP: par(((c~ - 1) mod 256))\n",
    },
    // INR M
    Row {
        bytes: [0x34, 0, 0],
        number: 1,
        after: "S: (((element(mem~,[((256 * h~) + l~)]) + 1) mod 256) div 128)\nZ: if((((element(mem~,[((256 * h~) + l~)]) + 1) mod 256) = 0),1,0)\nAC: if(((((element(mem~,[((256 * h~) + l~)]) + 1) mod 256) mod 16) = 0),1,0)\nP: par(((element(mem~,[((256 * h~) + l~)]) + 1) mod 256))\nmem: update(mem~,[((256 * h~) + l~)],((element(mem~,[((256 * h~) + l~)]) + 1) mod 256))\n",
    },
    // DCR M
    Row {
        bytes: [0x35, 0, 0],
        number: 1,
        after: "S: (((element(mem~,[((256 * h~) + l~)]) - 1) mod 256) div 128)\nZ: if((((element(mem~,[((256 * h~) + l~)]) - 1) mod 256) = 0),1,0)\nAC: if(((element(mem~,[((256 * h~) + l~)]) mod 16) = 0),0,1)\nP: par(((element(mem~,[((256 * h~) + l~)]) - 1) mod 256))\nmem: update(mem~,[((256 * h~) + l~)],((element(mem~,[((256 * h~) + l~)]) - 1) mod 256))\n",
    },
    // MVI B,1
    Row {
        bytes: [0x06, 0x01, 0],
        number: 1,
        after: "B: 1\n",
    },
    // MVI M,128
    Row {
        bytes: [0x36, 0x80, 0],
        number: 1,
        after: "mem: update(mem~,[((256 * h~) + l~)],128)\n",
    },
    // MOV B,C
    Row {
        bytes: [0x41, 0, 0],
        number: 1,
        after: "B: c~\n",
    },
    // MOV A,M
    Row {
        bytes: [0x7E, 0, 0],
        number: 1,
        after: "A: element(mem~,[((256 * h~) + l~)])\n",
    },
    // MOV M,A
    Row {
        bytes: [0x77, 0, 0],
        number: 1,
        after: "mem: update(mem~,[((256 * h~) + l~)],a~)\n",
    },
    // MOV H,L
    Row {
        bytes: [0x65, 0, 0],
        number: 1,
        after: "H: l~\n",
    },
    // RLC
    Row {
        bytes: [0x07, 0, 0],
        number: 1,
        after: "A: (((2 * a~) mod 256) + (a~ div 128))\nCY: (a~ div 128)\n",
    },
    // RRC
    Row {
        bytes: [0x0F, 0, 0],
        number: 1,
        after: "A: ((a~ div 2) + (128 * (a~ mod 2)))\nCY: (a~ mod 2)\n",
    },
    // RAL
    Row {
        bytes: [0x17, 0, 0],
        number: 1,
        after: "A: (((2 * a~) mod 256) + cy~)\nCY: (a~ div 128)\n",
    },
    // RAR
    Row {
        bytes: [0x1F, 0, 0],
        number: 1,
        after: "A: ((a~ div 2) + (128 * cy~))\nCY: (a~ mod 2)\n",
    },
    // DAA
    Row {
        bytes: [0x27, 0, 0],
        number: 1,
        after: "A: (((a~ + if(((9 < (a~ mod 16)) or (ac~ = 1)),6,0)) + if(((153 < a~) or (cy~ = 1)),96,0)) mod 256)\nS: ((((a~ + if(((9 < (a~ mod 16)) or (ac~ = 1)),6,0)) + if(((153 < a~) or (cy~ = 1)),96,0)) mod 256) div 128)\nZ: if(((((a~ + if(((9 < (a~ mod 16)) or (ac~ = 1)),6,0)) + if(((153 < a~) or (cy~ = 1)),96,0)) mod 256) = 0),1,0)\nAC: (((a~ mod 16) + if(((9 < (a~ mod 16)) or (ac~ = 1)),6,0)) div 16)\nP: par((((a~ + if(((9 < (a~ mod 16)) or (ac~ = 1)),6,0)) + if(((153 < a~) or (cy~ = 1)),96,0)) mod 256))\nCY: if(((153 < a~) or (cy~ = 1)),1,0)\n",
    },
    // CMA
    Row {
        bytes: [0x2F, 0, 0],
        number: 1,
        after: "A: (255 - a~)\n",
    },
    // STC
    Row {
        bytes: [0x37, 0, 0],
        number: 1,
        after: "CY: 1\n",
    },
    // CMC
    Row {
        bytes: [0x3F, 0, 0],
        number: 1,
        after: "CY: (1 - cy~)\n",
    },
    // SHLD 8192
    Row {
        bytes: [0x22, 0x00, 0x20],
        number: 1,
        after: "mem: update(update(mem~,[8192],l~),[8193],h~)\n",
    },
    // SHLD 65535
    Row {
        bytes: [0x22, 0xFF, 0xFF],
        number: 1,
        after: "mem: update(update(mem~,[65535],l~),[0],h~)\n",
    },
    // LHLD 65535
    Row {
        bytes: [0x2A, 0xFF, 0xFF],
        number: 1,
        after: "H: element(mem~,[0])\nL: element(mem~,[65535])\n",
    },
    // STA 8192
    Row {
        bytes: [0x32, 0x00, 0x20],
        number: 1,
        after: "mem: update(mem~,[8192],a~)\n",
    },
    // LDA 8192
    Row {
        bytes: [0x3A, 0x00, 0x20],
        number: 1,
        after: "A: element(mem~,[8192])\n",
    },
    // ADD B
    Row {
        bytes: [0x80, 0, 0],
        number: 1,
        after: "A: ((a~ + b~) mod 256)\nS: (((a~ + b~) mod 256) div 128)\nZ: if((((a~ + b~) mod 256) = 0),1,0)\nAC: (((a~ mod 16) + (b~ mod 16)) div 16)\nP: par(((a~ + b~) mod 256))\nCY: ((a~ + b~) div 256)\n",
    },
    // ADC M
    Row {
        bytes: [0x8E, 0, 0],
        number: 1,
        after: "A: (((a~ + element(mem~,[((256 * h~) + l~)])) + cy~) mod 256)\nS: ((((a~ + element(mem~,[((256 * h~) + l~)])) + cy~) mod 256) div 128)\nZ: if(((((a~ + element(mem~,[((256 * h~) + l~)])) + cy~) mod 256) = 0),1,0)\nAC: ((((a~ mod 16) + (element(mem~,[((256 * h~) + l~)]) mod 16)) + cy~) div 16)\nP: par((((a~ + element(mem~,[((256 * h~) + l~)])) + cy~) mod 256))\nCY: (((a~ + element(mem~,[((256 * h~) + l~)])) + cy~) div 256)\n",
    },
    // SUB L
    Row {
        bytes: [0x95, 0, 0],
        number: 1,
        after: "A: ((a~ - l~) mod 256)\nS: (((a~ - l~) mod 256) div 128)\nZ: if((((a~ - l~) mod 256) = 0),1,0)\nAC: ((((a~ mod 16) - (l~ mod 16)) + 16) div 16)\nP: par(((a~ - l~) mod 256))\nCY: if(((a~ - l~) < 0),1,0)\n",
    },
    // SBB E
    Row {
        bytes: [0x9B, 0, 0],
        number: 1,
        after: "A: (((a~ - e~) - cy~) mod 256)\nS: ((((a~ - e~) - cy~) mod 256) div 128)\nZ: if(((((a~ - e~) - cy~) mod 256) = 0),1,0)\nAC: (((((a~ mod 16) - (e~ mod 16)) - cy~) + 16) div 16)\nP: par((((a~ - e~) - cy~) mod 256))\nCY: if((((a~ - e~) - cy~) < 0),1,0)\n",
    },
    // ANA D
    Row {
        bytes: [0xA2, 0, 0],
        number: 1,
        after: "A: band(a~,d~)\nS: (band(a~,d~) div 128)\nZ: if((band(a~,d~) = 0),1,0)\nAC: bit(3,bor(a~,d~))\nP: par(band(a~,d~))\nCY: 0\n",
    },
    // XRA A
    Row {
        bytes: [0xAF, 0, 0],
        number: 1,
        after: "A: bxor(a~,a~)\nS: (bxor(a~,a~) div 128)\nZ: if((bxor(a~,a~) = 0),1,0)\nAC: 0\nP: par(bxor(a~,a~))\nCY: 0\n",
    },
    // ORA H
    Row {
        bytes: [0xB4, 0, 0],
        number: 1,
        after: "A: bor(a~,h~)\nS: (bor(a~,h~) div 128)\nZ: if((bor(a~,h~) = 0),1,0)\nAC: 0\nP: par(bor(a~,h~))\nCY: 0\n",
    },
    // CMP M
    Row {
        bytes: [0xBE, 0, 0],
        number: 1,
        after: "S: (((a~ - element(mem~,[((256 * h~) + l~)])) mod 256) div 128)\nZ: if((((a~ - element(mem~,[((256 * h~) + l~)])) mod 256) = 0),1,0)\nAC: ((((a~ mod 16) - (element(mem~,[((256 * h~) + l~)]) mod 16)) + 16) div 16)\nP: par(((a~ - element(mem~,[((256 * h~) + l~)])) mod 256))\nCY: if(((a~ - element(mem~,[((256 * h~) + l~)])) < 0),1,0)\n",
    },
    // ADI 127
    Row {
        bytes: [0xC6, 0x7F, 0],
        number: 1,
        after: "A: ((a~ + 127) mod 256)\nS: (((a~ + 127) mod 256) div 128)\nZ: if((((a~ + 127) mod 256) = 0),1,0)\nAC: (((a~ mod 16) + (127 mod 16)) div 16)\nP: par(((a~ + 127) mod 256))\nCY: ((a~ + 127) div 256)\n",
    },
    // ACI 0
    Row {
        bytes: [0xCE, 0x00, 0],
        number: 1,
        after: "A: (((a~ + 0) + cy~) mod 256)\nS: ((((a~ + 0) + cy~) mod 256) div 128)\nZ: if(((((a~ + 0) + cy~) mod 256) = 0),1,0)\nAC: ((((a~ mod 16) + (0 mod 16)) + cy~) div 16)\nP: par((((a~ + 0) + cy~) mod 256))\nCY: (((a~ + 0) + cy~) div 256)\n",
    },
    // SUI 1
    Row {
        bytes: [0xD6, 0x01, 0],
        number: 1,
        after: "A: ((a~ - 1) mod 256)\nS: (((a~ - 1) mod 256) div 128)\nZ: if((((a~ - 1) mod 256) = 0),1,0)\nAC: ((((a~ mod 16) - (1 mod 16)) + 16) div 16)\nP: par(((a~ - 1) mod 256))\nCY: if(((a~ - 1) < 0),1,0)\n",
    },
    // SBI 15
    Row {
        bytes: [0xDE, 0x0F, 0],
        number: 1,
        after: "A: (((a~ - 15) - cy~) mod 256)\nS: ((((a~ - 15) - cy~) mod 256) div 128)\nZ: if(((((a~ - 15) - cy~) mod 256) = 0),1,0)\nAC: (((((a~ mod 16) - (15 mod 16)) - cy~) + 16) div 16)\nP: par((((a~ - 15) - cy~) mod 256))\nCY: if((((a~ - 15) - cy~) < 0),1,0)\n",
    },
    // ANI 127
    Row {
        bytes: [0xE6, 0x7F, 0],
        number: 1,
        after: "A: band(a~,127)\nS: (band(a~,127) div 128)\nZ: if((band(a~,127) = 0),1,0)\nAC: bit(3,bor(a~,127))\nP: par(band(a~,127))\nCY: 0\n",
    },
    // XRI 0
    Row {
        bytes: [0xEE, 0x00, 0],
        number: 1,
        after: "A: bxor(a~,0)\nS: (bxor(a~,0) div 128)\nZ: if((bxor(a~,0) = 0),1,0)\nAC: 0\nP: par(bxor(a~,0))\nCY: 0\n",
    },
    // ORI 1
    Row {
        bytes: [0xF6, 0x01, 0],
        number: 1,
        after: "A: bor(a~,1)\nS: (bor(a~,1) div 128)\nZ: if((bor(a~,1) = 0),1,0)\nAC: 0\nP: par(bor(a~,1))\nCY: 0\n",
    },
    // CPI 15
    Row {
        bytes: [0xFE, 0x0F, 0],
        number: 1,
        after: "S: (((a~ - 15) mod 256) div 128)\nZ: if((((a~ - 15) mod 256) = 0),1,0)\nAC: ((((a~ mod 16) - (15 mod 16)) + 16) div 16)\nP: par(((a~ - 15) mod 256))\nCY: if(((a~ - 15) < 0),1,0)\n",
    },
    // PUSH B
    Row {
        bytes: [0xC5, 0, 0],
        number: 1,
        after: "words:\nb~ ; c~\n",
    },
    // PUSH PSW
    Row {
        bytes: [0xF5, 0, 0],
        number: 1,
        after: "words:\na~ ; psw(s~,z~,ac~,p~,cy~)\n",
    },
    // XCHG
    Row {
        bytes: [0xEB, 0, 0],
        number: 1,
        after: "D: h~\nE: l~\nH: d~\nL: e~\n",
    },
    // IN 7
    Row {
        bytes: [0xDB, 0x07, 0],
        number: 1,
        after: "A: in_1\n",
    },
    // OUT 7
    Row {
        bytes: [0xD3, 0x07, 0],
        number: 1,
        after: "",
    },
    // EI
    Row {
        bytes: [0xFB, 0, 0],
        number: 1,
        after: "",
    },
    // DI
    Row {
        bytes: [0xF3, 0, 0],
        number: 1,
        after: "",
    },
    // HLT
    Row {
        bytes: [0x76, 0, 0],
        number: 1,
        after: "",
    },
    // JMP 8192
    Row {
        bytes: [0xC3, 0x00, 0x20],
        number: 1,
        after: "",
    },
    // JNZ 8447
    Row {
        bytes: [0xC2, 0xFF, 0x20],
        number: 1,
        after: "",
    },
    // INR A
    Row {
        bytes: [0x3C, 0, 0],
        number: 1,
        after: "A: ((a~ + 1) mod 256)\nS: (((a~ + 1) mod 256) div 128)\nZ: if((((a~ + 1) mod 256) = 0),1,0)\nAC: if(((((a~ + 1) mod 256) mod 16) = 0),1,0)\nP: par(((a~ + 1) mod 256))\n",
    },
];

/// What changes in the state at an assertion.
pub static OF_STARTED: [Row; 10] = [
    // PUSH D
    Row {
        bytes: [0xD5, 0, 0],
        number: 1,
        after: "words:\nstk1h ; stk1l\nstk2h ; stk2l\nd ; e\n",
    },
    // PUSH H
    Row {
        bytes: [0xE5, 0, 0],
        number: 1,
        after: "words:\nstk1h ; stk1l\nstk2h ; stk2l\nh ; l\n",
    },
    // PUSH PSW
    Row {
        bytes: [0xF5, 0, 0],
        number: 1,
        after: "words:\nstk1h ; stk1l\nstk2h ; stk2l\na ; psw(s,z,ac,p,cy)\n",
    },
    // POP B
    Row {
        bytes: [0xC1, 0, 0],
        number: 1,
        after: "B: stk2h\nC: stk2l\nwords:\nstk1h ; stk1l\n",
    },
    // POP D
    Row {
        bytes: [0xD1, 0, 0],
        number: 1,
        after: "D: stk2h\nE: stk2l\nwords:\nstk1h ; stk1l\n",
    },
    // POP H
    Row {
        bytes: [0xE1, 0, 0],
        number: 1,
        after: "H: stk2h\nL: stk2l\nwords:\nstk1h ; stk1l\n",
    },
    // POP PSW
    Row {
        bytes: [0xF1, 0, 0],
        number: 1,
        after: "A: stk2h\nS: bit(7,stk2l)\nZ: bit(6,stk2l)\nAC: bit(4,stk2l)\nP: bit(2,stk2l)\nCY: bit(0,stk2l)\nwords:\nstk1h ; stk1l\n",
    },
    // XTHL
    Row {
        bytes: [0xE3, 0, 0],
        number: 1,
        after: "H: stk2h\nL: stk2l\nwords:\nstk1h ; stk1l\nh ; l\n",
    },
    // IN 7
    Row {
        bytes: [0xDB, 0x07, 0],
        number: 2,
        after: "A: in_2\n",
    },
    // DCX B
    Row {
        bytes: [0x0B, 0, 0],
        number: 1,
        after: "B: (((((256 * b) + c) - 1) mod 65536) div 256)\nC: (((((256 * b) + c) - 1) mod 65536) mod 256)\n",
    },
];

/// What changes in the mixed state.
pub static OF_MIXED: [Row; 26] = [
    // STAX B
    Row {
        bytes: [0x02, 0, 0],
        number: 1,
        after: "mem: update(update(mem_1,[8192],a_1),[((((256 * b~) + c~) + 1) mod 65536)],((a~ + b~) mod 256))\n",
    },
    // INX B
    Row {
        bytes: [0x03, 0, 0],
        number: 7,
        after: "B: (((((((256 * b~) + c~) + 1) mod 65536) + 1) mod 65536) div 256)\nC: (((((((256 * b~) + c~) + 1) mod 65536) + 1) mod 65536) mod 256)\n",
    },
    // DCX B
    Row {
        bytes: [0x0B, 0, 0],
        number: 1,
        after: "B: (((((((256 * b~) + c~) + 1) mod 65536) - 1) mod 65536) div 256)\nC: (((((((256 * b~) + c~) + 1) mod 65536) - 1) mod 65536) mod 256)\n",
    },
    // DAD B
    Row {
        bytes: [0x09, 0, 0],
        number: 1,
        after: "H: (((((256 * 32) + 0) + ((((256 * b~) + c~) + 1) mod 65536)) mod 65536) div 256)\nL: (((((256 * 32) + 0) + ((((256 * b~) + c~) + 1) mod 65536)) mod 65536) mod 256)\nCY: ((((256 * 32) + 0) + ((((256 * b~) + c~) + 1) mod 65536)) div 65536)\n",
    },
    // LDAX D
    Row {
        bytes: [0x1A, 0, 0],
        number: 1,
        after: "A: element(update(mem_1,[8192],a_1),[((256 * ((((256 * d) + e) + 1) div 256)) + ((((256 * d) + e) + 2) mod 256))])\n",
    },
    // INX D
    Row {
        bytes: [0x13, 0, 0],
        number: 7,
        after: "D: (((((256 * ((((256 * d) + e) + 1) div 256)) + ((((256 * d) + e) + 2) mod 256)) + 1) mod 65536) div 256)\nE: (((((256 * ((((256 * d) + e) + 1) div 256)) + ((((256 * d) + e) + 2) mod 256)) + 1) mod 65536) mod 256)\n",
    },
    // INX H
    Row {
        bytes: [0x23, 0, 0],
        number: 7,
        after: "H: (((((256 * 32) + 0) + 1) mod 65536) div 256)\nL: (((((256 * 32) + 0) + 1) mod 65536) mod 256)\n",
    },
    // DAD H
    Row {
        bytes: [0x29, 0, 0],
        number: 1,
        after: "H: (((((256 * 32) + 0) + ((256 * 32) + 0)) mod 65536) div 256)\nL: (((((256 * 32) + 0) + ((256 * 32) + 0)) mod 65536) mod 256)\nCY: ((((256 * 32) + 0) + ((256 * 32) + 0)) div 65536)\n",
    },
    // MOV A,M
    Row {
        bytes: [0x7E, 0, 0],
        number: 1,
        after: "A: element(update(mem_1,[8192],a_1),[((256 * 32) + 0)])\n",
    },
    // MVI M,128
    Row {
        bytes: [0x36, 0x80, 0],
        number: 1,
        after: "mem: update(update(mem_1,[8192],a_1),[((256 * 32) + 0)],128)\n",
    },
    // SUB M
    Row {
        bytes: [0x96, 0, 0],
        number: 1,
        after: "A: ((((a~ + b~) mod 256) - element(update(mem_1,[8192],a_1),[((256 * 32) + 0)])) mod 256)\nS: (((((a~ + b~) mod 256) - element(update(mem_1,[8192],a_1),[((256 * 32) + 0)])) mod 256) div 128)\nZ: if((((((a~ + b~) mod 256) - element(update(mem_1,[8192],a_1),[((256 * 32) + 0)])) mod 256) = 0),1,0)\nAC: ((((((a~ + b~) mod 256) mod 16) - (element(update(mem_1,[8192],a_1),[((256 * 32) + 0)]) mod 16)) + 16) div 16)\nP: par(((((a~ + b~) mod 256) - element(update(mem_1,[8192],a_1),[((256 * 32) + 0)])) mod 256))\nCY: if(((((a~ + b~) mod 256) - element(update(mem_1,[8192],a_1),[((256 * 32) + 0)])) < 0),1,0)\n",
    },
    // SBB A
    Row {
        bytes: [0x9F, 0, 0],
        number: 1,
        after: "A: (((((a~ + b~) mod 256) - ((a~ + b~) mod 256)) - ((a~ + b~) div 256)) mod 256)\nS: ((((((a~ + b~) mod 256) - ((a~ + b~) mod 256)) - ((a~ + b~) div 256)) mod 256) div 128)\nZ: if(((((((a~ + b~) mod 256) - ((a~ + b~) mod 256)) - ((a~ + b~) div 256)) mod 256) = 0),1,0)\nAC: (((((((a~ + b~) mod 256) mod 16) - (((a~ + b~) mod 256) mod 16)) - ((a~ + b~) div 256)) + 16) div 16)\nP: par((((((a~ + b~) mod 256) - ((a~ + b~) mod 256)) - ((a~ + b~) div 256)) mod 256))\nCY: if((((((a~ + b~) mod 256) - ((a~ + b~) mod 256)) - ((a~ + b~) div 256)) < 0),1,0)\n",
    },
    // DAA
    Row {
        bytes: [0x27, 0, 0],
        number: 1,
        after: "A: (((((a~ + b~) mod 256) + if(((9 < (((a~ + b~) mod 256) mod 16)) or (ac_1 = 1)),6,0)) + if(((153 < ((a~ + b~) mod 256)) or (((a~ + b~) div 256) = 1)),96,0)) mod 256)\nS: ((((((a~ + b~) mod 256) + if(((9 < (((a~ + b~) mod 256) mod 16)) or (ac_1 = 1)),6,0)) + if(((153 < ((a~ + b~) mod 256)) or (((a~ + b~) div 256) = 1)),96,0)) mod 256) div 128)\nZ: if(((((((a~ + b~) mod 256) + if(((9 < (((a~ + b~) mod 256) mod 16)) or (ac_1 = 1)),6,0)) + if(((153 < ((a~ + b~) mod 256)) or (((a~ + b~) div 256) = 1)),96,0)) mod 256) = 0),1,0)\nAC: (((((a~ + b~) mod 256) mod 16) + if(((9 < (((a~ + b~) mod 256) mod 16)) or (ac_1 = 1)),6,0)) div 16)\nP: par((((((a~ + b~) mod 256) + if(((9 < (((a~ + b~) mod 256) mod 16)) or (ac_1 = 1)),6,0)) + if(((153 < ((a~ + b~) mod 256)) or (((a~ + b~) div 256) = 1)),96,0)) mod 256))\nCY: if(((153 < ((a~ + b~) mod 256)) or (((a~ + b~) div 256) = 1)),1,0)\n",
    },
    // RAL
    Row {
        bytes: [0x17, 0, 0],
        number: 1,
        after: "A: (((2 * ((a~ + b~) mod 256)) mod 256) + ((a~ + b~) div 256))\nCY: (((a~ + b~) mod 256) div 128)\n",
    },
    // INR A
    Row {
        bytes: [0x3C, 0, 0],
        number: 7,
        after: "A: ((((a~ + b~) mod 256) + 1) mod 256)\nS: (((((a~ + b~) mod 256) + 1) mod 256) div 128)\nZ: if((((((a~ + b~) mod 256) + 1) mod 256) = 0),1,0)\nAC: if(((((((a~ + b~) mod 256) + 1) mod 256) mod 16) = 0),1,0)\nP: par(((((a~ + b~) mod 256) + 1) mod 256))\n",
    },
    // PUSH PSW
    Row {
        bytes: [0xF5, 0, 0],
        number: 1,
        after: "words:\nh_1 ; l_1\nin_1 ; psw(s~,z~,ac~,p~,cy~)\n((a~ + b~) mod 256) ; psw((((a~ + b~) mod 256) div 128),if((((a~ + b~) mod 256) = 0),1,0),ac_1,par(((a~ + b~) mod 256)),((a~ + b~) div 256))\n",
    },
    // POP PSW
    Row {
        bytes: [0xF1, 0, 0],
        number: 1,
        after: "A: in_1\nS: bit(7,psw(s~,z~,ac~,p~,cy~))\nZ: bit(6,psw(s~,z~,ac~,p~,cy~))\nAC: bit(4,psw(s~,z~,ac~,p~,cy~))\nP: bit(2,psw(s~,z~,ac~,p~,cy~))\nCY: bit(0,psw(s~,z~,ac~,p~,cy~))\nwords:\nh_1 ; l_1\n",
    },
    // POP H
    Row {
        bytes: [0xE1, 0, 0],
        number: 1,
        after: "H: in_1\nL: psw(s~,z~,ac~,p~,cy~)\nwords:\nh_1 ; l_1\n",
    },
    // XTHL
    Row {
        bytes: [0xE3, 0, 0],
        number: 1,
        after: "H: in_1\nL: psw(s~,z~,ac~,p~,cy~)\nwords:\nh_1 ; l_1\n32 ; 0\n",
    },
    // XCHG
    Row {
        bytes: [0xEB, 0, 0],
        number: 1,
        after: "D: 32\nE: 0\nH: ((((256 * d) + e) + 1) div 256)\nL: ((((256 * d) + e) + 2) mod 256)\n",
    },
    // SHLD 8192
    Row {
        bytes: [0x22, 0x00, 0x20],
        number: 1,
        after: "mem: update(update(update(mem_1,[8192],a_1),[8192],0),[8193],32)\n",
    },
    // LHLD 8192
    Row {
        bytes: [0x2A, 0x00, 0x20],
        number: 1,
        after: "H: element(update(mem_1,[8192],a_1),[8193])\nL: element(update(mem_1,[8192],a_1),[8192])\n",
    },
    // IN 7
    Row {
        bytes: [0xDB, 0x07, 0],
        number: 7,
        after: "A: in_7\n",
    },
    // STC
    Row {
        bytes: [0x37, 0, 0],
        number: 1,
        after: "CY: 1\n",
    },
    // CMA
    Row {
        bytes: [0x2F, 0, 0],
        number: 1,
        after: "A: (255 - ((a~ + b~) mod 256))\n",
    },
    // LXI B,0
    Row {
        bytes: [0x01, 0x00, 0x00],
        number: 1,
        after: "B: 0\nC: 0\n",
    },
];
