//! Groups of the 8080 instruction exerciser (the form for the 8080 of Frank Cringle's exerciser for the Z80), which gives its
//! sums as those of a processor. A group runs its instructions in many states, and its sum is the CRC-32 of all states
//! after them. The rows and sums were written from memory, with no copy of the exerciser at hand. Where a row or the order
//! of cases was in doubt (which bits DAD turns, that the first case is the state itself), the one whose sum agrees was taken.
use sp_base::Reg;
use sp_machine::Machine;
use std::process::Abort;
use std::test::Fail;

/// The instruction's bytes, two in a word, the word at `MEMORY`, two words for the Z80, then HL, DE, BC, PSW and SP.
type State = [u16; 10];

/// Where the exerciser has the word of memory that instructions use.
const MEMORY: u16 = 0x0103;

/// The address of the instruction; POP PSW and PUSH PSW come after it.
const CODE: u16 = 0x8000;

const POP_PSW: u16 = CODE + 4;

const PUSH_PSW: u16 = CODE + 5;

/// Where the status word is pushed and popped.
const STACK: u16 = 0x9000;

/// A group's first state, the bits that count through all their values, the bits that are turned one at a time, and the
/// sum.
type Group = (State, State, State, u32);

/// All groups of the exerciser.
static GROUPS: [Group; 25] = [
    // DAD B, D, H and SP
    (
        [
            0x0009, 0, 0xC4A5, 0xC4C7, 0xD226, 0xA050, 0x58EA, 0x8566, 0xDEC6, 0x9BC9,
        ],
        [0x0030, 0, 0, 0, 0, 0xF821, 0, 0, 0, 0],
        [0, 0, 0, 0, 0, 0xFFFF, 0xFFFF, 0xFFFF, 0x00D7, 0xFFFF],
        0x1447_4BA6,
    ),
    // ADI, ACI, SUI, SBI, ANI, XRI, ORI and CPI
    (
        [
            0x00C6, 0, 0x9140, 0x7E3C, 0x7A67, 0xDF6D, 0x5B61, 0x0B29, 0x6610, 0x85B2,
        ],
        [0x0038, 0, 0, 0, 0, 0, 0, 0, 0xFF00, 0],
        [0xFF00, 0, 0, 0, 0, 0, 0, 0, 0x00D7, 0],
        0x9E92_2F9E,
    ),
    // ADD, ADC, SUB, SBB, ANA, XRA, ORA and CMP with each register and M
    (
        [
            0x0080, 0, 0xC53E, 0x573A, 0x4C4D, 0x0103, 0xE309, 0xA666, 0x3BD0, 0xADBB,
        ],
        [0x003F, 0, 0, 0, 0, 0, 0, 0, 0xFF00, 0],
        [0, 0, 0x00FF, 0, 0, 0, 0xFFFF, 0xFFFF, 0x00D7, 0],
        0xCF76_2C86,
    ),
    // DAA, CMA, STC and CMC
    (
        [
            0x0027, 0, 0x2141, 0x09FA, 0x1D60, 0xA559, 0x8D5B, 0x9079, 0x8E04, 0x299D,
        ],
        [0x0018, 0, 0, 0, 0, 0, 0, 0, 0xFFD7, 0],
        [0; 10],
        0xBB3F_030C,
    ),
    // INR and DCR of A, B, C, D, E, H, L and M
    (
        [
            0x003C, 0, 0x4ADF, 0xD5D8, 0xE598, 0x8A2B, 0xA7B0, 0x431B, 0x5A44, 0xD030,
        ],
        [0x0001, 0, 0, 0, 0, 0, 0, 0, 0xFF00, 0],
        [0, 0, 0, 0, 0, 0, 0, 0, 0x00D7, 0],
        0xADB6_460E,
    ),
    (
        [
            0x0004, 0, 0xD623, 0x432D, 0x7A61, 0x8180, 0x5A86, 0x1E85, 0x5886, 0x9BBB,
        ],
        [0x0001, 0, 0, 0, 0, 0, 0, 0xFF00, 0, 0],
        [0, 0, 0, 0, 0, 0, 0, 0, 0x00D7, 0],
        0x83ED_1345,
    ),
    (
        [
            0x000C, 0, 0xD789, 0x0935, 0x055B, 0x9F85, 0x8B27, 0xD208, 0x0595, 0x0660,
        ],
        [0x0001, 0, 0, 0, 0, 0, 0, 0x00FF, 0, 0],
        [0, 0, 0, 0, 0, 0, 0, 0, 0x00D7, 0],
        0xE5F6_721B,
    ),
    (
        [
            0x0014, 0, 0xA0EA, 0x5FBA, 0x65FB, 0x981C, 0x38CC, 0xDEBC, 0x5C43, 0x03BD,
        ],
        [0x0001, 0, 0, 0, 0, 0, 0xFF00, 0, 0, 0],
        [0, 0, 0, 0, 0, 0, 0, 0, 0x00D7, 0],
        0x15B5_579A,
    ),
    (
        [
            0x001C, 0, 0x602F, 0x4C0D, 0x2402, 0xE2F5, 0xA0F4, 0xA10A, 0x3213, 0x5925,
        ],
        [0x0001, 0, 0, 0, 0, 0, 0x00FF, 0, 0, 0],
        [0, 0, 0, 0, 0, 0, 0, 0, 0x00D7, 0],
        0xCF2A_B396,
    ),
    (
        [
            0x0024, 0, 0x1506, 0xF2EB, 0xE8DD, 0x262B, 0x11A6, 0xBC1A, 0x0617, 0x2818,
        ],
        [0x0001, 0, 0, 0, 0, 0xFF00, 0, 0, 0, 0],
        [0, 0, 0, 0, 0, 0, 0, 0, 0x00D7, 0],
        0x12B2_952C,
    ),
    (
        [
            0x002C, 0, 0x8031, 0xA520, 0x4356, 0xB409, 0xF4C1, 0xDFA2, 0x3CD1, 0x3EA2,
        ],
        [0x0001, 0, 0, 0, 0, 0x00FF, 0, 0, 0, 0],
        [0, 0, 0, 0, 0, 0, 0, 0, 0x00D7, 0],
        0xFF57_D356,
    ),
    (
        [
            0x0034, 0, 0xB856, 0x0C7C, 0xE53E, 0x0103, 0x877E, 0xDA58, 0x5C15, 0x1F37,
        ],
        [0x0001, 0, 0x00FF, 0, 0, 0, 0, 0, 0, 0],
        [0, 0, 0, 0, 0, 0, 0, 0, 0x00D7, 0],
        0x92E9_63BD,
    ),
    // INX and DCX of B, D, H and SP
    (
        [
            0x0003, 0, 0xCD97, 0x44AB, 0x8DC9, 0xE3E3, 0x11CC, 0xE8A4, 0x4902, 0x2A4D,
        ],
        [0x0008, 0, 0, 0, 0, 0, 0, 0xF821, 0, 0],
        [0, 0, 0, 0, 0, 0, 0, 0, 0x00D7, 0],
        0xF792_87CD,
    ),
    (
        [
            0x0013, 0, 0x342E, 0x131D, 0x28C9, 0x0ACA, 0x9967, 0x3A2E, 0xF692, 0x9D54,
        ],
        [0x0008, 0, 0, 0, 0, 0, 0xF821, 0, 0, 0],
        [0, 0, 0, 0, 0, 0, 0, 0, 0x00D7, 0],
        0x7F4E_2501,
    ),
    (
        [
            0x0023, 0, 0xC3F4, 0x07A5, 0x1B6D, 0x4F04, 0xE2C2, 0x822A, 0xE057, 0xC3E1,
        ],
        [0x0008, 0, 0, 0, 0, 0xF821, 0, 0, 0, 0],
        [0, 0, 0, 0, 0, 0, 0, 0, 0x00D7, 0],
        0x9F2B_23C0,
    ),
    (
        [
            0x0033, 0, 0x346F, 0xD482, 0xD169, 0xDEB6, 0xA494, 0xF476, 0x0253, 0x855B,
        ],
        [0x0008, 0, 0, 0, 0, 0, 0, 0, 0, 0xF821],
        [0, 0, 0, 0, 0, 0, 0, 0, 0x00D7, 0],
        0xD570_2FAB,
    ),
    // LHLD
    (
        [
            0x032A, 0x0001, 0x9863, 0x7830, 0x2077, 0xB1FE, 0xB9FA, 0xABB8, 0x0604, 0x6015,
        ],
        [0; 10],
        [0, 0, 0xFFFF, 0, 0, 0, 0, 0, 0, 0],
        0xA9C3_D5CB,
    ),
    // SHLD
    (
        [
            0x0322, 0x0001, 0xD003, 0x7772, 0x7F53, 0x3F72, 0x64EA, 0xE180, 0x2D10, 0x35E9,
        ],
        [0; 10],
        [0, 0, 0, 0, 0, 0xFFFF, 0, 0, 0, 0],
        0xE886_4F26,
    ),
    // LXI B, D, H and SP
    (
        [
            0x0001, 0, 0x5C1C, 0x2D46, 0x8EB9, 0x6078, 0x74B1, 0xB30E, 0xD146, 0x30CC,
        ],
        [0x0030, 0, 0, 0, 0, 0, 0, 0, 0, 0],
        [0xFF00, 0x00FF, 0, 0, 0, 0, 0, 0, 0, 0],
        0xFCF4_6E12,
    ),
    // LDAX B and D
    (
        [
            0x000A, 0, 0xB3A8, 0x1D2A, 0x7F8E, 0x42AC, 0x0103, 0x0103, 0xB1C6, 0xEF8E,
        ],
        [0x0010, 0, 0, 0, 0, 0, 0, 0, 0, 0],
        [0, 0, 0x00FF, 0, 0, 0, 0, 0, 0xFFD7, 0],
        0x2B82_1D5F,
    ),
    // MVI to each register and M
    (
        [
            0x0006, 0, 0xC407, 0xF49D, 0xD13D, 0x0339, 0xDE89, 0x7455, 0xC053, 0x5509,
        ],
        [0x0038, 0, 0, 0, 0, 0, 0, 0, 0, 0],
        [0, 0, 0, 0, 0, 0, 0, 0, 0xFF00, 0],
        0xEAA7_2044,
    ),
    // MOV among all registers and M
    (
        [
            0x0040, 0, 0x72A4, 0xA024, 0x61AC, 0x0103, 0x82C7, 0x718F, 0x8F97, 0xEF8E,
        ],
        [0x003F, 0, 0, 0, 0, 0, 0, 0, 0, 0],
        [0, 0, 0x00FF, 0, 0, 0, 0xFFFF, 0xFFFF, 0xFFD7, 0],
        0x10B5_8CEE,
    ),
    // STA and LDA
    (
        [
            0x0332, 0x0001, 0xFD68, 0xF4EC, 0x44A0, 0xB543, 0x0653, 0xCDBA, 0x4FD2, 0x1FD8,
        ],
        [0x0008, 0, 0, 0, 0, 0, 0, 0, 0, 0],
        [0, 0, 0x00FF, 0, 0, 0, 0, 0, 0xFFD7, 0],
        0xED57_AF72,
    ),
    // RLC, RRC, RAL and RAR
    (
        [
            0x0007, 0, 0xCB92, 0x6D43, 0x0A90, 0xC284, 0x0C53, 0xF50E, 0xEB91, 0x40FC,
        ],
        [0x0018, 0, 0, 0, 0, 0, 0, 0, 0xFF00, 0],
        [0, 0, 0, 0, 0, 0, 0, 0, 0x00D7, 0],
        0xE0D8_9235,
    ),
    // STAX B and D
    (
        [
            0x0002, 0, 0x0C3B, 0xB592, 0x6CFF, 0x959E, 0x0103, 0x0104, 0x21C1, 0xBDE7,
        ],
        [0x0018, 0, 0, 0, 0, 0, 0, 0, 0, 0],
        [0, 0, 0xFFFF, 0, 0, 0, 0, 0, 0xFF00, 0],
        0x2B04_71E9,
    ),
];

/// How many bits a mask has.
fn bits_of(mask: &State) -> u32 {
    let mut bits = 0u32;
    for word in mask {
        bits = bits.wrapping_add(word.count_ones());
    }
    bits
}

/// The bits of a count, the lowest first, at the places of a mask's bits.
fn spread(mask: &State, count: u128) -> State {
    let mut spread = [0; 10];
    let mut rest = count;
    for n in 0..160usize {
        let bit = 1u16 << (n % 16);
        if mask[n / 16] & bit != 0 {
            if rest % 2 == 1 {
                spread[n / 16] |= bit;
            }
            rest /= 2;
        }
    }
    spread
}

/// A state with these bits turned.
fn turned(state: &State, bits: &State) -> State {
    let mut turned = *state;
    for n in 0..10usize {
        turned[n] ^= bits[n];
    }
    turned
}

/// The CRC-32 with a byte more.
fn with_byte(sum: u32, byte: u8) -> u32 {
    let mut sum = sum ^ u32::from(byte);
    for _ in 0..8 {
        let odd = sum % 2 == 1;
        sum /= 2;
        if odd {
            sum ^= 0xEDB8_8320;
        }
    }
    sum
}

/// The CRC-32 with words more, the low byte of each first.
fn with_words(sum: u32, words: &[u16]) -> u32 {
    let mut sum = sum;
    for word in words {
        sum = with_byte(with_byte(sum, (*word % 256) as u8), (*word / 256) as u8);
    }
    sum
}

fn pair(machine: &Machine, high: Reg, low: Reg) -> u16 {
    256 * u16::from(machine.reg(high)) + u16::from(machine.reg(low))
}

fn set_pair(machine: &mut Machine, [high, low]: [Reg; 2], word: u16) {
    machine.set_reg(high, (word / 256) as u8);
    machine.set_reg(low, (word % 256) as u8);
}

fn set_word(machine: &mut Machine, a: u16, word: u16) {
    machine.set_cell(a, (word % 256) as u8);
    machine.set_cell(a.wrapping_add(1), (word / 256) as u8);
}

fn word_at(machine: &Machine, a: u16) -> u16 {
    256 * u16::from(machine.cell(a.wrapping_add(1))) + u16::from(machine.cell(a))
}

/// Brings a machine into a state.
fn set_state(machine: &mut Machine, [code, operand, memory, _, _, hl, de, bc, psw, sp]: State) {
    set_word(machine, CODE, code);
    set_word(machine, CODE + 2, operand);
    set_word(machine, MEMORY, memory);
    set_pair(machine, [Reg::H, Reg::L], hl);
    set_pair(machine, [Reg::D, Reg::E], de);
    set_pair(machine, [Reg::B, Reg::C], bc);
    set_word(machine, STACK, psw);
    machine.set_sp(STACK);
    machine.set_pc(POP_PSW);
    let _ = machine.step(0);
    machine.set_sp(sp);
    machine.set_pc(CODE);
}

/// The CRC-32 with the state of a machine more. HL stands for the two words for the Z80 also.
fn with_state(sum: u32, machine: &mut Machine) -> u32 {
    let hl = pair(machine, Reg::H, Reg::L);
    let de = pair(machine, Reg::D, Reg::E);
    let bc = pair(machine, Reg::B, Reg::C);
    let sp = machine.sp();
    machine.set_sp(STACK + 2);
    machine.set_pc(PUSH_PSW);
    let _ = machine.step(0);
    let psw = word_at(machine, STACK);
    with_words(
        sum,
        &[word_at(machine, MEMORY), hl, hl, hl, de, bc, psw, sp],
    )
}

/// The CRC-32 with the state after the instruction of a state more. HLT is passed over.
fn with_case(sum: u32, machine: &mut Machine, state: State) -> u32 {
    if state[0] % 256 == 0x76 {
        return sum;
    }
    set_state(machine, state);
    let _ = machine.step(0);
    with_state(sum, machine)
}

/// The CRC-32 with the cases of all counts from this one on more, these bits being turned in each.
fn with_counts(sum: u32, machine: &mut Machine, group: &Group, bits: &State, from: u128) -> u32 {
    let (first, counted, _, _) = group;
    let start = turned(first, bits);
    let mut sum = sum;
    for count in from..1u128.wrapping_shl(bits_of(counted)) {
        sum = with_case(sum, machine, turned(&start, &spread(counted, count)));
    }
    sum
}

/// Runs a group: its first state as it is, the counts with one bit after another turned, and the counts alone.
fn check_group(rt: &impl Abort, machine: &mut Machine, group: &Group) {
    let (first, _, single, expected) = group;
    let mut sum = u32::MAX;
    for n in 0..bits_of(single) {
        if n == 0 {
            sum = with_case(sum, machine, *first);
        }
        let bits = spread(single, 1u128.wrapping_shl(n));
        sum = with_counts(sum, machine, group, &bits, u128::from(n == 0));
    }
    sum = with_counts(sum, machine, group, &[0; 10], 0);
    assert_eq!(rt; sum, *expected, "{first:?}");
}

#[test]
fn sums_are_those_of_the_exerciser(rt: HostRuntime) -> Result<(), Fail> {
    let mut machine = Machine::new(rt.alloc())?;
    machine.set_cell(POP_PSW, 0xF1);
    machine.set_cell(PUSH_PSW, 0xF5);
    for group in &GROUPS {
        check_group(&rt, &mut machine, group);
    }
    Ok(())
}
