//! Laws on instructions: on their codes, on what they do, and on the registers and flags that they read and write.
ghost use Rattle.sp_isa.specs.Decode.{DecodesTheTable, DecodesCodes, NoCodeBeginsAnother, NothingDecodes};
ghost use Rattle.sp_isa.specs.Fetch.{CodeIsFetched, FetchedIsCode};
ghost use Rattle.sp_isa.specs.Locations.{ChangesOnlyWrites, DependsOnlyOnReads};
ghost use Rattle.sp_isa.specs.Moves.{Exchanges, FlagsAreAByte, Loads, Moves, Operates, PartsHaveRanges};
ghost use Rattle.sp_isa.specs.Outcome.{InstructionsLead, OtherCellsStay};
ghost use Rattle.sp_isa.specs.Step.{EffectsKeepCores, StepsKeepCores};
ghost use Rattle.sp_isa.specs.Sums.{Adds, Subtracts, Compares, CountsByOne, AddsPairs, CountsPairsByOne, AddsDecimals, Rotates};
ghost use Rattle.sp_isa.specs.Undoing.{SomeUndoOthers, PopsRestore, PopsMove, CallsComeBack, ConditionsAreOpposites, ComparisonsTell};

/// Three bytes begin with a valid instruction exactly where `decode` gives it, with its length.
pub fn decode_is_the_table()
    ensures { DecodesTheTable }
{}

/// Decoding a valid instruction's code, followed by anything, gives it back with its length.
pub fn codes_decode()
    ensures { DecodesCodes }
{}

/// No valid instruction's code begins another's.
pub fn no_code_begins_another()
    ensures { NoCodeBeginsAnother }
{}

/// Nothing decodes exactly where the first byte is one of the twelve that no instruction has.
pub fn unused_bytes_decode_to_nothing()
    ensures { NothingDecodes }
{}

/// What an instruction does keeps each part of the core in its range.
pub fn effects_keep_cores()
    ensures { EffectsKeepCores }
{}

/// A step of the processor keeps each part of the core in its range.
pub fn steps_keep_cores()
    ensures { StepsKeepCores }
{}

/// No instruction changes another register or flag than those that it writes.
pub fn instructions_change_their_writes_alone()
    ensures { ChangesOnlyWrites }
{}

/// What an instruction writes to registers and flags depends on those that it reads, on memory, the stack pointer and
/// the program counter alone. PUSH and XTHL count as reading nothing: what they move goes to memory, and no register or
/// flag is set by it.
pub fn writes_depend_on_reads_alone()
    ensures { DependsOnlyOnReads }
{}

/// Where each instruction leads: the program counter, the stack pointer, whether the core is halted, and all of memory.
pub fn instructions_lead()
    ensures { InstructionsLead }
{}

/// A cell to which an instruction doesn't write stays as it is.
pub fn other_cells_stay()
    ensures { OtherCellsStay }
{}

/// ADD, ADI, ADC and ACI: CY and A are the sum, AC is the carry of the low digits, and S, Z and P show the result.
pub fn additions_are_sums()
    ensures { Adds }
{}

/// SUB, SUI, SBB and SBI: A is the difference, CY the borrow, and AC is 0 where the low digits borrow.
pub fn subtractions_are_differences()
    ensures { Subtracts }
{}

/// CMP and CPI: A stays, and the flags are those of the difference.
pub fn comparisons_are_differences()
    ensures { Compares }
{}

/// INR and DCR, of registers and of M: one more and one less, modulo 256, with CY as it was.
pub fn counting_goes_by_one()
    ensures { CountsByOne }
{}

/// DAD: CY and HL are the sum of HL and a pair.
pub fn pairs_are_added()
    ensures { AddsPairs }
{}

/// INX and DCX: one more and one less, modulo 65,536.
pub fn pairs_count_by_one()
    ensures { CountsPairsByOne }
{}

/// DAA after an addition of bytes of decimal digits: CY and A are the digits of the decimal sum.
pub fn decimal_adjustment_gives_decimal_sums()
    ensures { AddsDecimals }
{}

/// RLC, RAL, RRC and RAR: A doubled or halved, with the bit that leaves and the one that comes in.
pub fn rotates_double_and_halve()
    ensures { Rotates }
{}

/// XCHG, CMA and CMC undo themselves, and RAL and RAR one another.
pub fn some_instructions_undo_others()
    ensures { SomeUndoOthers }
{}

/// POP after PUSH of the same pair: all registers, all flags and the stack pointer are as they were.
pub fn pops_restore_what_was_pushed()
    ensures { PopsRestore }
{}

/// POP D after PUSH B moves the pair, as does POP H after PUSH D.
pub fn pops_move_pairs()
    ensures { PopsMove }
{}

/// CALL and RST go to their addresses, and RET comes back to the address after them.
pub fn calls_come_back()
    ensures { CallsComeBack }
{}

/// Conditions come in opposites: NZ and Z, NC and C, PO and PE, P and M.
pub fn conditions_are_opposites()
    ensures { ConditionsAreOpposites }
{}

/// After CMP and CPI: Z holds exactly where A is the byte, and C exactly where A is below it.
pub fn comparisons_tell_order()
    ensures { ComparisonsTell }
{}

/// MOV and MVI: the first operand takes the second; LXI: the pair takes the word.
pub fn moves_copy()
    ensures { Moves }
{}

/// LDA, LDAX, LHLD and XTHL: registers take cells; IN: A takes the input.
pub fn loads_take_cells()
    ensures { Loads }
{}

/// XCHG exchanges DE and HL; CMA, STC and CMC.
pub fn exchanges_go_both_ways()
    ensures { Exchanges }
{}

/// ANA, XRA and ORA: the result, CY, AC, and S, Z and P.
pub fn logic_goes_by_bits()
    ensures { Operates }
{}

/// The flags go onto the stack as the byte S Z 0 AC 0 P 1 CY.
pub fn flags_are_a_byte()
    ensures { FlagsAreAByte }
{}

/// Registers and cells are bytes, and flags are 0 or 1.
pub fn parts_have_ranges()
    ensures { PartsHaveRanges }
{}

/// Where the code of a valid instruction lies in memory, that instruction begins.
pub fn code_is_fetched()
    ensures { CodeIsFetched }
{}

/// Where an instruction begins, it is a valid one, and its code lies there.
pub fn fetched_is_code()
    ensures { FetchedIsCode }
{}
