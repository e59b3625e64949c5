//! Which of the small programs are good. Each law has a list or a number in which a program differs from its twins.

ghost use Rattle.std.specs.Prelude.{◌≡◌, ◌≢◌, ◌↔◌, ◌⊎◌, ℕ, ◌+◌, ◌<◌, ◌≤◌, true, false, List, [], ◌∷◌, ◌++◌, Contains};
ghost use Rattle.sp_base.specs.Image.{IsInMemory};
ghost use Rattle.sp_base.specs.declared.location.Loc.{Loc};
ghost use Rattle.sp_base.specs.declared.location.Loc.TheVariants as loc;
ghost use Rattle.sp_isa.specs.Effect.{gives_output, takes_input};
ghost use Rattle.sp_isa.specs.declared.instr.Cond.TheVariants as when;
ghost use Rattle.sp_isa.specs.declared.instr.Instr.{Instr};
ghost use Rattle.sp_isa.specs.declared.instr.Instr.TheVariants.{In, Nop, Out, Rcc, Ret};
ghost use Rattle.sp_model.specs.Good.{AllRunsAreGood, IsEntry, IsGood, IsGoodAt, IsReturnStep, Keeps, base};
ghost use Rattle.sp_model.specs.Note.{Note};
ghost use Rattle.sp_model.specs.State.{State, IsState, next_instr, run, step};
ghost use Rattle.sp_model.specs.Unit.{Area, Routine, Unit};
ghost use Rattle.sp_examples.specs.Images.{one_byte};
ghost use Rattle.sp_examples.specs.Notes.{BindsEverywhere, HasOverlap, NeedNoNames, StandForValues};
ghost use Rattle.sp_examples.specs.States.{elsewhere, end_cells, left, ready, stopped, with_a, with_input, with_output, with_sp, with_z};
ghost use Rattle.sp_examples.specs.Units.{IsEntryOf, IsFree, IsGoodOf, MayLeave, ReturnsAt, RunIsGood, a_is, alone, begin, bytes_of, caller, calling, entered, far, finish, given, guard, hop, hopping, landing, line, load, only, push, pushed_word, run_on, send, store, take, watch, write};

/// `STA w` is good exactly where an area listed as changed has the cell w, whatever areas are listed as read.
pub fn stores_are_listed()
    ensures { (w : ℕ) (reads areas : List Area) → IsFree w
        → AllRunsAreGood (alone (store w reads areas))
        ↔ ((area : Area) × Contains areas area × ((area.address ≤ w) × (w < area.address + area.len))) }
{}

/// `OUT 5` is good exactly where port 5 is listed for outputs.
pub fn outputs_are_listed()
    ensures { (ins outs : List ℕ) → AllRunsAreGood (alone (send ins outs)) ↔ Contains outs 5 }
{}

/// `IN 5` is good exactly where port 5 is listed for inputs.
pub fn inputs_are_listed()
    ensures { (ins outs : List ℕ) → AllRunsAreGood (alone (take ins outs)) ↔ Contains ins 5 }
{}

/// `MVI A,5` is good exactly where A is listed as changed, whatever is listed as read.
pub fn registers_are_listed()
    ensures { (reads changes : List Loc) → AllRunsAreGood (alone (load reads changes [] [])) ↔ Contains changes loc.A }
{}

/// After `MVI A,5` a postcondition or an assertion `A = n` is true exactly where n is 5.
pub fn annotations_are_true()
    ensures post { (n : ℕ) → AllRunsAreGood (alone (load [] (loc.A ∷ []) (a_is n ∷ []) [])) ↔ (n ≡ 5) }
    ensures asserts { (n : ℕ) → AllRunsAreGood (alone (load [] (loc.A ∷ []) [] (a_is n ∷ []))) ↔ (n ≡ 5) }
{}

/// `PUSH B`, `POP B`, `RET` is good exactly with two bytes of stack or more. At the POP the word on the stack is that
/// of BC at the entry, and it isn't the next one.
pub fn stack_is_taken_within_depth()
    ensures depth { (depth : ℕ) → AllRunsAreGood (alone (push depth [])) ↔ (2 ≤ depth) }
    ensures word { AllRunsAreGood (alone (push 2 (pushed_word 1 ∷ []))) }
    ensures other { ¬ AllRunsAreGood (alone (push 2 (pushed_word 2 ∷ []))) }
{}

/// With nothing listed, `STA w` is good exactly where w is one of the `depth` bytes below the base, and never at the base:
/// for a start routine the base is the address past the stack region, for another it is SP at the entry.
pub fn allotment_lies_below_base()
    ensures start { (depth w : ℕ) → 0x200 ≤ w → w < 65536
        → AllRunsAreGood (alone (write true depth w)) ↔ ((w < 0x2400) × (0x2400 ≤ w + depth)) }
    ensures other { (depth w sp : ℕ) → 0x200 ≤ w → w < 65536
        → RunIsGood (write false depth w) (entered (write false depth w) sp) ↔ ((w < sp) × (sp ≤ w + depth)) }
{}

/// A routine is entered with stack room for its return address and its depth, and a start routine with any SP.
pub fn entries_have_room()
    ensures room { (depth sp : ℕ)
        → IsEntryOf (push depth []) (entered (push depth []) sp) ↔ ((0x2300 + depth ≤ sp) × (sp + 1 ≤ 0x23FF)) }
    ensures start { (depth sp w : ℕ) → w < 65536 → sp < 65536
        → IsEntryOf (write true depth w) (entered (write true depth w) sp) }
{}

/// Each program here is entered in some state, so that nothing is said of it for want of an entry.
pub fn programs_are_entered()
    ensures store { (w : ℕ) (reads areas : List Area) → w < 65536
        → IsEntryOf (store w reads areas) (entered (store w reads areas) 0x2380) }
    ensures send { (ins outs : List ℕ) → IsEntryOf (send ins outs) (entered (send ins outs) 0x2380) }
    ensures take { (ins outs : List ℕ) → IsEntryOf (take ins outs) (entered (take ins outs) 0x2380) }
    ensures load { (reads changes : List Loc) (post asserts : List Note)
        → IsEntryOf (load reads changes post asserts) (entered (load reads changes post asserts) 0x2380) }
    ensures watch { (w : ℕ) → w ≢ 0x100 → IsEntryOf (watch w) (ready ((w, 1) ∷ bytes_of (watch w).code) 0x100 0x2380) }
    ensures far { (w : ℕ) → w < 65536 → IsEntryOf (far w) (entered (far w) 0x2380) }
    ensures ended { IsEntryOf (run_on (line 0x101 Ret ∷ [])) (entered (run_on (line 0x101 Ret ∷ [])) 0x2380) }
    ensures unended { IsEntryOf (run_on []) (entered (run_on []) 0x2380) }
    ensures hop { (w : ℕ) (asserts : List Note) → w < 65536
        → IsEntry (hopping w asserts) (hop w) (ready (bytes_of ((hop w).code ++ (landing asserts).code)) 0x100 0x2380) }
    ensures caller { (depth : ℕ)
        → IsEntry (calling depth) (caller depth) (ready (bytes_of ((push 2 []).code ++ (caller depth).code)) 0x110 0) }
{}

/// A state is no entry without the image, at another address, halted, or with a part out of its range. The state that is
/// changed here is an entry by the law on room.
pub fn entries_are_whole()
    ensures loaded { ¬ IsEntryOf (push 2 []) (ready [] 0x100 0x2380) }
    ensures address { ¬ IsEntryOf (push 2 []) (elsewhere (entered (push 2 []) 0x2380)) }
    ensures running { ¬ IsEntryOf (push 2 []) (stopped (entered (push 2 []) 0x2380)) }
    ensures state { ¬ IsEntryOf (push 2 []) (with_input 256 (entered (push 2 []) 0x2380)) }
{}

/// Preconditions are true at an entry, whatever the postconditions: A is 7 in the given state.
pub fn preconditions_are_true()
    ensures { (m n : ℕ)
        → IsEntryOf (guard (a_is m ∷ []) (a_is n ∷ [])) (entered (guard [] []) 0x2380) ↔ (m ≡ 7) }
{}

/// The two empty premises. A precondition that no state meets, and a depth that leaves no room in the stack region, leave
/// a routine without an entry, and then nothing is claimed of it: a program of it alone is good, whatever its
/// postconditions and assertions.
pub fn routines_without_entry()
    ensures pre { (n : ℕ) (s : State) → ¬ IsEntryOf (guard (a_is 256 ∷ []) (a_is n ∷ [])) s }
    ensures room { (asserts : List Note) (s : State) → ¬ IsEntryOf (push 0xFF asserts) s }
    ensures good { (r : Routine) → ((s : State) → ¬ IsEntryOf r s) → AllRunsAreGood (alone r) }
{}

/// A step returns exactly where its instruction returns and SP is the base: SP at the entry, or the address past the stack
/// region for a start routine. A conditional return does so where its condition holds. A halted state returns nowhere.
pub fn returns_are_at_base()
    ensures base { (sp : ℕ) → ReturnsAt Ret (with_sp sp (given Ret)) ↔ (sp ≡ 0x2380) }
    ensures start { (sp : ℕ)
        → IsReturnStep (alone (begin Ret)) (begin Ret) (given Ret) (with_sp sp (given Ret)) ↔ (sp ≡ 0x2400) }
    ensures condition { (z : ℕ) → ReturnsAt (Rcc when.Z) (with_z z (given (Rcc when.Z))) ↔ (z ≡ 1) }
    ensures halted { ¬ ReturnsAt Ret (stopped (given Ret)) }
    ensures other { ¬ ReturnsAt Nop (given Nop) }
{}

/// After a return: the postcondition is true (A is 9), a register that isn't listed is as at the entry (B is 1), SP is two
/// higher, PC is the word that stood at the base (1234H) even if it was written since, bytes went to listed ports alone
/// (port 5), and only a listed cell (2000H, 2380H) or one of the two bytes below the base (2380H) was written.
pub fn returns_leave_what_is_listed()
    ensures { (a b sp pc port w : ℕ) → w < 65536
        → MayLeave (ready end_cells 0x100 0x2380) (left a b sp pc port w (ready end_cells 0x100 0x2380))
        ↔ ((a ≡ 9) × (b ≡ 1) × (sp ≡ 0x2382) × (pc ≡ 0x1234) × (port ≡ 5)
        × ((w ≡ 0x2000) ⊎ ((0x237E ≤ w) × (w ≤ 0x2380)))) }
{}

/// A halted state is good whatever stands at its PC. One that isn't halted is bad where no instruction begins, or where
/// an IN takes from a port that isn't listed.
pub fn halted_states_go_nowhere()
    ensures halted { (i : Instr) (cells : List (ℕ × ℕ))
        → IsGoodOf i (ready cells 0x100 0x2380) (stopped (ready cells 0x100 0x2380)) }
    ensures stuck { ¬ IsGoodOf Nop (ready ((0x100, 8) ∷ []) 0x100 0x2380) (ready ((0x100, 8) ∷ []) 0x100 0x2380) }
    ensures input { ¬ IsGoodOf (In 5) (given (In 5)) (given (In 5)) }
{}

/// A run that leaves the code is bad: NOP is good with a RET after it, and bad with none. Where a JMP leads to, an
/// instruction of some routine begins: here the JMP itself, at 100H, or the RET of another routine, at 110H.
pub fn runs_stay_in_code()
    ensures ended { AllRunsAreGood (alone (run_on (line 0x101 Ret ∷ []))) }
    ensures unended { ¬ AllRunsAreGood (alone (run_on [])) }
    ensures jump { (w : ℕ) → w < 65536 → AllRunsAreGood (hopping w []) ↔ ((w ≡ 0x100) ⊎ (w ≡ 0x110)) }
{}

/// The assertions of a routine are its own: a false one where another routine goes on is nothing to that other one. All
/// routines of a program count: this one is bad by its second routine.
pub fn assertions_are_those_of_the_routine()
    ensures first { (n : ℕ) (s : State) → IsEntry (hopping 0x110 (a_is 5 ∷ [])) (hop 0x110) s
        → IsGood (hopping 0x110 (a_is 5 ∷ [])) (hop 0x110) s n }
    ensures second { ¬ AllRunsAreGood (hopping 0x110 (a_is 5 ∷ [])) }
{}

/// A RET with another SP than the base is a jump: it goes on at the word that was pushed, which is good at the second RET,
/// and bad past it.
pub fn other_returns_are_jumps()
    ensures good { AllRunsAreGood (alone (far 0x105)) }
    ensures bad { ¬ AllRunsAreGood (alone (far 0x106)) }
{}

/// A start routine that calls a routine is good exactly with stack for both: two bytes for the return address, and the
/// two that the routine takes. The RET of the routine isn't the caller's return, since SP isn't the caller's base.
pub fn calls_are_within_depth()
    ensures { (depth : ℕ) → AllRunsAreGood (calling depth) ↔ (4 ≤ depth) }
{}

/// Annotations see zeros in the stack region, from its first cell to its last, and memory elsewhere: `mem[w] = 0` is true in
/// all runs exactly there; 100H has the program.
pub fn annotations_see_no_stack()
    ensures { (w : ℕ) → w < 65536 → w ≢ 0x100
        → AllRunsAreGood (alone (watch w)) ↔ ((0x2300 ≤ w) × (w ≤ 0x23FF)) }
{}

/// IN takes the next byte to come, or 255 where there is none, and puts nothing out. OUT puts its port and A after what was
/// put out before, and takes nothing. Other instructions leave both.
pub fn steps_at_ports()
    ensures taken { (s : State) (port n x : ℕ) (rest : List ℕ)
        → s.core.halted ≡ false → next_instr s.core ≡ Some (In port, n) → s.inputs ≡ x ∷ rest
        → ((step s).core.a ≡ x) × ((step s).inputs ≡ rest) × ((step s).outputs ≡ s.outputs) }
    ensures past_end { (s : State) (port n : ℕ)
        → s.core.halted ≡ false → next_instr s.core ≡ Some (In port, n) → s.inputs ≡ []
        → ((step s).core.a ≡ 255) × ((step s).inputs ≡ []) × ((step s).outputs ≡ s.outputs) }
    ensures put_out { (s : State) (port n : ℕ) → s.core.halted ≡ false → next_instr s.core ≡ Some (Out port, n)
        → ((step s).inputs ≡ s.inputs) × ((step s).outputs ≡ s.outputs ++ (port, s.core.a) ∷ []) }
    ensures neither { (s : State) (i : Instr) (n : ℕ) → s.core.halted ≡ false → next_instr s.core ≡ Some (i, n)
        → takes_input i ≡ None → gives_output i s.core ≡ None
        → ((step s).inputs ≡ s.inputs) × ((step s).outputs ≡ s.outputs) }
{}

/// A state has bytes in its registers, among its inputs, and as ports and bytes among its outputs.
pub fn states_are_in_range()
    ensures register { (a : ℕ) → IsState (with_a a (given Nop)) ↔ (a < 256) }
    ensures input { (byte : ℕ) → IsState (with_input byte (given Nop)) ↔ (byte < 256) }
    ensures output { (port byte : ℕ) → IsState (with_output port byte (given Nop)) ↔ ((port < 256) × (byte < 256)) }
{}

/// Nothing has changed between a state and itself, and what two parts of a run keep the whole keeps, where the base is the
/// same.
pub fn keeping_composes()
    ensures itself { (u : Unit) (r : Routine) (s : State) → Keeps u r s s }
    ensures parts { (u : Unit) (r : Routine) (s t v : State)
        → base u r t ≡ base u r s → Keeps u r s t → Keeps u r t v → Keeps u r s v }
{}

/// What is claimed of no step is claimed of the entry; of one step more, of the state after it too, if no step before it
/// returned; and once one returned, of no further state.
pub fn claims_grow_by_steps()
    ensures none { (u : Unit) (r : Routine) (s : State) → IsGood u r s 0 ↔ IsGoodAt u r s s }
    ensures more { (u : Unit) (r : Routine) (s : State) (n : ℕ)
        → IsGood u r s (n + 1)
        ↔ (IsGood u r s n
        × (((k : ℕ) → k ≤ n → ¬ IsReturnStep u r s (run s k)) → IsGoodAt u r s (run s (n + 1)))) }
    ensures returned { (u : Unit) (r : Routine) (s : State) (n m : ℕ)
        → IsGood u r s n → IsReturnStep u r s (run s n) → IsGood u r s m }
{}

/// A name stands in a note only where a quantifier of this name binds it, wherever in the note a number may stand. A
/// quantifier binds its name inside, and not in its ends.
pub fn notes_bind_their_names()
    ensures { BindsEverywhere }
{}

/// A part of a note stands for its number, or for its truth value, between the same two machines and with the same bound
/// names as the note: the note says the same if the number or the truth value is written instead.
pub fn parts_stand_for_their_values()
    ensures { StandForValues }
{}

/// `band`, `bor` and `bxor` have the bits that are in both numbers, in either, and in one alone.
pub fn notes_tell_bits_apart()
    ensures { HasOverlap }
{}

/// An image is in memory where its addresses are below 65,536 and its bytes below 256.
pub fn images_lie_in_memory()
    ensures { (a byte : ℕ) → IsInMemory (one_byte a byte) ↔ ((a < 65536) × (byte < 256)) }
{}

/// What a closed note says depends on no number of a name from outside.
pub fn closed_notes_stand_alone()
    ensures { NeedNoNames }
{}
