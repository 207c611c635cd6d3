//! The sequence of a trap, and the red sequence.

ghost use Rattle.std.specs.Prelude.{◌≡◌, ◌<◌, Ok};
ghost use Rattle.pdp_unibus.specs.Handbook.BusWorld.{BusWorld};
ghost use Rattle.pdp_operand.specs.Contract.{Follows, Gives, GivesWhere, Runs, RunsWhere, in_cell};
ghost use Rattle.pdp_operand.specs.Contract.{nowhere};
ghost use Rattle.pdp_operand.specs.Phases.Plan.{one};
ghost use Rattle.pdp_operand.specs.declared.processor.Processor.{Processor};
ghost use Rattle.pdp_instruction.specs.Handbook.TrapSequence.{after_trap, enter as enter_phase};
ghost use Rattle.pdp_instruction.specs.Handbook.TrapSequence.{enter_red as enter_red_phase};
ghost use Rattle.pdp_instruction.specs.Handbook.TrapSequence.{give_up as give_up_phase, context};
ghost use Rattle.pdp_instruction.specs.Handbook.TrapSequence.{push_plan, red as red_course};
ghost use Rattle.pdp_instruction.specs.Handbook.TrapSequence.{red_plan, save as save_phase};
ghost use Rattle.pdp_instruction.specs.Handbook.TrapSequence.{sequence, trap_plan, vector_counter};
ghost use Rattle.pdp_instruction.specs.Handbook.TrapSequence.{trap_vector, vector_status};
ghost use Rattle.pdp_instruction.specs.KeptAnswers.{HasVector, IsNewMode, in_counter, in_status};

use crate::saved_context::SavedContext;
use pdp_io_page::Status;
use pdp_kt11::Mode;
use pdp_operand::{Cell, Processor, RegisterId, RunState, Trap, lower, read_word, write_word};
use pdp_store::Store;
use pdp_unibus::Bus;

/// The new PC of a trap, at its vector in kernel space.
#[inline(always)]
#[tactic(auto, unfolding(crate::specs::vector_counter, pdp_operand::specs::run))]
fn read_counter<S: Store, D: Store>(bus: &mut Bus<S, D>, vector: u16) -> Result<u16, Trap>
    ensures gives { (p : Processor) → Gives in_counter (one (vector_counter vector)) p bus.old
        result p bus.new }
{
    read_word(bus, Mode::Kernel, vector)
}

/// The new program status word of a trap, after its new PC.
#[inline(always)]
#[tactic(auto, unfolding(crate::specs::vector_status, pdp_operand::specs::run))]
fn read_status<S: Store, D: Store>(bus: &mut Bus<S, D>, vector: u16) -> Result<u16, Trap>
    requires { vector < 0o1000 }
    ensures gives { (p : Processor) → Gives in_status (one (vector_status vector)) p bus.old result
        p bus.new }
{
    read_word(bus, Mode::Kernel, vector + 2)
}

/// Pushes a word on the stack of the new mode, and returns the cell that it went to.
#[inline(always)]
#[tactic(auto, unfolding(crate::proofs::Rules::trap_pushes))]
fn push<S: Store, D: Store>(
    processor: &mut Processor,
    bus: &mut Bus<S, D>,
    marks: bool,
    mode: Mode,
    word: u16,
) -> Result<Cell, Trap>
    ensures gives { GivesWhere (IsNewMode mode) in_cell (push_plan marks word)
        processor.old bus.old result processor.new bus.new }
{
    let cell = lower(processor, mode, 6, 2)?;
    write_word(bus, cell.mode, cell.address, word)?;
    if marks {
        processor.mark(cell.yellow);
    }
    Ok(cell)
}

/// PC and the program status become the new ones, and the previous mode the old one.
#[inline(always)]
#[tactic(auto, unfolding(crate::specs::Handbook::TrapSequence::enter, pdp_operand::specs::run))]
fn enter<S: Store, D: Store>(
    processor: &mut Processor,
    bus: &mut Bus<S, D>,
    context: SavedContext,
    counter: u16,
    word: u16,
)
    ensures runs { RunsWhere (HasVector counter word) (one (enter_phase context))
        processor.old bus.old (Ok tt) processor.new bus.new }
{
    processor.set_register(RegisterId::ProgramCounter, counter);
    bus.set_status(Status {
        previous: context.status.mode,
        ..Status::of_word(word)
    });
}

/// The sequence of the trap with this vector (octal). `marks` says whether its pushes may leave a
/// stack trap pending.
///
/// Err if it can't go on; PC is then as before, and so is the program status, but if a push wrote
/// over it.
#[inline(never)]
#[tactic(auto, unfolding(crate::specs::Handbook::TrapSequence::trap_plan))]
fn trap<S: Store, D: Store>(
    processor: &mut Processor,
    bus: &mut Bus<S, D>,
    marks: bool,
    vector: u16,
    context: SavedContext,
) -> Result<(), Trap>
    requires { vector < 0o1000 }
    ensures runs { Runs (trap_plan marks vector context) processor.old bus.old result processor.new
        bus.new }
{
    let counter = read_counter(bus, vector)?;
    let word = read_status(bus, vector)?;
    let mode = Status::of_word(word).mode;
    push(processor, bus, marks, mode, context.status.word())?;
    push(processor, bus, marks, mode, context.counter)?;
    enter(processor, bus, context, counter, word);
    Ok(())
}

/// Writes a word in kernel space.
#[inline(always)]
#[tactic(auto, unfolding(crate::specs::Handbook::TrapSequence::save, pdp_operand::specs::run))]
fn save<S: Store, D: Store>(bus: &mut Bus<S, D>, address: u16, word: u16) -> Result<(), Trap>
    ensures gives { (p : Processor) → Gives nowhere (one (save_phase address word)) p bus.old result
        p bus.new }
{
    write_word(bus, Mode::Kernel, address, word)?;
    Ok(())
}

/// The same as `enter`, with kernel R6 0 and no trap of the processor pending.
#[inline(always)]
#[tactic(auto, unfolding(crate::specs::Handbook::TrapSequence::enter_red, pdp_operand::specs::run))]
fn enter_red<S: Store, D: Store>(
    processor: &mut Processor,
    bus: &mut Bus<S, D>,
    context: SavedContext,
    counter: u16,
    word: u16,
)
    ensures runs { RunsWhere (HasVector counter word) (one (enter_red_phase context))
        processor.old bus.old (Ok tt) processor.new bus.new }
{
    processor.set_register(RegisterId::ProgramCounter, counter);
    processor.set_register(RegisterId::KernelStack, 0);
    processor.set_stack_trap(false);
    processor.set_trace_trap(false);
    bus.set_status(Status {
        previous: context.status.mode,
        ..Status::of_word(word)
    });
}

/// The red sequence.
///
/// Err if it can't go on; PC and the program status are then as before.
#[inline(never)]
#[tactic(auto, using(crate::proofs::Steps::run_bare_stack), unfolding(crate::specs::red_plan))]
fn red_trap<S: Store, D: Store>(
    processor: &mut Processor,
    bus: &mut Bus<S, D>,
    context: SavedContext,
) -> Result<(), Trap>
    ensures runs { Runs (red_plan context) processor.old bus.old result processor.new bus.new }
{
    processor.set_register(RegisterId::KernelStack, 4);
    let counter = read_counter(bus, 4)?;
    let word = read_status(bus, 4)?;
    save(bus, 2, context.status.word())?;
    save(bus, 0, context.counter)?;
    enter_red(processor, bus, context, counter, word);
    Ok(())
}

/// The processor halts, with the old PC and the old program status.
#[inline(always)]
#[tactic(auto, using(crate::proofs::Steps::run_give_up))]
fn give_up<S: Store, D: Store>(
    processor: &mut Processor,
    bus: &mut Bus<S, D>,
    context: SavedContext,
)
    ensures runs { Runs (one (give_up_phase context)) processor.old bus.old
        (Ok tt) processor.new bus.new }
{
    processor.set_register(RegisterId::ProgramCounter, context.counter);
    processor.set_run(RunState::Halted);
    bus.set_status(context.status);
}

/// The red sequence; if it can't go on the processor halts.
#[inline(never)]
#[tactic(auto, using(crate::proofs::Rules::endings), unfolding(crate::proofs::Rules::red_course))]
fn red<S: Store, D: Store>(processor: &mut Processor, bus: &mut Bus<S, D>, context: SavedContext)
    ensures follows { Follows (red_course context) processor.old bus.old processor.new bus.new }
{
    match red_trap(processor, bus, context) {
        Ok(()) => {}
        Err(_trap) => give_up(processor, bus, context),
    }
}

/// The sequence of the trap or interrupt with this vector (octal, bytes). `context` is what it
/// saves: PC and the program status of when it begins. `marks` says whether its pushes may leave a
/// stack trap pending.
///
/// If it can't go on, it becomes the red sequence, which saves the same. If that can't go on, the
/// processor halts. DEC PDP-11/40 Processor Handbook (1972), Processor traps and Stack limit
/// violations; that the vector is read before the pushes, and how the red sequence ends, are [P].
#[inline(never)]
#[tactic(auto, using(crate::proofs::Rules::endings), unfolding(crate::proofs::Rules::sequences))]
pub fn begin_sequence<S: Store, D: Store>(
    processor: &mut Processor,
    bus: &mut Bus<S, D>,
    marks: bool,
    vector: u16,
    context: SavedContext,
)
    requires { vector < 0o1000 }
    ensures follows { Follows (sequence marks vector context) processor.old bus.old processor.new
        bus.new }
{
    match trap(processor, bus, marks, vector, context) {
        Ok(()) => {}
        Err(_trap) => red(processor, bus, context),
    }
}

/// Where the new PC and the new program status word of a trap are.
pub fn vector(trap: Trap) -> u16
    ensures vector { result ≡ trap_vector trap }
    ensures below { result < 0o1000 }
{
    match trap {
        Trap::OddAddress | Trap::BusTimeout | Trap::JumpToRegister | Trap::StackLimit => 0o4,
        Trap::Reserved => 0o10,
        Trap::Breakpoint => 0o14,
        Trap::InputOutput => 0o20,
        Trap::Emulator => 0o30,
        Trap::TrapInstruction => 0o34,
        Trap::MappingAbort => 0o250,
    }
}

/// What follows if an instruction or its fetch can't go on.
#[cold]
#[inline(never)]
pub fn handle<S: Store, D: Store>(processor: &mut Processor, bus: &mut Bus<S, D>, trap: Trap)
    ensures follows { Follows (after_trap trap (context processor.old bus.old.io_page))
        processor.old bus.old processor.new bus.new }
{
    let context = SavedContext::of(processor, bus);
    if trap == Trap::StackLimit {
        red(processor, bus, context);
    } else {
        begin_sequence(processor, bus, true, vector(trap), context);
    }
}
