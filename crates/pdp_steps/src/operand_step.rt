//! How an operand is found, read and written.

ghost use Rattle.std.specs.Prelude.{◌≡◌, ◌<◌, Ok};
ghost use Rattle.pdp_word.specs.Size.{span};
ghost use Rattle.pdp_operand.specs.Handbook.Operand.{cell_in, grow as grow_phase};
ghost use Rattle.pdp_operand.specs.Handbook.Operand.{index as index_phase};
ghost use Rattle.pdp_operand.specs.Handbook.Operand.{indirect as indirect_phase, mode_now};
ghost use Rattle.pdp_operand.specs.Handbook.Operand.{lower as lower_phase, point as point_phase};
ghost use Rattle.pdp_operand.specs.Handbook.Operand.{name_register as name_phase, size_of_fill};
ghost use Rattle.pdp_operand.specs.Handbook.Operand.{read_before_write as read_first_phase};
ghost use Rattle.pdp_operand.specs.Handbook.Operand.{read_operand, write_operand};
ghost use Rattle.pdp_operand.specs.Handbook.RegisterId.{register_id_of};
ghost use Rattle.pdp_steps.specs.Contract.{IsPhase};
ghost use Rattle.pdp_steps.specs.Steps.{CanWrite, phase_of_operand_step};

use crate::step_latch::StepLatch;
use pdp_operand::{
    Cell, Fill, Place, Processor, RegisterId, Trap, fetch, fetch_before_store, lower, read_word,
    store,
};
use pdp_store::Store;
use pdp_unibus::Bus;
use pdp_word::Size;

/// A step that finds, reads or writes an operand.
///
/// DEC PDP-11/40 Processor Handbook (1972), Addressing modes.
#[derive(Clone, Copy)]
pub enum OperandStep {
    /// R: the operand is the register.
    NameRegister { register: u8 },
    /// (R): the operand is at the address in the register.
    Point { register: u8 },
    /// (R)+: the same, and the register grows.
    Grow { register: u8, step: u16 },
    /// -(R): the register shrinks, and the operand is at the address in it then.
    Shrink { register: u8, step: u16 },
    /// X(R): the operand is at the register plus the word at PC.
    Index { register: u8 },
    /// The operand is at the address in the operand.
    Indirect,
    /// The operand is read.
    Read { size: Size },
    /// The operand is read, and will be written.
    ReadBeforeWrite { size: Size },
    /// The result is written.
    Write { fill: Fill },
}

impl OperandStep {
    /// Runs the step.
    ///
    /// Err if a reference faults, or if the kernel's stack is past its limit.
    #[inline(always)]
    pub fn run<S: Store, D: Store>(
        self,
        processor: &mut Processor,
        bus: &mut Bus<S, D>,
        latch: &mut StepLatch,
    ) -> Result<(), Trap>
        requires { CanWrite self latch.old }
        ensures phase { IsPhase (phase_of_operand_step self) processor.old bus.old latch.old result
            processor.new bus.new latch.new }
        ensures result { latch.new.result ≡ latch.old.result }
    {
        match self {
            OperandStep::NameRegister { register } => {
                name_register(processor, bus, latch, register);
                Ok(())
            }
            OperandStep::Point { register } => {
                point(processor, bus, latch, register);
                Ok(())
            }
            OperandStep::Grow { register, step } => {
                grow(processor, bus, latch, register, step);
                Ok(())
            }
            OperandStep::Shrink { register, step } => {
                shrink(processor, bus, latch, register, step)
            }
            OperandStep::Index { register } => index(processor, bus, latch, register),
            OperandStep::Indirect => follow(processor, bus, latch),
            OperandStep::Read { size } => read(processor, bus, latch, size),
            OperandStep::ReadBeforeWrite { size } => read_first(processor, bus, latch, size),
            OperandStep::Write { fill } => write(processor, bus, latch, fill),
        }
    }
}

/// The virtual address in the space of the mode of now.
#[inline(always)]
fn place_at<S: Store, D: Store>(bus: &Bus<S, D>, address: u16) -> Place
    ensures { result ≡ cell_in bus.now.io_page.status.mode address }
{
    Place::Mem(Cell {
        mode: bus.status().mode,
        address,
        yellow: false,
    })
}

/// The register that a number names in the mode of now.
#[inline(always)]
pub(crate) fn named<S: Store, D: Store>(bus: &Bus<S, D>, register: u8) -> RegisterId
    ensures { result ≡ register_id_of bus.now.io_page.status.mode register }
{
    RegisterId::of(bus.status().mode, register)
}

#[inline(always)]
#[tactic(auto, unfolding(crate::proofs::Rules::finding))]
fn name_register<S: Store, D: Store>(
    processor: &Processor,
    bus: &Bus<S, D>,
    latch: &mut StepLatch,
    register: u8,
)
    ensures phase { IsPhase (name_phase register) processor.now bus.now latch.old (Ok tt)
        processor.now bus.now latch.new }
    ensures result { latch.new.result ≡ latch.old.result }
{
    latch.place = Place::Reg(named(bus, register));
}

#[inline(always)]
#[tactic(auto, unfolding(crate::proofs::Rules::finding))]
fn point<S: Store, D: Store>(
    processor: &Processor,
    bus: &Bus<S, D>,
    latch: &mut StepLatch,
    register: u8,
)
    ensures phase { IsPhase (point_phase register) processor.now bus.now latch.old (Ok tt)
        processor.now bus.now latch.new }
    ensures result { latch.new.result ≡ latch.old.result }
{
    latch.place = place_at(bus, processor.register(named(bus, register)));
}

#[inline(always)]
#[tactic(auto, unfolding(crate::proofs::Rules::finding))]
fn grow<S: Store, D: Store>(
    processor: &mut Processor,
    bus: &Bus<S, D>,
    latch: &mut StepLatch,
    register: u8,
    step: u16,
)
    ensures phase { IsPhase (grow_phase register step) processor.old bus.now latch.old (Ok tt)
        processor.new bus.now latch.new }
    ensures result { latch.new.result ≡ latch.old.result }
{
    let id = named(bus, register);
    latch.place = place_at(bus, processor.register(id));
    processor.advance(id, step);
}

#[inline(always)]
#[tactic(auto, unfolding(crate::proofs::Rules::finding))]
fn shrink<S: Store, D: Store>(
    processor: &mut Processor,
    bus: &Bus<S, D>,
    latch: &mut StepLatch,
    register: u8,
    step: u16,
) -> Result<(), Trap>
    ensures phase { IsPhase (lower_phase mode_now register step) processor.old bus.now latch.old
        result processor.new bus.now latch.new }
    ensures result { latch.new.result ≡ latch.old.result }
{
    let cell = lower(processor, bus.status().mode, register, step)?;
    latch.place = Place::Mem(cell);
    Ok(())
}

#[inline(always)]
#[tactic(auto, unfolding(crate::proofs::Rules::finding))]
fn index<S: Store, D: Store>(
    processor: &mut Processor,
    bus: &mut Bus<S, D>,
    latch: &mut StepLatch,
    register: u8,
) -> Result<(), Trap>
    ensures phase { IsPhase (index_phase register) processor.old bus.old latch.old result
        processor.new bus.new latch.new }
    ensures result { latch.new.result ≡ latch.old.result }
{
    let mode = bus.status().mode;
    let word = read_word(bus, mode, processor.register(RegisterId::ProgramCounter))?;
    processor.advance(RegisterId::ProgramCounter, 2);
    let base = processor.register(named(bus, register));
    latch.place = place_at(bus, base.wrapping_add(word));
    Ok(())
}

/// The operand is at the address in the operand; of a register it is at 0.
#[inline(always)]
#[tactic(auto, unfolding(crate::proofs::Rules::finding))]
fn follow<S: Store, D: Store>(
    processor: &mut Processor,
    bus: &mut Bus<S, D>,
    latch: &mut StepLatch,
) -> Result<(), Trap>
    ensures phase { IsPhase indirect_phase processor.old bus.old latch.old result processor.new
        bus.new latch.new }
    ensures result { latch.new.result ≡ latch.old.result }
{
    match latch.place {
        Place::Reg(_) => latch.place = place_at(bus, 0),
        Place::Mem(cell) => {
            let address = read_word(bus, cell.mode, cell.address)?;
            processor.mark(cell.yellow);
            latch.place = place_at(bus, address);
        }
    }
    Ok(())
}

#[inline(always)]
fn read<S: Store, D: Store>(
    processor: &mut Processor,
    bus: &mut Bus<S, D>,
    latch: &mut StepLatch,
    size: Size,
) -> Result<(), Trap>
    ensures phase { IsPhase (read_operand size) processor.old bus.old latch.old result
        processor.new bus.new latch.new }
    ensures result { latch.new.result ≡ latch.old.result }
{
    latch.value = fetch(processor, bus, latch.place, size)?;
    Ok(())
}

#[inline(always)]
fn read_first<S: Store, D: Store>(
    processor: &Processor,
    bus: &mut Bus<S, D>,
    latch: &mut StepLatch,
    size: Size,
) -> Result<(), Trap>
    ensures phase { IsPhase (read_first_phase size) processor.now bus.old latch.old result
        processor.now bus.new latch.new }
    ensures result { latch.new.result ≡ latch.old.result }
{
    latch.value = fetch_before_store(processor, bus, latch.place, size)?;
    Ok(())
}

/// A written program status word wins over the codes that are due.
#[inline(always)]
fn write<S: Store, D: Store>(
    processor: &mut Processor,
    bus: &mut Bus<S, D>,
    latch: &mut StepLatch,
    fill: Fill,
) -> Result<(), Trap>
    requires { latch.old.result < span (size_of_fill fill) }
    ensures phase { IsPhase (write_operand fill) processor.old bus.old latch.old result
        processor.new bus.new latch.new }
    ensures result { latch.new.result ≡ latch.old.result }
{
    let to_status = store(processor, bus, latch.place, fill, latch.result)?;
    if to_status {
        latch.codes = None;
    }
    Ok(())
}
