ghost use Rattle.std.specs.Prelude.{◌≡◌, ◌<◌, ◌%◌, Ok, IfOk};
ghost use Rattle.pdp_word.specs.Size.{span};
ghost use Rattle.pdp_operand.specs.Handbook.Operand.{cell_in, find, grow, index, indirect};
ghost use Rattle.pdp_operand.specs.Handbook.Operand.{is_status, lower as lower_phase};
ghost use Rattle.pdp_operand.specs.Handbook.Operand.{lowering_result, after_lowering, mode_now};
ghost use Rattle.pdp_operand.specs.Handbook.Operand.{point, read_before_write, read_operand};
ghost use Rattle.pdp_operand.specs.Handbook.Operand.{size_of_fill, step_of, write_operand};
ghost use Rattle.pdp_operand.specs.Contract.{Gives, GivesWhere, IsAt, IsToWrite, in_cell, in_codes};
ghost use Rattle.pdp_operand.specs.Contract.{in_place, in_value};
ghost use Rattle.pdp_operand.specs.Phases.Plan.{one};
ghost use Rattle.pdp_operand.specs.Handbook.Processor.{register_of};
ghost use Rattle.pdp_operand.specs.Handbook.RegisterId.{register_id_of};
ghost use Rattle.pdp_operand.specs.declared.place.Place.TheVariants.{Mem};

use crate::place::{Cell, Fill, Place};
use crate::processor::{Processor, RegisterId};
use crate::reference::{read_byte, read_word, write_byte, write_word};
use pdp_action::Trap;
use pdp_decode::Specifier;
use pdp_kt11::Mode;
use pdp_store::Store;
use pdp_unibus::Bus;
use pdp_word::{Size, sign_extend};

/// The yellow zone of the kernel's stack is below this virtual byte address: DEC PDP-11/40
/// Processor Handbook (1972), Stack limit; the number is [P].
pub const YELLOW_LIMIT: u16 = 0o400;

/// Its red zone is below this one.
const RED_LIMIT: u16 = 0o340;

/// The virtual address in the space of the mode.
#[inline(always)]
fn cell_at(mode: Mode, address: u16) -> Cell
    ensures { Mem result ≡ cell_in mode address }
{
    Cell {
        mode,
        address,
        yellow: false,
    }
}

/// The register that a number names in the mode of now.
#[inline(always)]
fn register_id<S: Store, D: Store>(bus: &Bus<S, D>, register: u8) -> RegisterId
    ensures { result ≡ register_id_of bus.now.io_page.status.mode register }
{
    RegisterId::of(bus.status().mode, register)
}

/// (R)
#[inline(always)]
#[tactic(auto, unfolding(crate::specs::Phases::Phase::run, crate::specs::Handbook::Operand::point))]
fn pointed<S: Store, D: Store>(processor: &Processor, bus: &Bus<S, D>, register: u8) -> Cell
    ensures gives { Gives in_cell (one (point register)) processor.now bus.now
        (Ok result) processor.now bus.now }
{
    cell_at(
        bus.status().mode,
        processor.register(register_id(bus, register)),
    )
}

/// (R)+
#[inline(always)]
#[tactic(auto, unfolding(crate::specs::Phases::Phase::run, crate::specs::Handbook::Operand::grow))]
fn grown<S: Store, D: Store>(
    processor: &mut Processor,
    bus: &Bus<S, D>,
    register: u8,
    step: u16,
) -> Cell
    ensures gives { Gives in_cell (one (grow register step)) processor.old bus.now
        (Ok result) processor.new bus.now }
{
    let id = register_id(bus, register);
    let cell = cell_at(bus.status().mode, processor.register(id));
    processor.advance(id, step);
    cell
}

/// Lowers the register by the step (bytes), and returns the cell at the address in it then, in the
/// space of the mode: -(R), and a push, which goes to R6 of the mode whose stack it is. If that is
/// the kernel's stack pointer, below 400 (octal) the cell is in the yellow zone of its stack.
///
/// DEC PDP-11/40 Processor Handbook (1972), Addressing modes and Stack limit; 340 and 400 (octal)
/// are [P].
///
/// Err(StackLimit) if the register is the kernel's stack pointer and the address is below 340
/// (octal); the processor is then as before.
#[inline(always)]
pub fn lower(processor: &mut Processor, mode: Mode, register: u8, step: u16) -> Result<Cell, Trap>
    ensures cell { result ≡ lowering_result mode register step processor.old }
    ensures after { processor.new ≡ after_lowering mode register step processor.old }
{
    let id = RegisterId::of(mode, register);
    let address = processor.register(id).wrapping_sub(step);
    let yellow = id == RegisterId::KernelStack && address < YELLOW_LIMIT;
    if yellow && address < RED_LIMIT {
        return Err(Trap::StackLimit);
    }
    processor.set_register(id, address);
    Ok(Cell {
        mode,
        address,
        yellow,
    })
}

/// -(R)
#[inline(always)]
#[tactic(auto, unfolding(crate::specs::Phases::Phase::run, crate::specs::Handbook::Operand::lower))]
fn shrunk<S: Store, D: Store>(
    processor: &mut Processor,
    bus: &Bus<S, D>,
    register: u8,
    step: u16,
) -> Result<Cell, Trap>
    ensures gives { Gives in_cell (one (lower_phase mode_now register step))
        processor.old bus.now result processor.new bus.now }
{
    lower(processor, bus.status().mode, register, step)
}

/// X(R)
#[inline(always)]
#[tactic(auto, unfolding(crate::specs::Phases::Phase::run, crate::specs::Handbook::Operand::index))]
fn indexed<S: Store, D: Store>(
    processor: &mut Processor,
    bus: &mut Bus<S, D>,
    register: u8,
) -> Result<Cell, Trap>
    ensures gives { Gives in_cell (one (index register)) processor.old bus.old result processor.new
        bus.new }
{
    let mode = bus.status().mode;
    let word = read_word(bus, mode, processor.register(RegisterId::ProgramCounter))?;
    processor.advance(RegisterId::ProgramCounter, 2);
    let base = processor.register(register_id(bus, register));
    Ok(cell_at(bus.status().mode, base.wrapping_add(word)))
}

/// The cell whose address is the word in this one.
#[inline(always)]
#[tactic(auto, unfolding(crate::specs::run, crate::specs::Handbook::Operand::indirect))]
fn deferred<S: Store, D: Store>(
    processor: &mut Processor,
    bus: &mut Bus<S, D>,
    cell: Cell,
) -> Result<Cell, Trap>
    ensures gives { GivesWhere (IsAt (Mem cell)) in_cell (one indirect)
        processor.old bus.old result processor.new bus.new }
{
    let address = read_word(bus, cell.mode, cell.address)?;
    processor.mark(cell.yellow);
    Ok(cell_at(bus.status().mode, address))
}

/// By how much (R)+ and -(R) change the register, in bytes.
#[inline(always)]
fn step(size: Size, register: u8) -> u16
    ensures { result ≡ step_of size register }
{
    match size {
        Size::Byte if register < 6 => 1,
        _ => 2,
    }
}

/// Finds the operand that a specifier names, with the changes of registers and the references that
/// this makes.
///
/// DEC PDP-11/40 Processor Handbook (1972), Addressing modes: a register changes before the access
/// that it serves [3.12], and keeps its change if the access faults. Once the pointer of @-(SP) was
/// read in the yellow zone of the kernel's stack, a stack trap is pending.
///
/// Err if a reference to memory faults, or if -(SP) or @-(SP) is past the limit of the kernel's
/// stack, as [`lower`] has it.
#[inline(always)]
#[tactic(auto, unfolding(crate::specs::find), using(crate::proofs::Steps::run_name_register))]
pub fn address<S: Store, D: Store>(
    processor: &mut Processor,
    bus: &mut Bus<S, D>,
    operand: Specifier,
    size: Size,
) -> Result<Place, Trap>
    ensures gives { Gives in_place (find size operand) processor.old bus.old result processor.new
        bus.new }
{
    let pointer = match operand {
        Specifier::Register(r) => return Ok(Place::Reg(register_id(bus, r))),
        Specifier::Deferred(r) => return Ok(Place::Mem(pointed(processor, bus, r))),
        Specifier::Autoincrement(r) => {
            return Ok(Place::Mem(grown(processor, bus, r, step(size, r))));
        }
        Specifier::AutoincrementDeferred(r) => grown(processor, bus, r, 2),
        Specifier::Autodecrement(r) => {
            return Ok(Place::Mem(shrunk(processor, bus, r, step(size, r))?));
        }
        Specifier::AutodecrementDeferred(r) => shrunk(processor, bus, r, 2)?,
        Specifier::Index(r) => return Ok(Place::Mem(indexed(processor, bus, r)?)),
        Specifier::IndexDeferred(r) => indexed(processor, bus, r)?,
    };
    let cell = deferred(processor, bus, pointer)?;
    Ok(Place::Mem(cell))
}

/// An operand in a register: its word, or its low byte.
#[inline(always)]
fn register_operand(processor: &Processor, id: RegisterId, size: Size) -> u16
    ensures { result ≡ register_of processor.now id % span size }
{
    let word = processor.register(id);
    match size {
        Size::Word => word,
        Size::Byte => word % 256,
    }
}

/// Reads the operand at a place that isn't written afterwards: a word, or a byte as a number below
/// 400 (octal). If the place is in the yellow zone of the kernel's stack, a stack trap is then
/// pending.
///
/// DEC PDP-11/40 Processor Handbook (1972), Addressing modes and Stack limit; a byte read reads its
/// whole word on the bus [P].
///
/// Err if the reference to memory faults; no stack trap is pending by it then.
#[inline(always)]
#[tactic(auto, unfolding(crate::specs::run, crate::specs::Handbook::Operand::read_operand))]
pub fn fetch<S: Store, D: Store>(
    processor: &mut Processor,
    bus: &mut Bus<S, D>,
    place: Place,
    size: Size,
) -> Result<u16, Trap>
    ensures gives { GivesWhere (IsAt place) in_value (one (read_operand size))
        processor.old bus.old result processor.new bus.new }
    ensures fits { IfOk result (λ value. value < span size) }
{
    match (place, size) {
        (Place::Reg(id), _) => Ok(register_operand(processor, id, size)),
        (Place::Mem(cell), Size::Word) => {
            let word = read_word(bus, cell.mode, cell.address)?;
            processor.mark(cell.yellow);
            Ok(word)
        }
        (Place::Mem(cell), Size::Byte) => {
            let byte = read_byte(bus, cell.mode, cell.address)?;
            processor.mark(cell.yellow);
            Ok(u16::from(byte))
        }
    }
}

/// Reads the operand at a place that is written afterwards: a word, or a byte as a number below 400
/// (octal).
///
/// DEC PDP-11/40 Processor Handbook (1972), Addressing modes; a byte read reads its whole word on
/// the bus, and a stack trap is pending only once the write was made [P].
///
/// Err if the reference to memory faults.
#[inline(always)]
#[tactic(auto, unfolding(crate::specs::run, crate::specs::Handbook::Operand::read_before_write))]
pub fn fetch_before_store<S: Store, D: Store>(
    processor: &Processor,
    bus: &mut Bus<S, D>,
    place: Place,
    size: Size,
) -> Result<u16, Trap>
    ensures gives { GivesWhere (IsAt place) in_value (one (read_before_write size))
        processor.now bus.old result processor.now bus.new }
    ensures fits { IfOk result (λ value. value < span size) }
{
    match (place, size) {
        (Place::Reg(id), _) => Ok(register_operand(processor, id, size)),
        (Place::Mem(cell), Size::Word) => Ok(read_word(bus, cell.mode, cell.address)?),
        (Place::Mem(cell), Size::Byte) => Ok(u16::from(read_byte(bus, cell.mode, cell.address)?)),
    }
}

/// Writes a word, or a byte as a number below 400 (octal), to a place, and answers whether that was
/// the program status word, which then wins over the codes of the instruction. `fill` says how a
/// register is filled. If the place is in the yellow zone of the kernel's stack, a stack trap is
/// then pending.
///
/// DEC PDP-11/40 Processor Handbook (1972), Addressing modes, MOV and Stack limit; a written status
/// wins [2.11].
///
/// Err if the reference to memory faults; nothing is written then, and no stack trap is pending by
/// it.
#[inline(always)]
#[tactic(auto, unfolding(crate::specs::run, crate::specs::Handbook::Operand::write_operand))]
pub fn store<S: Store, D: Store>(
    processor: &mut Processor,
    bus: &mut Bus<S, D>,
    place: Place,
    fill: Fill,
    value: u16,
) -> Result<bool, Trap>
    requires { value < span (size_of_fill fill) }
    ensures gives { GivesWhere (IsToWrite value place) in_codes (one (write_operand fill))
        processor.old bus.old result processor.new bus.new }
{
    match (place, fill) {
        (Place::Reg(id), Fill::Whole) => {
            processor.set_register(id, value);
            Ok(false)
        }
        (Place::Reg(id), Fill::LowByte) => {
            let old = processor.register(id);
            processor.set_register(id, old - old % 256 + value);
            Ok(false)
        }
        (Place::Reg(id), Fill::Extended) => {
            processor.set_register(id, sign_extend(value as u8));
            Ok(false)
        }
        (Place::Mem(cell), Fill::Whole) => {
            let physical = write_word(bus, cell.mode, cell.address, value)?;
            processor.mark(cell.yellow);
            Ok(is_status(physical))
        }
        (Place::Mem(cell), Fill::LowByte | Fill::Extended) => {
            let physical = write_byte(bus, cell.mode, cell.address, value as u8)?;
            processor.mark(cell.yellow);
            Ok(is_status(physical))
        }
    }
}

/// Whether this physical address (bytes) is in the program status word, at 777776 (octal).
///
/// DEC PDP-11/40 Processor Handbook (1972), Processor status word.
#[inline(always)]
pub fn is_status(physical: u32) -> bool
    ensures { result ≡ is_status physical }
{
    physical - physical % 2 == 0o777776
}
