ghost use Rattle.std.specs.Prelude.{◌≡◌};
ghost use Rattle.pdp_operand.specs.Contract.{Runs};
ghost use Rattle.pdp_instruction.specs.Handbook.PreviousMode.{mfpi_plan, mtpi_plan, place_in};
ghost use Rattle.pdp_instruction.specs.Handbook.PreviousMode.{register_id_in};

use crate::finish::finish;
use crate::jump::{POP, PUSH};
use pdp_alu::mov;
use pdp_decode::Specifier;
use pdp_kt11::Mode;
use pdp_operand::{Cell, Fill, Place, Processor, RegisterId, Trap, address, fetch};
use pdp_store::Store;
use pdp_unibus::Bus;
use pdp_word::Size;

/// MFPI: the operand's address is formed in the current mode, the operand is read in the previous
/// mode, and it is pushed on the stack of the current mode. Codes of the word, V 0, C kept.
///
/// DEC PDP-11/40 Processor Handbook (1972), Memory management; the current mode decides whether the
/// kernel's stack has its limit [4.39].
///
/// Err if the operand can't be found or read, or the push can't be made; the codes then stay.
#[inline(never)]
#[tactic(auto, using(crate::proofs::Rules::crossings), unfolding(crate::specs::mfpi_plan))]
pub fn move_from_previous<S: Store, D: Store>(
    processor: &mut Processor,
    bus: &mut Bus<S, D>,
    source: Specifier,
) -> Result<(), Trap>
    ensures runs { Runs (mfpi_plan source) processor.old bus.old result processor.new bus.new }
{
    let place = address(processor, bus, source, Size::Word)?;
    let operand = place_in(bus.status().previous, place);
    let value = fetch(processor, bus, operand, Size::Word)?;
    let top = address(processor, bus, PUSH, Size::Word)?;
    let effect = mov(Size::Word, value, bus.status().codes);
    finish(processor, bus, top, Fill::Whole, effect)
}

/// MTPI: a word is popped from the stack of the current mode, then the destination's address is
/// formed in the current mode, and then the word is written in the previous mode. Codes of the
/// word, V 0, C kept.
///
/// DEC PDP-11/40 Processor Handbook (1972), Memory management; the order: [4.34]. The current mode
/// decides whether the kernel's stack has its limit [4.39].
///
/// Err if the word can't be popped, or the destination can't be found or written; the codes then
/// stay.
#[inline(never)]
#[tactic(auto, using(crate::proofs::Rules::crossings), unfolding(crate::specs::mtpi_plan))]
pub fn move_to_previous<S: Store, D: Store>(
    processor: &mut Processor,
    bus: &mut Bus<S, D>,
    destination: Specifier,
) -> Result<(), Trap>
    ensures runs { Runs (mtpi_plan destination) processor.old bus.old result processor.new bus.new }
{
    let top = address(processor, bus, POP, Size::Word)?;
    let value = fetch(processor, bus, top, Size::Word)?;
    let place = address(processor, bus, destination, Size::Word)?;
    let target = place_in(bus.status().previous, place);
    let effect = mov(Size::Word, value, bus.status().codes);
    finish(processor, bus, target, Fill::Whole, effect)
}

/// The place of the same register or virtual address in this mode: its own stack pointer, its own
/// space. Whether the place is in the yellow zone of the kernel's stack stays.
#[inline(always)]
fn place_in(mode: Mode, place: Place) -> Place
    ensures { result ≡ place_in mode place }
{
    match place {
        Place::Reg(id) => Place::Reg(register_id_in(mode, id)),
        Place::Mem(cell) => Place::Mem(Cell { mode, ..cell }),
    }
}

/// The stack pointer of this mode in place of either; every other register is itself.
#[inline(always)]
#[tactic(auto, unfolding(pdp_operand::specs::Handbook::RegisterId::register_id_of))]
fn register_id_in(mode: Mode, id: RegisterId) -> RegisterId
    ensures { result ≡ register_id_in mode id }
{
    match id {
        RegisterId::KernelStack | RegisterId::UserStack => RegisterId::of(mode, 6),
        _ => id,
    }
}
