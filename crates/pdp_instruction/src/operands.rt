ghost use Rattle.std.specs.Prelude.{◌≡◌, ◌%◌, Ok};
ghost use Rattle.pdp_word.specs.Size.{span};
ghost use Rattle.pdp_operand.specs.Contract.{Gives};
ghost use Rattle.pdp_decode.specs.declared.instruction.Specifier.TheVariants.{Register};
ghost use Rattle.pdp_instruction.specs.Handbook.Operands.{operands_plan, source_first, place_first};
ghost use Rattle.pdp_instruction.specs.KeptAnswers.{in_operands};

use pdp_alu::cut;
use pdp_decode::Specifier;
use pdp_operand::{Place, Processor, RegisterId, Trap, address, fetch};
use pdp_store::Store;
use pdp_unibus::Bus;
use pdp_word::Size;

/// The source's value and the destination's place. A source in a register is read after the address
/// of a destination in memory was formed, any other source before.
#[inline(always)]
#[tactic(auto, unfolding(crate::specs::Handbook::Operands::operands_plan))]
pub fn operands<S: Store, D: Store>(
    processor: &mut Processor,
    bus: &mut Bus<S, D>,
    source: Specifier,
    destination: Specifier,
    size: Size,
) -> Result<(u16, Place), Trap>
    ensures gives { Gives in_operands (operands_plan size source destination)
        processor.old bus.old result processor.new bus.new }
{
    match (source, destination) {
        (Specifier::Register(from), Specifier::Register(to)) => {
            Ok(read_registers(processor, bus, from, to, size))
        }
        (Specifier::Register(from), _) => read_late(processor, bus, from, destination, size),
        _ => read_first(processor, bus, source, destination, size),
    }
}

/// Both operands are registers: no reference is made.
#[inline(always)]
#[tactic(auto, using(crate::proofs::Rules::sources), unfolding(crate::proofs::Rules::source_read))]
fn read_registers<S: Store, D: Store>(
    processor: &Processor,
    bus: &Bus<S, D>,
    from: u8,
    to: u8,
    size: Size,
) -> (u16, Place)
    ensures gives { Gives in_operands (source_first size (Register from) (Register to))
        processor.now bus.now (Ok result) processor.now bus.now }
{
    let mode = bus.status().mode;
    let word = processor.register(RegisterId::of(mode, from));
    (cut(size, word), Place::Reg(RegisterId::of(mode, to)))
}

#[inline(never)]
#[tactic(auto, using(crate::proofs::Rules::sources), unfolding(crate::specs::source_first))]
fn read_first<S: Store, D: Store>(
    processor: &mut Processor,
    bus: &mut Bus<S, D>,
    source: Specifier,
    destination: Specifier,
    size: Size,
) -> Result<(u16, Place), Trap>
    ensures gives { Gives in_operands (source_first size source destination)
        processor.old bus.old result processor.new bus.new }
{
    let place = address(processor, bus, source, size)?;
    let value = fetch(processor, bus, place, size)?;
    let place = address(processor, bus, destination, size)?;
    Ok((value, place))
}

#[inline(always)]
#[tactic(auto, using(crate::proofs::Rules::sources), unfolding(crate::specs::place_first))]
fn read_late<S: Store, D: Store>(
    processor: &mut Processor,
    bus: &mut Bus<S, D>,
    from: u8,
    destination: Specifier,
    size: Size,
) -> Result<(u16, Place), Trap>
    ensures gives { Gives in_operands (place_first size (Register from) destination)
        processor.old bus.old result processor.new bus.new }
{
    let place = address(processor, bus, destination, size)?;
    let id = RegisterId::of(bus.status().mode, from);
    let value = cut(size, processor.register(id));
    Ok((value, place))
}
