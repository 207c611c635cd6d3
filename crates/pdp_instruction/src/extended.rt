//! MUL, DIV, ASH and ASHC.
ghost use Rattle.std.specs.Prelude.{◌≡◌, ◌<◌};
ghost use Rattle.pdp_operand.specs.Contract.{Runs};
ghost use Rattle.pdp_instruction.specs.Handbook.Extended.{ash_plan, ashc_plan, codes_of, div_plan};
ghost use Rattle.pdp_instruction.specs.Handbook.Extended.{mul_plan, with_quotient};

use crate::pair::Pair;
use pdp_alu::{Div, ash, ashc, div, mul};
use pdp_decode::Specifier;
use pdp_operand::{Processor, RegisterId, Trap, address, fetch};
use pdp_store::Store;
use pdp_unibus::Bus;
use pdp_word::{Codes, Size};

/// MUL.
#[inline(never)]
#[tactic(auto, using(crate::proofs::Steps::run_multiplication), unfolding(crate::specs::mul_plan))]
pub fn multiply<S: Store, D: Store>(
    processor: &mut Processor,
    bus: &mut Bus<S, D>,
    register: u8,
    source: Specifier,
) -> Result<(), Trap>
    ensures runs { Runs (mul_plan register source) processor.old bus.old result processor.new
        bus.new }
{
    let place = address(processor, bus, source, Size::Word)?;
    let multiplier = fetch(processor, bus, place, Size::Word)?;
    let pair = Pair::of(bus.status().mode, register);
    let effect = mul(processor.register(pair.high), multiplier);
    pair.set_long(processor, effect.value);
    bus.set_codes(effect.codes);
    Ok(())
}

/// DIV.
#[inline(never)]
#[tactic(auto, using(crate::proofs::Steps::run_division), unfolding(crate::specs::div_plan))]
pub fn divide<S: Store, D: Store>(
    processor: &mut Processor,
    bus: &mut Bus<S, D>,
    register: u8,
    source: Specifier,
) -> Result<(), Trap>
    ensures runs { Runs (div_plan register source) processor.old bus.old result processor.new
        bus.new }
{
    let place = address(processor, bus, source, Size::Word)?;
    let divisor = fetch(processor, bus, place, Size::Word)?;
    let pair = Pair::of(bus.status().mode, register);
    let codes = set_quotient(processor, pair, div(pair.long(processor), divisor));
    bus.set_codes(codes);
    Ok(())
}

/// Writes quotient and remainder if the division was done, and returns the codes.
#[inline(always)]
fn set_quotient(processor: &mut Processor, pair: Pair, effect: Div) -> Codes
    ensures registers { processor.new ≡ with_quotient processor.old pair effect }
    ensures codes { result ≡ codes_of effect }
{
    match effect {
        Div::Done(quotient, remainder, codes) => {
            pair.set_words(processor, quotient, remainder);
            codes
        }
        Div::Kept(codes) => codes,
    }
}

/// ASH.
#[inline(never)]
#[tactic(auto, using(crate::proofs::Steps::run_shift), unfolding(crate::specs::ash_plan))]
pub fn shift<S: Store, D: Store>(
    processor: &mut Processor,
    bus: &mut Bus<S, D>,
    register: u8,
    source: Specifier,
) -> Result<(), Trap>
    ensures runs { Runs (ash_plan register source) processor.old bus.old result processor.new
        bus.new }
{
    let place = address(processor, bus, source, Size::Word)?;
    let count = fetch(processor, bus, place, Size::Word)?;
    let id = RegisterId::of(bus.status().mode, register);
    let effect = ash(processor.register(id), count);
    processor.set_register(id, effect.value);
    bus.set_codes(effect.codes);
    Ok(())
}

/// ASHC.
#[inline(never)]
#[tactic(auto, using(crate::proofs::Steps::run_pair_shift), unfolding(crate::specs::ashc_plan))]
pub fn shift_pair<S: Store, D: Store>(
    processor: &mut Processor,
    bus: &mut Bus<S, D>,
    register: u8,
    source: Specifier,
) -> Result<(), Trap>
    ensures runs { Runs (ashc_plan register source) processor.old bus.old result processor.new
        bus.new }
{
    let place = address(processor, bus, source, Size::Word)?;
    let count = fetch(processor, bus, place, Size::Word)?;
    let pair = Pair::of(bus.status().mode, register);
    let effect = ashc(pair.long(processor), count);
    pair.set_long(processor, effect.value);
    bus.set_codes(effect.codes);
    Ok(())
}
