ghost use Rattle.std.specs.Prelude.{◌≡◌, Ok};
ghost use Rattle.pdp_operand.specs.declared.processor.Processor.{Processor};
ghost use Rattle.pdp_operand.specs.Contract.{Runs};
ghost use Rattle.pdp_instruction.specs.Handbook.ChangeCodes.{clear_plan, set_plan};

use pdp_store::Store;
use pdp_unibus::Bus;
use pdp_word::Codes;

/// CLN, CLZ, CLV, CLC and their sums.
#[inline(never)]
#[tactic(auto, using(crate::proofs::Steps::run_clear_codes), unfolding(crate::specs::clear_plan))]
pub fn clear_codes<S: Store, D: Store>(bus: &mut Bus<S, D>, mask: Codes)
    ensures runs { (p : Processor) → Runs (clear_plan mask) p bus.old (Ok tt) p bus.new }
{
    let old = bus.status().codes;
    bus.set_codes(Codes {
        n: old.n && !mask.n,
        z: old.z && !mask.z,
        v: old.v && !mask.v,
        c: old.c && !mask.c,
    });
}

/// SEN, SEZ, SEV, SEC and their sums.
#[inline(never)]
#[tactic(auto, using(crate::proofs::Steps::run_set_codes), unfolding(crate::specs::set_plan))]
pub fn set_codes<S: Store, D: Store>(bus: &mut Bus<S, D>, mask: Codes)
    ensures runs { (p : Processor) → Runs (set_plan mask) p bus.old (Ok tt) p bus.new }
{
    let old = bus.status().codes;
    bus.set_codes(Codes {
        n: old.n || mask.n,
        z: old.z || mask.z,
        v: old.v || mask.v,
        c: old.c || mask.c,
    });
}
