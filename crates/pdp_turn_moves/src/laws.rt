//! Laws of what a turn moves.

ghost use Rattle.std.specs.Prelude.{◌≡◌, ℕ, List, Option};
ghost use Rattle.pdp_store.specs.CycleLogs.{KeptCycles};
ghost use Rattle.pdp_store.specs.FirstTouches.{FirstTouches};
ghost use Rattle.pdp_store.specs.declared.Stamp.{Stamp};
ghost use Rattle.pdp_store.specs.declared.cycle_log.BusCycle.{BusCycle};
ghost use Rattle.pdp_unibus.specs.declared.event.Event.{Event as MachineEvent};
ghost use Rattle.pdp_operand.specs.Phases.World.{World};
ghost use Rattle.pdp_cpu.specs.Handbook.MachineState.{world_with_first_touches, world_with_log};
ghost use Rattle.pdp_cpu.specs.Handbook.MachineState.{world_with_stamps};
ghost use Rattle.pdp_made.specs.Cells.{DataCell};
ghost use Rattle.pdp_turn_moves.specs.ActMoves.{made_in_act, moves_of_act};

/// A law and no code: what the act of a turn makes of what depends neither on the log that is kept
/// nor on the first touches, and not on the last stamps of core either.
pub fn notes_of_accesses_move_nothing()
    ensures log { (t : ℕ) (events : List MachineEvent) (w : World) (log : KeptCycles)
        (touches : FirstTouches) (c : DataCell)
        → made_in_act t events (world_with_first_touches (world_with_log w log) touches) c
        ≡ made_in_act t events w c }
    ensures stamps { (t : ℕ) (events : List MachineEvent) (w : World)
        (stamps : List (Option Stamp)) (c : DataCell)
        → made_in_act t events (world_with_stamps w stamps) c ≡ made_in_act t events w c }
{}

/// A law and no code: two functions that name the same cells for each cell list the same moves.
pub fn sources_alike_list_the_same_moves()
    ensures { (made other : DataCell → List DataCell) (cycles : List BusCycle)
        → ((c : DataCell) → made c ≡ other c)
        → moves_of_act made cycles ≡ moves_of_act other cycles }
{}
