//! Laws of what turns and runs are made of.

ghost use Rattle.std.specs.Prelude.{◌≡◌, ℕ, List, [], ◌∷◌};
ghost use Rattle.pdp_unibus.specs.declared.event.Event.{Event as MachineEvent};
ghost use Rattle.pdp_operand.specs.Phases.World.{World};
ghost use Rattle.pdp_made.specs.Cells.{CoreByte, High, Low};
ghost use Rattle.pdp_made_run.specs.BeginningRows.{BeginningsGoAlike};
ghost use Rattle.pdp_made_run.specs.Example.{keeps_switches, switches_set_to};
ghost use Rattle.pdp_made_run.specs.Origins.{Events, OfEvent};
ghost use Rattle.pdp_made_run.specs.RunRows.{PrintsTell, PunchesTell, RunsAlike, RunsTell};
ghost use Rattle.pdp_made_run.specs.RunRows.{made_before_turn};
ghost use Rattle.pdp_made_run.specs.TurnRows.{TurnsAlike, TurnsTell};

/// A law and no code: what a turn makes is made of the origins that `made_in_turn` names, which are
/// cells before the turn and its events. If the turn goes the same way in two worlds, and these
/// origins are the same in both, the cell is the same after the turn.
#[tactic(auto, using(crate::proofs::Turns::turns))]
pub fn rows_tell_what_turns_make()
    ensures { TurnsTell }
{}

/// A law and no code: take any other run whose inputs of the names in `made_before_turn` are the
/// same, and which goes the same way before turn n. Then the cell is the same there.
#[tactic(auto, using(crate::proofs::Runs::runs))]
pub fn rows_tell_what_runs_make()
    ensures { RunsTell }
{}

/// A law and no code: a byte that comes out of the printer in turn n is made of what TPB is made of
/// before it, and one that comes out of the punch of what PPB is made of. Take any other run whose
/// inputs of these names are the same, and which goes the same way up to turn n. Then the same
/// bytes come out.
pub fn outputs_are_made_of_buffers()
    ensures printed { PrintsTell }
    ensures punched { PunchesTell }
{}

/// A law and no code: two worlds are alike except for data between two turns, with drives and tapes
/// of the same sizes, and the events of the next turn are the same except for their data. If the
/// disk's last function is no write check, the beginning of the turn goes the same way in both.
pub fn beginnings_go_the_same_way()
    ensures { BeginningsGoAlike }
{}

/// A law and no code: each turn, and each run, goes the same way as itself. So what the laws of
/// both require is met at least there.
pub fn each_run_goes_the_same_way_as_itself()
    ensures turn { (t : ℕ) (events : List MachineEvent) (w : World)
        → TurnsAlike t events events w w }
    ensures run { (events : Events) (n : ℕ) (w : World) → RunsAlike events events n w w }
{}

/// A law and no code: as an example, `MOV @#177570,R0` and `MOV R0,@#10` run from power-up, and the
/// switches are set in turn 0. Both halves of the word at 10 are then made of this event alone.
/// Turn 0 goes the same way whatever word the switches are set to.
pub fn switches_come_to_core()
    ensures low { (word : ℕ)
        → made_before_turn (switches_set_to word) 2 keeps_switches (CoreByte 4 Low)
        ≡ OfEvent 0 0 ∷ [] }
    ensures high { (word : ℕ)
        → made_before_turn (switches_set_to word) 2 keeps_switches (CoreByte 4 High)
        ≡ OfEvent 0 0 ∷ [] }
    ensures way { (word other : ℕ)
        → RunsAlike (switches_set_to word) (switches_set_to other) 1 keeps_switches keeps_switches }
{}
