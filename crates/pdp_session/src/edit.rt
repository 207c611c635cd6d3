ghost use Rattle.std.specs.Prelude.{◌≡◌};
ghost use Rattle.pdp_replay.specs.Past.Edit.{tape_edit};
ghost use Rattle.pdp_script.specs.Refusal.{edit_answer, for_memory, past_left, result_map};
ghost use Rattle.pdp_session.specs.Edit.{edit_due, edit_leaves, edit_reply, past_edit_leaves};
ghost use Rattle.pdp_session.specs.Edit.{past_edit_reply, reply_to_edit, script_edit_leaves};
ghost use Rattle.pdp_session.specs.Edit.{script_edit_reply, wants_memory};

use crate::grammar::LONGEST_LINE;
use crate::reply::Reply;
use arrayvec::ArrayVec;
use pdp_replay::{DelayedDevice, Engine, Fault, PastEdit, Patch, ScriptEdit};
use pdp_unibus::LAST_TURN;
use std::alloc::Global;

/// The bytes of a paper tape that a line names. They take no memory; a line has room for fewer.
pub type TapeBytes = ArrayVec<u8, LONGEST_LINE>;

/// An edit of the past that can be taken back.
#[derive(Drop)]
pub enum Edit {
    Past(PastEdit),
    RevertCore { address: u32 },
    SetTape(TapeBytes),
    SetDelay { device: DelayedDevice, delay: u32 },
}

/// Makes an edit, and answers its reply.
#[tactic(auto, using(crate::proofs::Replying::reply_of_edit))]
pub fn run_edit(alloc: Global, engine: &mut Engine, edit: Edit) -> Reply
    ensures reply { result ≡ reply_to_edit edit (wants_memory result) engine.old.past }
    ensures after { engine.new.past ≡ edit_leaves edit (wants_memory result) engine.old.past }
{
    match edit {
        Edit::Past(edit) => edit_past(engine, edit),
        Edit::RevertCore { address } => edit_reply(engine.revert_core(address)),
        Edit::SetTape(tape) => edit_reply(set_tape(alloc, engine, &tape)),
        Edit::SetDelay { device, delay } => edit_reply(engine.set_delay(device, delay)),
    }
}

/// Makes an edit that can also be asked about.
fn edit_past(engine: &mut Engine, edit: PastEdit) -> Reply
    ensures reply { result ≡ past_edit_reply edit (wants_memory result) engine.old.past }
    ensures after { engine.new.past ≡ past_edit_leaves edit (wants_memory result)
        engine.old.past }
{
    match edit {
        PastEdit::Script(edit) => edit_script(engine, edit),
        PastEdit::Word(patch) => edit_reply(match patch {
            Patch::Core(address, word) => engine.set_core(address, word),
            Patch::Disk(drive, number, word) => engine.set_disk(drive, number, word),
        }),
    }
}

/// Edits the script.
#[tactic(auto, using(crate::proofs::Replying::reply_of_edit))]
fn edit_script(engine: &mut Engine, edit: ScriptEdit) -> Reply
    ensures reply { result ≡ script_edit_reply edit (wants_memory result) engine.old.past }
    ensures after { engine.new.past ≡ script_edit_leaves edit (wants_memory result)
        engine.old.past }
{
    match edit {
        ScriptEdit::Insert { turn, event } => match engine.insert(turn, event) {
            Ok(number) => Reply::Inserted(number),
            Err(fault) => Reply::Refused(fault),
        },
        ScriptEdit::Alter {
            number,
            turn,
            event,
        } => edit_reply(engine.alter(number, turn, event)),
        ScriptEdit::Drop { number } => edit_reply(engine.drop_event(number)),
    }
}

/// Replaces the tape. The engine's own copy of the bytes is all the memory that it takes.
#[tactic(auto, unfolding(pdp_replay::specs::Past::Edit::tape_edit))]
fn set_tape(alloc: Global, engine: &mut Engine, tape: &TapeBytes) -> Result<(), Fault>
    ensures answer { result
        ≡ edit_answer (tape_edit tape.now.items engine.old.past) (for_memory result) tt }
    ensures after { engine.new.past ≡ past_left (tape_edit tape.now.items engine.old.past)
        (for_memory result) engine.old.past }
{
    let bytes = Vec::from_slice(alloc, tape.as_slice())?;
    engine.set_tape(bytes)
}

/// The reply to an edit.
pub fn edit_reply(edited: Result<(), Fault>) -> Reply
    ensures { result ≡ edit_reply edited }
{
    match edited {
        Ok(()) => Reply::Done,
        Err(fault) => Reply::Refused(fault),
    }
}

/// Whether an edit could be made, memory allowing. It takes no memory.
#[tactic(auto, unfolding(pdp_replay::specs::Past::Edit::tape_edit, pdp_replay::specs::Past::Edit::delay_edit))]
pub fn check_edit(engine: &Engine, edit: &Edit) -> Result<(), Fault>
    ensures { result ≡ result_map (λ _. tt) (edit_due edit.now engine.now.past) }
{
    match edit {
        Edit::Past(edit) => engine.check_edit(*edit),
        Edit::RevertCore { address } => engine.check_reversion(*address),
        Edit::SetTape(tape) => {
            // a line is far shorter than the longest tape
            let _ = tape.as_slice();
            Ok(())
        }
        Edit::SetDelay { delay, .. } => {
            if *delay > LAST_TURN {
                return Err(Fault::TurnTooLarge);
            }
            Ok(())
        }
    }
}
