ghost use Rattle.std.specs.Prelude.{◌≡◌};
ghost use Rattle.pdp_session.specs.Command.{command_leaves, command_reply};
ghost use Rattle.pdp_session.specs.Edit.{wants_memory};

use crate::edit::{Edit, edit_reply, run_edit};
use crate::reply::Reply;
use pdp_replay::{Engine, Question};
use std::alloc::Global;

/// A command of the session language.
#[derive(Drop)]
pub enum Command {
    Edit(Edit),
    UseEightDrives,
    ListPatches,
    Ask(Question),
}

/// Does what a command says, and answers its reply.
pub fn run_command(alloc: Global, engine: &mut Engine, command: Command) -> Reply
    ensures reply { result ≡ command_reply command (wants_memory result) engine.old.past }
    ensures after { engine.new.past ≡ command_leaves command (wants_memory result) engine.old.past }
{
    match command {
        Command::Edit(edit) => run_edit(alloc, engine, edit),
        Command::UseEightDrives => edit_reply(engine.use_eight_drives()),
        Command::ListPatches => Reply::Listed,
        Command::Ask(question) => match engine.ask(alloc, question) {
            Ok(answer) => Reply::Shown(answer.value),
            Err(fault) => Reply::Refused(fault),
        },
    }
}
