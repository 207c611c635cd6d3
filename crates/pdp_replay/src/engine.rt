ghost use Rattle.std.specs.Prelude.{◌≡◌, ◌<◌, ◌^◌, IfOk, IsErr, Ok, false, true};
ghost use Rattle.pdp_script.specs.Refusal.{for_memory, question_answer, result_map};
ghost use Rattle.pdp_replay.specs.Past.Setup.{given_setup, setup_checked, setup_numbers};
ghost use Rattle.pdp_replay.specs.Ask.Answer.{answer_to, first_turn_needed, question_checked};
ghost use Rattle.pdp_replay.specs.Ask.Answer.{turn_asked, value_answered};
ghost use Rattle.pdp_replay.specs.Run.Checkpoints.{AreCheckpointsOf, IsBuiltFrom};
ghost use Rattle.pdp_replay.specs.Run.Checkpoints.{KeepsTexts, ShowsTexts};
ghost use Rattle.pdp_replay.specs.Ask.Known.{RunsFrom, IsWithinBound, LeavesPast};
ghost use Rattle.pdp_replay.specs.Ask.Told.{IsAtTurn, IsToldOf};
ghost use Rattle.pdp_replay.specs.Run.States.{at};
ghost use Rattle.pdp_replay.specs.Timeline.{new_timeline};

use crate::ask::{Question, Told, Value};
use crate::past::{BaseSetup, DriveCount, Setup, SetupNumbers};
use crate::run::KeptRun;
use indexmap::IndexMap;
use pdp_checkpoint::Ladder;
use pdp_cpu::PagedMachine;
use pdp_io_page::Delays;
use pdp_script::{Entry, Fault, Script};
use pdp_store::WordAt;
use pdp_word::NoMemory;
use std::alloc::Global;
use std::marker::Model;

/// A setup with its delays and patches, a script, and all that can be asked of the run that they
/// determine.
///
/// A contract sees it as a `Timeline`. Answers are always those of the run from power-up of the
/// past as it is now.
#[derive(Drop)]
pub struct Engine {
    pub(crate) base_setup: BaseSetup,
    pub(crate) delays: Delays,
    pub(crate) patches: IndexMap<WordAt, u16>,
    pub(crate) script: Script,
    pub(crate) run: KeptRun,
    pub(crate) highest: u32,
}

impl Model for Engine {
    ghost use Rattle.pdp_replay.specs.Timeline.{Timeline, IsEngine};
    ghost use Rattle.pdp_replay.specs.Past.{past_from};

    ghost Value = { Timeline };

    ghost view = { λ e. record {
      past = past_from e.base_setup e.run.machine.state.world.bus.tape e.delays e.patches e.script;
      known = e.run.known;
      highest = e.highest;
      stride = e.run.ladder.stride;
      turns = e.run.meter;
      turn = e.run.machine.state.turn;
      current = e.run.is_current;
    } };

    ghost invariant = { λ e. IsEngine
        (past_from e.base_setup e.run.machine.state.world.bus.tape e.delays e.patches e.script)
        e.highest e.run };
}

impl Engine {
    /// An engine over this setup with one drive and the standard delays, without patches or events;
    /// nothing is known yet.
    ///
    /// Err(BadSetup) if units, start or stride is out of range; else Err(BadImage) if an image or
    /// the tape is too long, or there are more than eight images of drives; else Err(NoMemory) if
    /// memory was refused. [P]
    #[tactic(auto, unfolding(crate::specs::Past::Setup::setup_checked))]
    pub fn new(alloc: Global, setup: Setup) -> Result<Engine, Fault>
        ensures engine { result ≡ result_map new_timeline
            (question_answer (setup_checked (given_setup setup)) (for_memory result)) }
    {
        setup.check()?;
        let Setup {
            units,
            start,
            core,
            disks,
            tape,
            stride,
        } = setup;
        let base_setup = BaseSetup {
            units,
            start,
            core,
            disks,
            drives: DriveCount::One,
            stride,
        };
        let run = KeptRun::at_power_up(alloc, &base_setup, tape)?;
        Ok(Engine {
            base_setup,
            delays: Delays::standard(),
            patches: IndexMap::new(alloc),
            script: Script::new(alloc),
            run,
            highest: 0,
        })
    }

    /// Answers a question about the run from power-up of the past as it is now. Once answered, the
    /// known turn is the larger of what it was and the turn asked about.
    ///
    /// The refusals, in their order: Err(TurnTooLarge) if its turn is above 1,000,000,000;
    /// Err(CountOutOfRange) if a count of words is not 1 to 256, a word at a virtual address would
    /// be past address 177776 (octal), the first of wanted words is above the last, or a count of
    /// turns of a trail is not 1 to 64 or above the turn asked about; Err(OutsideCore) if a word of
    /// core that is asked for is not in core, else Err(OddAddress) if its address is odd, or that
    /// of a word at a virtual address; Err(NoSuchDrive) if the drive that is asked for is not below
    /// the number of drives, else Err(OutsideDisk) if the number of a word of the drive is 4604000
    /// (octal; 1,247,232) or above; Err(NoMemory) if memory was refused. No refusal changes the
    /// past, and one for another cause than memory changes nothing. [P]
    #[tactic(auto, unfolding(crate::specs::Ask::Answer::answer_to))]
    pub fn ask(&mut self, alloc: Global, question: Question) -> Result<Told<Value>, Fault>
        // The answer is that of the run from power-up, and out of memory is the last refusal.
        ensures value { value_answered result
            ≡ question_answer (answer_to question self.old.past) (for_memory result) }

        // It ran at most one stride of turns more than those that a trail lists or that are past
        // what was known, also if it is then refused.
        ensures bound { IsWithinBound (first_turn_needed question)
            (turn_asked question) self.old self.new.turns }

        // What it leaves, where it went, and what is told with the answer.
        ensures leaves { LeavesPast (turn_asked question) self.old self.new }
        ensures runs { question_checked question self.old.past ≡ Ok tt
            → RunsFrom (first_turn_needed question) self.old self.new }
        ensures told { IfOk result (λ a. IsToldOf a self.old self.new) }
        ensures ends { IfOk result (λ a. IsAtTurn (turn_asked question) self.old self.new) }

        // A refusal for another cause than memory changes nothing.
        ensures refused { IsErr result → for_memory result ≡ false → self.new ≡ self.old }
    {
        let before = self.run.meter.count();
        question.check(self.base_setup.units, self.base_setup.drives.count())?;
        let answered = question.answer(alloc, &mut self.run, &self.script);
        self.highest = self.highest.max(self.run.known);
        let value = answered?;
        Ok(Told::of(value, &self.run, before))
    }

    /// All events of the script, with their numbers and turns, in the order in which they happen.
    ///
    /// Err(NoMemory) if memory was refused. [P]
    pub fn events(&self, alloc: Global) -> Result<Vec<Entry>, NoMemory>
        ensures { IfOk result (λ events. events.items ≡ self.now.past.script.entries) }
    {
        self.script.entries(alloc)
    }

    /// The numbers of the setup as it is now. [P]
    pub fn setup(&self) -> SetupNumbers
        ensures { result ≡ setup_numbers self.now.past.setup }
    {
        SetupNumbers {
            units: self.base_setup.units,
            start: self.base_setup.start,
            stride: self.base_setup.stride,
            delays: self.delays,
            tape_len: self.run.machine.tape().len(),
        }
    }

    /// How many drives there are [P]: drive 0 alone, until `use_eight_drives` gives eight.
    pub fn drive_count(&self) -> usize
        ensures { result ≡ self.now.past.setup.drives }
    {
        self.base_setup.drives.count()
    }

    /// The states that are kept of the run of the past as it is now: those of turn 0 and of each
    /// multiple of the stride up to the known turn.
    pub fn kept_states(&self) -> &Ladder
        ensures states { AreCheckpointsOf self.now.past self.now.known result.now }
        ensures stride { result.now.stride ≡ self.now.stride }
    {
        &self.run.ladder
    }

    /// The machine that runs the turns. It keeps what was printed and punched before the known
    /// turn, each byte with its turn. After an answer it is in the run's state of the turn asked
    /// about, until an edit reaches back before that turn, or memory is refused to a later
    /// question.
    pub fn machine(&self) -> &PagedMachine
        ensures texts { KeepsTexts self.now.past self.now.known result.now }
        ensures shown { ShowsTexts self.now.past self.now.known result.now }
        ensures built { IsBuiltFrom self.now.past.setup result.now }
        ensures turn { result.now.state.turn ≡ self.now.turn }
        ensures current { self.now.current ≡ true
            → result.now.state ≡ at self.now.past self.now.turn }
    {
        &self.run.machine
    }
}
