ghost use Rattle.std.specs.Prelude.{◌≡◌, ◌<◌, length, map};
ghost use Rattle.std.specs.Prelude.{slice_index, slice_index_or, take, [], None, Ok, OnOk};
ghost use Rattle.pdp_store.specs.FirstTouches.{first_touches_of, no_first_touches};
ghost use Rattle.pdp_operand.specs.Phases.Phase.{inner_of};
ghost use Rattle.pdp_cpu.specs.KeptTexts.{without_turns};
ghost use Rattle.pdp_cpu.specs.Handbook.Due.{act_of, due_of};
ghost use Rattle.pdp_cpu.specs.Handbook.MachineState.{IsReady, machine_at_power_up};
ghost use Rattle.pdp_cpu.specs.Handbook.MachineState.{machine_world, printed_kept, punched_kept};
ghost use Rattle.pdp_cpu.specs.Handbook.MachineState.{state_with_log, touched_machine, with_begun};
ghost use Rattle.pdp_cpu.specs.Turns.TurnRun.{RunsTouched, RunsTurn};
ghost use Rattle.pdp_store.specs.Parts.{words_of_drive};
ghost use Rattle.pdp_unibus.specs.Handbook.Shown.{devices_of, page_registers_of};
ghost use Rattle.pdp_cpu.specs.Handbook.Regs.{regs_of};
ghost use Rattle.pdp_cpu.specs.Handbook.Turn.{act_end, initial_state, turn_act};

use crate::act::Act;
use crate::due::nothing_is_pending;
use crate::kept_text::{KeptByte, KeptText};
use crate::meter::Meter;
use crate::regs::Regs;
use crate::take_due::take_what_is_due;
use pdp_form::PlacedForms;
use pdp_icache::Lines;
use pdp_instruction::instruct;
use pdp_io_page::Delays;
use pdp_kt11::{MappingRegisters, Mode};
use pdp_operand::{Processor, RegisterId, RunState};
use pdp_quick::Computer;
use pdp_rk11::Rk;
use pdp_store::{Stamp, Store};
use pdp_unibus::{Bus, DeviceRegisters, Event, LAST_TURN, PageRegisters};
use pdp_word::NoMemory;
use std::alloc::Global;
use std::marker::Model;

/// The machine: processor, bus, core and drives, for any stores of words.
///
/// A contract sees it as a `MachineWithTexts`: the turns that it has run, its world, what was
/// printed and punched, the bytes that it keeps of later turns too, for how many more of them there
/// is room, and the first touches of the pages of core and of the drives.
#[derive(Drop)]
pub struct Machine<S: Store, D: Store> {
    pub(crate) computer: Computer<S, D>,
    pub(crate) turn: u32,
    pub(crate) text: KeptText,
    pub(crate) punched: KeptText,
}

impl<S: Store, D: Store> Model for Machine<S, D> {
    ghost use Rattle.pdp_cpu.specs.Handbook.MachineState.{MachineWithTexts, without_first_touches};
    ghost use Rattle.pdp_operand.specs.Phases.World.{world};

    ghost Value = { MachineWithTexts };

    ghost view = { λ m. record {
      state = record {
        turn = m.turn;
        world = without_first_touches (world m.computer.processor m.computer.bus);
        text = m.text.text;
        punched = m.punched.text;
      };
      kept_text = m.text.bytes;
      kept_punched = m.punched.bytes;
      text_room = m.text.room;
      punched_room = m.punched.room;
      first_touches = m.computer.bus.first_touches;
    } };
}

impl<S: Store, D: Store> Machine<S, D> {
    /// The machine as of power-up over this core and these drives, with this paper tape in the
    /// reader and these delays (turns): PC is the start address (octal, bytes), every other
    /// register and the program status word 0, the devices as after RESET, no drive locked [7.1]
    /// [7.2] [7.7]. It has run no turn, and printed and punched nothing. Takes no memory.
    pub fn at_power_up(
        alloc: Global,
        lines: Lines,
        placed: PlacedForms,
        start: u16,
        words: S,
        drives: Vec<D>,
        tape: Vec<u8>,
        delays: Delays,
    ) -> Self
        ensures state { result.state ≡ state_with_log (S.log words)
            (machine_at_power_up start (S.words words) (S.stamps words) (map D.words drives.items)
            tape.items delays) }
        ensures kept_text { result.kept_text ≡ [] }
        ensures kept_punched { result.kept_punched ≡ [] }
        ensures first_touches { result.first_touches
            ≡ first_touches_of (S.first_touches words) (map D.first_touches drives.items) }
    {
        Machine {
            computer: Computer {
                processor: Processor::at_power_up(start),
                bus: Bus::new(lines, placed, words, drives, tape, delays),
            },
            turn: 0,
            text: KeptText::new(alloc),
            punched: KeptText::new(alloc),
        }
    }

    /// Makes the room that one turn may need: for one byte printed on the console and one punched.
    ///
    /// Err(NoMemory) if memory was refused, so never if there was room; all but the room is then as
    /// before too.
    #[inline(always)]
    pub fn ready(&mut self) -> Result<(), NoMemory>
        ensures ready { OnOk result (IsReady self.new) }
        ensures had_room { IsReady self.old → result ≡ Ok tt }
        ensures same { self.new.state ≡ self.old.state }
        ensures same_text { self.new.kept_text ≡ self.old.kept_text }
        ensures same_punched { self.new.kept_punched ≡ self.old.kept_punched }
        ensures same_first_touches { self.new.first_touches ≡ self.old.first_touches }
    {
        if self.text.has_room() && self.punched.has_room() {
            return Ok(());
        }
        self.make_room()
    }

    /// Makes room for one printed and one punched byte.
    #[cold]
    #[inline(never)]
    fn make_room(&mut self) -> Result<(), NoMemory>
        ensures ready { OnOk result (IsReady self.new) }
        ensures same { self.new.state ≡ self.old.state }
        ensures same_text { self.new.kept_text ≡ self.old.kept_text }
        ensures same_punched { self.new.kept_punched ≡ self.old.kept_punched }
        ensures same_first_touches { self.new.first_touches ≡ self.old.first_touches }
    {
        self.text.make_room()?;
        self.punched.make_room()?;
        Ok(())
    }

    /// One whole turn, which the meter counts: the events of the turn in their order, a tick of the
    /// clock and the completions that are due, and then one act, of which it tells how it began:
    /// the trace trap or the stack trap that is pending, an interrupt, one instruction with its
    /// trap if it has one, or nothing if the machine waits or is halted. `Continue` ends a halt,
    /// and the act of that turn is chosen after it; the turns of a halted machine begin like
    /// others. The bytes that come out are kept, over those of later turns that are kept in their
    /// places. Every access to a word of core or of a drive touches the page of the word. It asks
    /// for the room that `ready` makes, and that fewer than 1,000,000,000 turns were run; then it
    /// always takes place.
    ///
    /// DEC PDP-11/40 Processor Handbook (1972), Processor traps and Interrupts; that a turn is one
    /// act, and their order, are [5.1] [5.2] [5.3] [5.4] [5.5] [5.6].
    #[inline(always)]
    pub fn turn(&mut self, meter: &mut Meter, events: &[Event]) -> Act
        requires ready { IsReady self.old }
        requires limit { self.old.state.turn < LAST_TURN }
        ensures act { result ≡ turn_act self.old.state.turn events.now self.old.state.world }
        ensures runs { RunsTurn events.now self.old self.new meter.old meter.new }
    {
        // This read gives the prover the range of the turn.
        let _turn = self.turn;
        self.turn_whole(meter, events)
    }

    /// One whole turn of the machine with the first touches in its world.
    #[inline(always)]
    #[tactic(auto, unfolding(crate::proofs::Rules::whole_turn))]
    fn turn_whole(&mut self, meter: &mut Meter, events: &[Event]) -> Act
        requires ready { IsReady self.old }
        requires limit { self.old.state.turn < LAST_TURN }
        ensures act { result ≡ turn_act self.old.state.turn events.now (machine_world self.old) }
        ensures runs { RunsTouched events.now self.old self.new meter.old meter.new }
    {
        self.begin_any(events);
        let act = self.act();
        self.turn += 1;
        meter.tick();
        act
    }

    /// A turn begins, with or without events.
    #[inline(always)]
    #[tactic(auto, unfolding(crate::proofs::Rules::texts_of_turn))]
    pub(crate) fn begin_any(&mut self, events: &[Event])
        requires ready { IsReady self.old }
        ensures state { (touched_machine self.new).state
            ≡ with_begun events.now (touched_machine self.old).state }
        ensures kept_text { self.new.kept_text ≡ printed_kept events.now
            (touched_machine self.old) }
        ensures kept_punched { self.new.kept_punched
            ≡ punched_kept events.now (touched_machine self.old) }
    {
        if !events.is_empty() || !self.computer.bus.begin_quietly(self.turn) {
            self.begin_turn(events);
        }
    }

    /// The act of a turn that has begun.
    #[inline(always)]
    pub(crate) fn act(&mut self) -> Act
        ensures act { result ≡ act_of (due_of (inner_of (initial_state (machine_world self.old)))) }
        ensures world { machine_world self.new ≡ act_end (machine_world self.old) }
        ensures without_first_touches { self.new.state.world.bus.first_touches ≡ no_first_touches }
        ensures turn { self.new.state.turn ≡ self.old.state.turn }
        ensures text { self.new.state.text ≡ self.old.state.text }
        ensures punched { self.new.state.punched ≡ self.old.state.punched }
        ensures kept_text { self.new.kept_text ≡ self.old.kept_text }
        ensures kept_punched { self.new.kept_punched ≡ self.old.kept_punched }
    {
        if nothing_is_pending(&self.computer.processor, &self.computer.bus) {
            instruct(&mut self.computer.processor, &mut self.computer.bus);
            Act::Instr
        } else {
            take_what_is_due(&mut self.computer.processor, &mut self.computer.bus)
        }
    }

    /// Drops all decoded lines. In all that a contract sees the machine stays as it is.
    pub fn clear_lines(&mut self)
        ensures { self.new ≡ self.old }
    {
        self.computer.bus.clear_lines();
    }

    /// How many turns it has run since power-up, which is the number of the turn that comes next.
    pub fn turns(&self) -> u32
        ensures { result ≡ self.now.state.turn }
    {
        self.turn
    }

    /// The registers now (DEC PDP-11/40 Processor Handbook (1972), General registers and Processor
    /// status word).
    pub fn regs(&self) -> Regs
        ensures { result ≡ regs_of self.now.state.world }
    {
        let p = &self.computer.processor;
        Regs {
            r: [
                p.register(RegisterId::R0),
                p.register(RegisterId::R1),
                p.register(RegisterId::R2),
                p.register(RegisterId::R3),
                p.register(RegisterId::R4),
                p.register(RegisterId::R5),
            ],
            ksp: p.register(RegisterId::KernelStack),
            usp: p.register(RegisterId::UserStack),
            pc: p.register(RegisterId::ProgramCounter),
            ps: self.computer.bus.status().word(),
            state: p.run,
        }
    }

    /// PC, the address (octal, bytes) at which the next instruction begins.
    #[inline(always)]
    pub fn pc(&self) -> u16
        ensures { result ≡ (regs_of self.now.state.world).pc }
    {
        self.computer.processor.register(RegisterId::ProgramCounter)
    }

    /// The mode of the processor, as bits 15 and 14 of the program status word give it.
    #[inline(always)]
    pub fn mode(&self) -> Mode
        ensures { result ≡ self.now.state.world.bus.io_page.status.mode }
    {
        self.computer.bus.mode()
    }

    /// How many words core has.
    pub fn core_len(&self) -> usize
        ensures { result ≡ length self.now.state.world.bus.core }
    {
        self.computer.bus.core_len()
    }

    /// The core word of this number (half its byte address), without a bus cycle.
    pub fn word(&self, number: usize) -> u16
        requires { number < length self.now.state.world.bus.core }
        ensures { result ≡ slice_index self.now.state.world.bus.core number }
    {
        self.computer.bus.word(number)
    }

    /// The turn and the agent of the last write to the core word of this number (half its byte
    /// address); None if there was none since power-up. A byte write counts for its word [6.28].
    pub fn last(&self, number: usize) -> Option<Stamp>
        requires { number < length self.now.state.world.bus.core }
        ensures { result ≡ slice_index_or self.now.state.world.bus.stamps number None }
    {
        self.computer.bus.last(number)
    }

    /// The word of this number on the drive of this number, both from 0 on, without a transfer.
    pub fn disk_word(&self, drive: usize, number: usize) -> u16
        requires { number < length (words_of_drive self.now.state.world.bus.drives drive) }
        ensures { result ≡ slice_index (words_of_drive self.now.state.world.bus.drives
            drive) number }
    {
        self.computer.bus.disk_word(drive, number)
    }

    /// The bytes that were printed on the console since power-up, in their order, each with its
    /// turn (PDP-11 Peripherals Handbook, KL11).
    pub fn text(&self) -> &[KeptByte]
        ensures kept { result.now ≡ take (length self.now.state.text) self.now.kept_text }
        ensures bytes { without_turns result.now ≡ self.now.state.text }
    {
        self.text.shown()
    }

    /// The bytes that were punched since power-up, in their order, each with its turn (PDP-11
    /// Peripherals Handbook, PC11).
    pub fn punched(&self) -> &[KeptByte]
        ensures kept { result.now ≡ take (length self.now.state.punched) self.now.kept_punched }
        ensures bytes { without_turns result.now ≡ self.now.state.punched }
    {
        self.punched.shown()
    }

    /// All bytes of the paper tape in the reader, those too that were read (PDP-11 Peripherals
    /// Handbook, PC11).
    pub fn tape(&self) -> &[u8]
        ensures { result.now ≡ self.now.state.world.bus.tape }
    {
        self.computer.bus.tape()
    }

    /// The registers of the devices as reads would give them, without the effect of a read (PDP-11
    /// Peripherals Handbook, KL11, KW11-L, PC11 and RK11).
    #[tactic(auto, unfolding(pdp_unibus::specs::Handbook::Shown::devices_of))]
    pub fn devices(&self) -> DeviceRegisters
        ensures { result ≡ devices_of self.now.state.world.bus }
    {
        self.computer.bus.devices()
    }

    /// The disk's controller (PDP-11 Peripherals Handbook, RK11).
    pub fn disk(&self) -> Rk
        ensures { result ≡ self.now.state.world.bus.io_page.disk }
    {
        self.computer.bus.disk()
    }

    /// The registers of memory management as reads would give them (DEC PDP-11/40 Processor
    /// Handbook (1972), Memory management).
    #[tactic(auto, unfolding(pdp_unibus::specs::Handbook::Shown::page_registers_of))]
    pub fn pages(&self) -> PageRegisters
        ensures { result ≡ page_registers_of self.now.state.world.bus }
    {
        self.computer.bus.pages()
    }

    /// Memory management, in its parts (DEC PDP-11/40 Processor Handbook (1972), Memory
    /// management).
    pub fn mapping_registers(&self) -> MappingRegisters
        ensures { result ≡ self.now.state.world.bus.io_page.mapping }
    {
        self.computer.bus.mapping_registers()
    }

    /// A turn begins that has events, or in which something comes of the devices.
    #[cold]
    #[inline(never)]
    #[tactic(auto, unfolding(crate::proofs::Rules::texts_of_turn))]
    fn begin_turn(&mut self, events: &[Event])
        requires ready { IsReady self.old }
        ensures state { (touched_machine self.new).state
            ≡ with_begun events.now (touched_machine self.old).state }
        ensures kept_text { self.new.kept_text ≡ printed_kept events.now
            (touched_machine self.old) }
        ensures kept_punched { self.new.kept_punched
            ≡ punched_kept events.now (touched_machine self.old) }
    {
        take_processor_events(&mut self.computer.processor, events);
        let output = self.computer.bus.events(self.turn, events);
        self.text.keep(self.turn, output.printed);
        self.punched.keep(self.turn, output.punched);
    }
}

ghost use Rattle.pdp_cpu.specs.Handbook.Turn.{processor_after, processor_after_events};

/// What events do to the processor, in their order.
#[tactic(auto, using(crate::proofs::Events::after_more_events))]
fn take_processor_events(processor: &mut Processor, events: &[Event])
    ensures { processor.new ≡ processor_after_events events.now processor.old }
{
    for event in events {
        take_processor_event(processor, *event);
    }
}

/// What an event does to the processor: `Continue` ends a halt.
fn take_processor_event(processor: &mut Processor, event: Event)
    ensures { processor.new ≡ processor_after event processor.old }
{
    match event {
        Event::Continue => {
            if processor.run == RunState::Halted {
                processor.set_run(RunState::Run);
            }
        }
        _ => {}
    }
}
