ghost use Rattle.std.specs.Prelude.{◌≡◌, ◌≤◌, Err};
ghost use Rattle.pdp_unibus.specs.Handbook.BusWorld.{BusWorld, with_log};
ghost use Rattle.pdp_unibus.specs.Handbook.Cycle.{Cycle, cycle};
ghost use Rattle.pdp_unibus.specs.Frame.{EventsLeaveOthers, UsesLeaveOthers};
ghost use Rattle.pdp_unibus.specs.KeyLaws.{KeysAreReadOnce, KeysWaitUntilRead};
ghost use Rattle.pdp_unibus.specs.RuleLaws.{RequestsGoByTheRule, disk_ready_enable};
ghost use Rattle.pdp_unibus.specs.RuleLaws.{keyboard_ready_enable, printer_ready_enable};
ghost use Rattle.pdp_unibus.specs.RuleLaws.{punch_ready_enable};
ghost use Rattle.pdp_unibus.specs.ByteLaws.{BytesArePrintedAsOperationsEnd};
ghost use Rattle.pdp_unibus.specs.ByteLaws.{BytesArePunchedAsOperationsEnd, ReadsTakeTheNextByte};
ghost use Rattle.pdp_unibus.specs.ByteLaws.{TapesStay};
ghost use Rattle.pdp_unibus.specs.ByteLaws.{DiskEndsWhenDue, DiskOutlivesUses, PrintingEndsWhenDue};
ghost use Rattle.pdp_unibus.specs.ByteLaws.{PunchingEndsWhenDue, ReadingEndsWhenDue};
ghost use Rattle.pdp_unibus.specs.ByteLaws.{PrintingOutlivesUses, PunchingOutlivesUses};
ghost use Rattle.pdp_unibus.specs.ByteLaws.{ReadingOutlivesUses};
ghost use Rattle.pdp_unibus.specs.declared.bus.Timeout.{Timeout};

/// A law of the bus: a cycle that times out leaves core, its stamps, the drives, the I/O page, the
/// tape and the turn as they were. At most the log is changed.
///
/// [P]
pub fn timeouts_change_nothing()
    ensures { (c : Cycle) (w : BusWorld) (t : Timeout) → (cycle c w).value ≡ Err t →
        with_log (cycle c w).after w.log ≡ w }
{}

/// A law of devices: a register that is read or written leaves every device but its own, and an
/// event every device but the one to which it happens.
///
/// [P]
pub fn devices_change_alone()
    ensures uses { UsesLeaveOthers }
    ensures events { EventsLeaveOthers }
{}

/// A law of the keyboard's registers: a key waits until the buffer is read, and is read once.
///
/// PDP-11 Peripherals Handbook, KL11.
pub fn keys_wait_and_are_read_once()
    ensures waiting { KeysWaitUntilRead }
    ensures once { KeysAreReadOnce }
{}

/// A law of the one rule of requests, of the keyboard, the printer, the punch and the disk:
/// whichever register is read or written and whatever event happens, if a request stands on its
/// condition, as at power-up, it does so afterwards, and is there exactly if the condition holds
/// and it was there, or the condition has just come to hold. So none is lost, and none comes twice.
///
/// [P]
pub fn requests_go_by_the_rule()
    ensures keyboard { RequestsGoByTheRule keyboard_ready_enable }
    ensures printer { RequestsGoByTheRule printer_ready_enable }
    ensures punch { RequestsGoByTheRule punch_ready_enable }
    ensures disk { RequestsGoByTheRule disk_ready_enable }
{}

/// A law of the printer and the punch: in the beginning of a turn a byte comes out exactly if
/// its operation ends there, once, as it is then; and nothing else comes out.
///
/// PDP-11 Peripherals Handbook, KL11 and PC11; when an operation ends [P].
pub fn bytes_come_out_as_operations_end()
    ensures printed { BytesArePrintedAsOperationsEnd }
    ensures punched { BytesArePunchedAsOperationsEnd }
{}

/// A law of completions: without its event an operation of the printer, the reader, the punch or
/// the disk ends in the beginning of the turn in which it is due, and of no other; and whichever
/// registers are read and written meanwhile, it stays as it was begun, the disk's if its
/// controller isn't ready.
///
/// [P]
pub fn operations_end_when_due()
    ensures printing { PrintingEndsWhenDue }
    ensures reading { ReadingEndsWhenDue }
    ensures punching { PunchingEndsWhenDue }
    ensures disk { DiskEndsWhenDue }
    ensures printing_outlives { PrintingOutlivesUses }
    ensures reading_outlives { ReadingOutlivesUses }
    ensures punching_outlives { PunchingOutlivesUses }
    ensures disk_outlives { DiskOutlivesUses }
{}

/// A law of the paper tape: in the beginning of a turn a read that ends takes the tape's next byte,
/// or finds its end, and nothing else moves the tape; the bytes on it stay.
///
/// PDP-11 Peripherals Handbook, PC11; when an operation ends [P].
pub fn reads_take_the_next_byte()
    ensures next { ReadsTakeTheNextByte }
    ensures tape { TapesStay }
{}
