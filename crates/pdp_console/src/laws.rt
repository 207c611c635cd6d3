ghost use Rattle.pdp_console.specs.Laws.{KeysWait, OtherUsesLeaveTheKey, ReadsClearDone};
ghost use Rattle.pdp_console.specs.Laws.{WritesSetEnable};
ghost use Rattle.pdp_console.specs.Laws.{MonitorStaysUntilCleared, TicksRequest, TicksSetMonitor};
ghost use Rattle.pdp_console.specs.Laws.{WritesMakeNoRequest};

/// A law and no code: a key sets done and is in the buffer, a read of the buffer clears done, and a
/// write of the status register sets enable and leaves done and the key. Whatever else is done to a
/// register leaves done and the key.
///
/// Source: PDP-11 Peripherals Handbook, KL11.
pub fn keys_set_done_and_reads_clear_it()
    ensures waiting { KeysWait }
    ensures read { ReadsClearDone }
    ensures written { WritesSetEnable }
    ensures others { OtherUsesLeaveTheKey }
{}

/// A law and no code: a tick of the clock makes a request exactly if enable is set, and a write
/// makes none; it keeps one exactly if its bit 6 is set. A tick sets monitor, which stays until
/// a write has bit 7 clear.
///
/// Source: PDP-11 Peripherals Handbook, KW11-L; that a write makes no request and drops one
/// [P].
pub fn ticks_request_where_enabled()
    ensures ticks { TicksRequest }
    ensures writes { WritesMakeNoRequest }
    ensures monitor { TicksSetMonitor }
    ensures cleared { MonitorStaysUntilCleared }
{}
