//! search: a PDP-11/40 as pdp11 runs it, with lines for searches of its run, and for taking edits
//! back, beside those of a session. It stands on pdp_program, which has its command line, its files
//! and its exit statuses.
//!
//! # What is proved
//!
//! - What pdp_program proves of a program, for this program's name and the search language
//!   (`run_on_host`, `outcome`).
//!
//! # What is only tested
//!
//! - The texts of help, of `--version` and of `--lines`, on the built program.
#![tactic(auto)]

use pdp_program::{LineTable, Program, SESSION, run_on_host};
use std::process::ExitCode;

/// The release, as the file VERSION has it.
const VERSION: &str = "2026-11-30";

const PROGRAM: Program<'static> = Program {
    name: "search",
    about: "A PDP-11/40 whose past can be edited and searched: lines in, replies out",
    version: Some(VERSION),
    lines: SESSION,
    more_lines: SEARCHES,
};

/// The lines of searches, and those that take edits back.
const SEARCHES: LineTable<'static> = LineTable {
    head: HEAD,
    rows: ROWS,
    foot: "",
};

const HEAD: &str = "
Lines of searches (A, B, D, I, J, K, V and W are octal; C, F, M and N are
decimal). With N and M the turns from N on and before M are searched; F is a
byte, counted from 0; MODE is kernel or user. A CONDITION is one to four of
these with 'and' between them: X = Y, X != Y, X < Y, X > Y, X & W = W, at A,
kernel or user. X is R0 to R5, KSP, USP, SP, PC, PS or core A; Y is such an X
or W:
";

const ROWS: &str = "\
first N M at A\tsearch\tquestion\tturn turn address\tfirst T\tN to M\t\
    the first turn that runs the instruction at A
first N M at A MODE\tsearch\tquestion\tturn turn address mode\tfirst T\tN to M\t\
    the same in one mode of the processor
first N M vector V\tsearch\tquestion\tturn turn vector\tfirst T\tN to M\t\
    the first turn that serves an interrupt through V
first N M trap V\tsearch\tquestion\tturn turn vector\tfirst T\tN to M\t\
    the first turn that has a trap through V
first N M where CONDITION\tsearch\tquestion\tturn turn condition\tfirst T\tN to M\t\
    the first turn that meets the CONDITION
latest N M at A\tsearch\tquestion\tturn turn address\tlatest T\tN to M\t\
    the last turn that runs the instruction at A
latest N M at A MODE\tsearch\tquestion\tturn turn address mode\tlatest T\tN to M\t\
    the same in one mode of the processor
latest N M vector V\tsearch\tquestion\tturn turn vector\tlatest T\tN to M\t\
    the last turn that serves an interrupt through V
latest N M trap V\tsearch\tquestion\tturn turn vector\tlatest T\tN to M\t\
    the last turn that has a trap through V
latest N M where CONDITION\tsearch\tquestion\tturn turn condition\tlatest T\tN to M\t\
    the last turn that meets the CONDITION
counts N M MODE A C\tsearch\tquestion\tturn turn mode address count\tcounts c\tN to M\t\
    how many turns run, in the MODE, the instruction at each of C words from A on
writes N M A\tsearch\tquestion\tturn turn address\twrites C\tN to M\t\
    the writes to the core word at A: turn, who wrote and the word; after 256 it ends, with 'or \
    more' if turns are left
reads N M A\tsearch\tquestion\tturn turn address\treads C\tN to M\t\
    the reads of the core word at A: turn, who read and the word, of each turn the first; after \
    256 it ends, with 'or more' if turns are left
accesses N C\tsearch\tquestion\tturn count\taccesses C\tC before N\t\
    what the C turns before turn N have in them: mode, PC and act of each, its events, what \
    comes out, the function of the disk that is done, and each cycle on the bus; after whole \
    turns with 256 cycles it ends, with 'or more' if turns are left
moves N C\tsearch\tquestion\tturn count\tmoves C\tC before N\t\
    what the C turns before turn N make of what: first what events, the reader and the disk move; \
    then, of each cell that the act makes anew, the cells, as the act began, that it is made of
transfers N M\tsearch\tquestion\tturn turn\ttransfers C\tN to M\t\
    the functions of the disk that are done: turn, turn begun, function, drive, word, core \
    address, how many words, and RKER; after 256 it ends, with 'or more' if turns are left
change N M I\tsearch\tquestion\tturn turn place\tchange T\tN to M\t\
    the first turn that changes word I of the drive
change N M D I\tsearch\tquestion\tturn turn drive place\tchange T\tN to M\t\
    the same of drive D, in version 2
text N from F\tsearch\tquestion\tturn position\ttext C:\tbefore N\t\
    what was printed before turn N, from byte F on
punched N from F\tsearch\tquestion\tturn position\tpunched C:\tbefore N\t\
    what was punched before turn N, from byte F on
when F\tsearch\tquestion\tposition\twhen T\tup to byte F\t\
    the turn in which byte F was printed; the run goes on to that turn, or to turn 1000000000
translate N MODE A\tsearch\tquestion\tturn mode address\ttranslate a\tbefore N\t\
    the physical address of the virtual address A before turn N, or why a read aborts
virtual N MODE A C\tsearch\tquestion\tturn mode address count\tvirtual w\tbefore N\t\
    C words from the virtual address A on, before turn N, or the first that can't be read
find N A B W\tsearch\tquestion\tturn address address word\tfind C\tbefore N\t\
    the words of core from A to B that are W before turn N; after 256 it ends, with 'or more' if \
    there are more
find N A B W mask K\tsearch\tquestion\tturn address address word word\tfind C\tbefore N\t\
    the same in the bits of K alone
finddsk N I J W\tsearch\tquestion\tturn place place word\tfinddsk C\tbefore N\t\
    the words I to J of the drive that are W before turn N
finddsk N I J W mask K\tsearch\tquestion\tturn place place word word\tfinddsk C\tbefore N\t\
    the same in the bits of K alone
finddsk N D I J W\tsearch\tquestion\tturn drive place place word\tfinddsk C\tbefore N\t\
    the words of drive D, in version 2
finddsk N D I J W mask K\tsearch\tquestion\tturn drive place place word word\tfinddsk C\tbefore N\t\
    the same in the bits of K alone
events\tsearch\tlist\t\tevents C\tnone\t\
    the events of the script in their order: number, turn and EVENT
setup\tsearch\tlist\t\tsetup version V\tnone\t\
    version, units, start, stride, delays in turns, and how many bytes the tape has
fades N EDIT\tsearch\tquestion\tturn edit\tfades T\tup to N\t\
    the turn, up to N, from which on the run with this edit would be the run as it is; EDIT is a \
    line core, disk, at, alter or drop, and isn't made
undo\tsearch\tstep\t\tok\tnone\t\
    takes the last edit back, also the number of its event; version 2 and edits before it stay
redo\tsearch\tstep\t\tok\tnone\t\
    makes the edit again that was taken back last, if there was no other since
";

fn main(rt: HostRuntime) -> ExitCode {
    run_on_host::<true>(&rt, PROGRAM)
}
