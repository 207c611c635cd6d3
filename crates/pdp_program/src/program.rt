ghost use Rattle.std.specs.Prelude.{◌≡◌, ◌≢◌, ◌⊎◌, true, false, map, option_map};
ghost use Rattle.pdp_program.specs.Exit.{IsListed, text_shown};
ghost use Rattle.pdp_program.specs.Media.{contents_of};
ghost use Rattle.pdp_program.specs.ProgramRun.{RunsSession, Shows, Starts, Tells, setup_with};
ghost use Rattle.pdp_replay.specs.Past.Setup.{given_setup};
ghost use Rattle.pdp_session.specs.Language.{language_with};
ghost use Rattle.pdp_session.specs.Streams.{streams_of};

use crate::command_line::{FileNames, Request, read_words};
use crate::exit::{ErrorLine, Exit};
use crate::files::Files;
use crate::lines::LineTable;
use crate::media::{Media, read_media};
use crate::options::Options;
use pdp_session::{Drain, Feed, Setup, run};
use std::alloc::Global;
use std::convert::AsStr;

/// A program that answers session lines: what its help and its lines on standard error say of it.
#[derive(Clone, Copy)]
pub struct Program<'a> {
    /// Its name.
    pub name: &'a str,
    /// What it is, at the head of its help.
    pub about: &'a str,
    /// The release that `--version` prints; `None` if the program has no such option, and no
    /// `--lines`.
    pub version: Option<&'a str>,
    /// The lines of a session.
    pub lines: LineTable<'a>,
    /// The lines that only it has.
    pub more_lines: LineTable<'a>,
}

/// Runs a program on these words (its name first), files and streams. Its lines are those of the
/// session language, or if `SEARCHES` those of the search language. Returns the exit status and the
/// line for standard error, if there is one: the program's name, a colon, a space and what stands
/// here [P].
///
/// | status | line | when |
/// |---|---|---|
/// | 0 | | end of input, or help, the release or the table of lines was asked for |
/// | 2 | `bad arguments` | the words are wrong, or a number can't be read |
/// | 3 | `input or output` | a file can't be read, or the reader or the writer failed |
/// | 4 | `refused 1 NoMemory` | no memory before the first line |
/// | 5 | `refused 14 BadImage` | an image has an odd length, or it or the tape is too long |
/// | 5 | `refused 15 BadSetup` | units, start address or stride are out of range |
///
/// If memory is refused, that is reported at once. Of several other causes the first in the order
/// of docs/LANGUAGE.md is reported.
pub fn outcome<'a, const SEARCHES: bool, R: Feed, W: Drain, F: Files, S: AsStr>(
    alloc: Global,
    program: Program<'a>,
    words: &[S],
    files: &mut F,
    reader: &mut R,
    writer: &mut W,
) -> (u8, Option<ErrorLine<'a>>)
    requires reads { (R.input reader.old).has_failed ≡ false }
    requires drains { (W.output writer.old).has_failed ≡ false }
    ensures listed { IsListed program.entry.name.now result.0 (option_map text_shown result.1) }
    ensures failed { result.0 ≡ 3 →
        ((R.input reader.new).has_failed ≡ true)
        ⊎ (((W.output writer.new).has_failed ≡ true) ⊎ (F.has_failed files.new ≡ true)) }
    ensures tells { Tells (language_with SEARCHES) program.entry
        (map S.text words.now) (F.contents files.old)
        (streams_of (R.input reader.old) (W.output writer.old))
        (streams_of (R.input reader.new) (W.output writer.new))
        result.0 (option_map text_shown result.1) }
{
    let exit = match read_words(alloc, program, words) {
        Ok(Request::Show(text)) => show(text.as_bytes(), writer),
        Ok(Request::Session { options, names }) => start_session::<SEARCHES, R, W, F>(
            alloc, options, names, files, reader, writer,
        ),
        Err(exit) => exit,
    };
    (exit.status(), exit.line(program.name))
}

/// Writes a text whole, or a beginning of it up to where the writer fails or takes no byte.
fn show<W: Drain>(text: &[u8], writer: &mut W) -> Exit
    ensures shows { Shows text.now (W.output writer.old) (W.output writer.new) result }
    ensures fails { result ≢ Exit.Done → (W.output writer.new).has_failed ≡ true }
{
    let mut rest = text;
    while !rest.is_empty() {
        match writer.put(rest) {
            Ok(0) => return Exit::InputOrOutput,
            Ok(taken) => rest = &rest[taken..],
            Err(_) => return Exit::InputOrOutput,
        }
    }
    Exit::Done
}

/// Reads the files, and then answers the reader's lines on the writer.
fn start_session<const SEARCHES: bool, R: Feed, W: Drain, F: Files>(
    alloc: Global,
    options: Options,
    names: FileNames,
    files: &mut F,
    reader: &mut R,
    writer: &mut W,
) -> Exit
    requires reads { (R.input reader.old).has_failed ≡ false }
    requires drains { (W.output writer.old).has_failed ≡ false }
    ensures failed { result ≡ Exit.InputOrOutput →
        ((R.input reader.new).has_failed ≡ true)
        ⊎ (((W.output writer.new).has_failed ≡ true) ⊎ (F.has_failed files.new ≡ true)) }
    ensures starts { Starts (language_with SEARCHES) (F.contents files.old) options names
        (streams_of (R.input reader.old) (W.output writer.old))
        (streams_of (R.input reader.new) (W.output writer.new)) result }
{
    match read_media(alloc, options.units, names, files) {
        Ok(media) => answer_lines::<SEARCHES, R, W>(alloc, options, media, reader, writer),
        Err(cause) => cause,
    }
}

/// Answers the reader's lines on the writer.
fn answer_lines<const SEARCHES: bool, R: Feed, W: Drain>(
    alloc: Global,
    options: Options,
    media: Media,
    reader: &mut R,
    writer: &mut W,
) -> Exit
    requires reads { (R.input reader.old).has_failed ≡ false }
    requires drains { (W.output writer.old).has_failed ≡ false }
    ensures failed { result ≡ Exit.InputOrOutput →
        ((R.input reader.new).has_failed ≡ true) ⊎ ((W.output writer.new).has_failed ≡ true) }
    ensures answers { RunsSession (language_with SEARCHES) options (contents_of media)
        (streams_of (R.input reader.old) (W.output writer.old))
        (streams_of (R.input reader.new) (W.output writer.new)) result }
{
    let setup = setup_of(options, media);
    Exit::of_session(run::<SEARCHES, R, W>(alloc, setup, reader, writer))
}

/// The setup of these options, images and tape.
fn setup_of(options: Options, media: Media) -> Setup
    ensures { given_setup result ≡ setup_with options (contents_of media) }
{
    Setup {
        units: options.units,
        start: options.start,
        core: media.core,
        disks: media.drives,
        tape: media.tape,
        stride: options.stride,
    }
}
