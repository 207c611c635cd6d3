ghost use Rattle.std.specs.Prelude.{◌≡◌, true, false, is_some, map, option_map, string_bytes, IfOk};
ghost use Rattle.clap.specs.Words.{FailsBy, app_of, fault_of, found_of, matches_of, first_of};
ghost use Rattle.clap.specs.Words.{rows_of, rule_of, with_rule};
ghost use Rattle.pdp_program.specs.CommandLine.{AreNamesIn, Asks, IsAsked, program_command};
ghost use Rattle.pdp_program.specs.CommandLine.{drive_options, is_flag_given, option_rule};
ghost use Rattle.pdp_program.specs.CommandLine.{table_of, with_files, with_lines, with_numbers};
ghost use Rattle.pdp_program.specs.CommandLine.{with_options, with_version};

use crate::exit::Exit;
use crate::lines::{push_lines, table_of};
use crate::options::{Options, read_options};
use crate::program::Program;
use clap::error::ErrorKind;
use clap::{Arg, ArgAction, ArgMatches, Command, Error};
use std::alloc::{AllocError, Global};
use std::convert::AsStr;

/// What the words of the command line ask for.
#[derive(Drop)]
pub enum Request {
    /// This text, of help, of the release or of the table of lines.
    Show(String),
    /// A session with these options, and with the images and the tape that the files of these names
    /// hold.
    Session { options: Options, names: FileNames },
}

/// The names of the files that a session starts from, if they are named.
#[derive(Drop)]
pub struct FileNames {
    /// The image of core.
    pub core: Option<String>,
    /// The images of the drives, by drive.
    pub drives: Vec<Option<String>>,
    /// The paper tape.
    pub tape: Option<String>,
}

/// What these words ask a program for, its name first. `BadArguments`: an option is unknown, is
/// given twice or without a value, there is a word that belongs to none, or a number can't be read.
/// Help, the release and the table of lines win over the last. `NoMemory` as soon as it is out of
/// memory.
pub fn read_words<S: AsStr>(
    alloc: Global,
    program: Program<'_>,
    words: &[S],
) -> Result<Request, Exit>
    ensures { Asks program.entry (map S.text words.now) result }
{
    match matches_of(alloc, program, words) {
        Ok(matches) => asked_by(alloc, program, &matches),
        Err(error) => match error.kind() {
            ErrorKind::DisplayHelp => Ok(Request::Show(help_of(alloc, program, &error)?)),
            ErrorKind::DisplayVersion => Ok(Request::Show(error.to_string(alloc)?)),
            ErrorKind::OutOfMemory => Err(Exit::NoMemory),
            _ => Err(Exit::BadArguments),
        },
    }
}

/// The options of clap's text, and then the lines.
fn help_of(alloc: Global, program: Program<'_>, options: &Error) -> Result<String, AllocError> {
    let mut text = options.to_string(alloc)?;
    push_lines(&mut text, program.lines)?;
    push_lines(&mut text, program.more_lines)?;
    Ok(text)
}

/// What options ask for in which clap finds no fault.
fn asked_by(alloc: Global, program: Program<'_>, matches: &ArgMatches<'_>) -> Result<Request, Exit>
    ensures { IsAsked (table_of program.entry) (rows_of (found_of matches.now)) result }
{
    if is_flag_given(matches.get_str("lines")) {
        return Ok(Request::Show(table_of(alloc, program)?))
    }
    let units = matches.get_str("units");
    let start = matches.get_str("start");
    let stride = matches.get_str("stride");
    match read_options(units, start, stride) {
        Some(options) => {
            let names = names_of(alloc, matches)?;
            Ok(Request::Session { options, names })
        }
        None => Err(Exit::BadArguments),
    }
}

/// Whether the value of a flag says that it is given.
fn is_flag_given(value: Option<&str>) -> bool
    ensures { result ≡ is_flag_given (option_map (λ text. text.now) value.entry) }
{
    match value {
        Some(text) => text == "true",
        None => false,
    }
}

fn names_of(alloc: Global, matches: &ArgMatches<'_>) -> Result<FileNames, AllocError>
    ensures { IfOk result (λ names. AreNamesIn (rows_of (found_of matches.now)) names) }
{
    let core = owned_name(alloc, matches.get_str("core"))?;
    let drives = drive_names(alloc, matches)?;
    let tape = owned_name(alloc, matches.get_str("tape"))?;
    Ok(FileNames { core, drives, tape })
}

fn drive_names(alloc: Global, matches: &ArgMatches<'_>) -> Result<Vec<Option<String>>, AllocError>
    ensures { IfOk result (λ names. map (λ name. option_map string_bytes name) names.items
        ≡ map (λ option. first_of option (rows_of (found_of matches.now))) drive_options) }
{
    let names = [
        matches.get_str("disk"),
        matches.get_str("disk1"),
        matches.get_str("disk2"),
        matches.get_str("disk3"),
        matches.get_str("disk4"),
        matches.get_str("disk5"),
        matches.get_str("disk6"),
        matches.get_str("disk7"),
    ];
    owned_names(alloc, names)
}

fn owned_names(alloc: Global, names: [Option<&str>; 8]) -> Result<Vec<Option<String>>, AllocError>
    ensures { IfOk result (λ owned. map (λ name. option_map string_bytes name) owned.items
        ≡ map (λ name. option_map (λ text. text.now) name) names.entry) }
{
    let mut owned = Vec::new(alloc);
    for name in names {
        owned.push(owned_name(alloc, name)?)?;
    }
    Ok(owned)
}

fn owned_name(alloc: Global, name: Option<&str>) -> Result<Option<String>, AllocError>
    ensures { IfOk result (λ owned.
        option_map string_bytes owned ≡ option_map (λ text. text.now) name.entry) }
{
    match name {
        Some(name) => Ok(Some(String::from_str(alloc, name)?)),
        None => Ok(None),
    }
}

fn matches_of<'a, S: AsStr>(
    alloc: Global,
    program: Program<'a>,
    words: &'a [S],
) -> Result<ArgMatches<'a>, Error>
    ensures faults { FailsBy
        (fault_of (program_command program.entry) (map S.text words.entry.now)) result }
    ensures rows { IfOk result (λ matches. rows_of (found_of matches)
        ≡ matches_of (program_command program.entry) (map S.text words.entry.now)) }
{
    let command = command(alloc, program)?;
    command.try_get_matches_from(words)
}

fn command<'a>(alloc: Global, program: Program<'a>) -> Result<Command<'a>, AllocError>
    ensures { IfOk result (λ command. app_of command ≡ program_command program.entry) }
{
    let command = Command::new(alloc, program.name).about(program.about);
    let command = with_version(command, program.version);
    let command = with_numbers(alloc, with_files(alloc, command)?)?;
    if program.version.is_some() {
        with_lines(alloc, command)
    } else {
        Ok(command)
    }
}

/// With an option that prints the table of lines.
fn with_lines<'a>(alloc: Global, command: Command<'a>) -> Result<Command<'a>, AllocError>
    ensures { IfOk result (λ more. app_of more ≡ with_lines true (app_of command.entry)) }
{
    let lines = Arg::new(alloc, "lines")
        .long("lines")
        .help("Print a table of the lines below, for programs")
        .action(ArgAction::SetTrue);
    command.arg(lines)
}

/// With an option that prints this release, if there is one.
fn with_version<'a>(command: Command<'a>, version: Option<&'a str>) -> Command<'a>
    ensures { app_of result ≡ with_version (is_some version.entry) (app_of command.entry) }
{
    match version {
        Some(version) => command.version(version),
        None => command,
    }
}

/// With the options that name files.
fn with_files<'a>(alloc: Global, command: Command<'a>) -> Result<Command<'a>, AllocError>
    ensures { IfOk result (λ more. app_of more ≡ with_files (app_of command.entry)) }
{
    let core = "Words of core from address 0 on [default: zeros]";
    let tape = "Paper tape, a file of plain bytes [default: empty]";
    let command = with_file(alloc, command, "core", core)?;
    let command = with_drives(alloc, command)?;
    with_file(alloc, command, "tape", tape)
}

/// With the options that name the images of the drives.
fn with_drives<'a>(alloc: Global, command: Command<'a>) -> Result<Command<'a>, AllocError>
    ensures { IfOk result (λ more.
        app_of more ≡ with_options drive_options (app_of command.entry)) }
{
    let first = "Words of the drive from word 0 on [default: zeros]";
    let second = "Words of drive 1, which version 2 has [default: zeros]";
    let command = with_file(alloc, command, "disk", first)?;
    let command = with_file(alloc, command, "disk1", second)?;
    let command = with_file(alloc, command, "disk2", "The same of drive 2")?;
    let command = with_file(alloc, command, "disk3", "The same of drive 3")?;
    let command = with_file(alloc, command, "disk4", "The same of drive 4")?;
    let command = with_file(alloc, command, "disk5", "The same of drive 5")?;
    let command = with_file(alloc, command, "disk6", "The same of drive 6")?;
    with_file(alloc, command, "disk7", "The same of drive 7")
}

/// With an option that names a file.
fn with_file<'a>(
    alloc: Global,
    command: Command<'a>,
    name: &'a str,
    help: &'a str,
) -> Result<Command<'a>, AllocError>
    ensures { IfOk result (λ more.
        app_of more ≡ with_rule (app_of command.entry) (option_rule name.entry.now)) }
{
    command.arg(option(alloc, name, "FILE", help))
}

/// With the options that are numbers.
fn with_numbers<'a>(alloc: Global, command: Command<'a>) -> Result<Command<'a>, AllocError>
    ensures { IfOk result (λ more. app_of more ≡ with_numbers (app_of command.entry)) }
{
    let units = option(
        alloc,
        "units",
        "N",
        "Units of core of 4096 words, 1 to 31 [default: 31]",
    );
    let start = option(
        alloc,
        "start",
        "A",
        "Start address, octal and even [default: 1000]",
    );
    let stride = option(
        alloc,
        "stride",
        "N",
        "Turns between kept states, 1 to 2000000000 [default: 10000]",
    );
    command.arg(units)?.arg(start)?.arg(stride)
}

/// An option of one value.
fn option<'a>(alloc: Global, name: &'a str, value: &'a str, help: &'a str) -> Arg<'a>
    ensures rule { rule_of result ≡ option_rule name.entry.now }
    ensures local { result.global ≡ false }
{
    Arg::new(alloc, name)
        .long(name)
        .value_name(value)
        .help(help)
        .action(ArgAction::Set)
}
