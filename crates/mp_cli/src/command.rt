//! The commands of the program, and the arguments that ask for them.
ghost use Rattle.std.specs.Prelude.{◌≡◌, ◌≢◌, map, true, false, Some, [], codes, IfOk, IfErr, OnOk, string_bytes};
ghost use Rattle.clap.specs.Words.{app_of, kind_of, shape_of, subcommand_name_of, subcommand_rows_of, takes, with_subcommand, IsAmong};
ghost use Rattle.clap.specs.Simple.{new_shape};
ghost use Rattle.clap.specs.declared.builder.command.Command.TheViews.{out-Command};
ghost use Rattle.mp_cli.specs.CommandLine.{command_line, get_shape, asked_for, faults_of, pointer_given, pointer_in, word_of, CarriesPointer, HasMistake, IsHelp, IsUsage};
ghost use Rattle.mp_cli.specs.Private.Matches.{HasPointer, IsSubcommand};
ghost use Rattle.mp_cli.specs.declared.command.CommandFault.TheVariants.{OutOfMemory};

use crate::help::{AFTER_HELP, GET, HelpTexts, JOIN, MERGE, PATCH, REPLAY, REWRITE};
use clap::error::ErrorKind;
use clap::{Arg, ArgMatches};
use std::alloc::{AllocError, Global};
use thiserror::Error;

/// What the program is asked to do with its input.
///
/// The arguments `mergejoin get /a` ask for `Command::Get` with the text `/a`.
#[derive(Debug, PartialEq, Eq, Drop)]
pub enum Command {
    /// Print the part of the input's one element that this JSON Pointer names. The text is the argument
    /// as it was given, which may not be a pointer.
    Get(String),
    /// Apply the JSON Patch that is the input's second element to its first.
    Patch,
    /// Apply the merge patches of the input, one after another, to its first element.
    Merge,
    /// Print the join of the merge patches that the input is an array of.
    Join,
    /// Apply the merge patches of the input, which are to be compatible, to its first element.
    Replay,
    /// Print the merge patch that is the input's second element as a JSON Patch for its first.
    Rewrite,
}

/// Why arguments ask for no command.
#[derive(Debug, Drop, Error)]
pub enum CommandFault {
    /// Help was asked for; this is its text, for standard output.
    #[error("{0}")]
    Help(String),
    /// The arguments are wrong in some other way; this is the text that says how, for standard
    /// error.
    #[error("{0}")]
    Usage(String),
    /// Memory ran out.
    #[error("out of memory")]
    OutOfMemory,
}

impl From<AllocError> for CommandFault {
    ghost from_gives = { λ _ fault. fault ≡ OutOfMemory };

    fn from(_error: AllocError) -> CommandFault {
        CommandFault::OutOfMemory
    }
}

/// The command that the arguments ask for, the program's name first.
///
/// If there is none:
///
/// - `Help`: the arguments ask for help, as `mergejoin --help`.
/// - `Usage`: the command line does not take the arguments, as `mergejoin`, `mergejoin frob` and
///   `mergejoin get`.
/// - `OutOfMemory`: memory ran out.
///
/// The arguments `mergejoin merge` give `Command::Merge`, and `mergejoin get /a` gives `Command::Get` with
/// the text `/a`.
pub fn command_of(alloc: Global, words: Vec<String>) -> Result<Command, CommandFault>
    ensures command { IfOk result (λ command.
        asked_for (map string_bytes words.items) ≡ Some (word_of command)) }
    ensures pointer { IfOk result (λ command.
        CarriesPointer command (pointer_given (map string_bytes words.items))) }
    ensures taken { takes command_line (map string_bytes words.items) ≡ true
        → IfErr result (λ fault. fault ≡ CommandFault.OutOfMemory) }

    // By the kinds of error that the line finds in the arguments.
    ensures faultless { OnOk result (faults_of (map string_bytes words.items) ≡ []) }
    ensures help { IfErr result (λ fault. IsHelp fault
        → IsAmong ErrorKind.DisplayHelp (faults_of (map string_bytes words.items))) }
    ensures usage { IfErr result (λ fault. IsUsage fault
        → HasMistake (faults_of (map string_bytes words.items))) }
{
    let line = program_line(alloc)?;
    match line.try_get_matches_from(words.as_slice()) {
        Ok(matches) => Ok(command_from(alloc, &matches)?),
        Err(error) => Err(refusal(alloc, &error)),
    }
}

/// The command line: the program's name, and a required subcommand.
fn program_line<'a>(alloc: Global) -> Result<clap::Command<'a>, AllocError>
    ensures line { IfOk result (λ line. app_of line ≡ command_line) }
    ensures required { IfOk result (λ line. (out-Command line).subcommand_required ≡ true) }
    ensures no_globals { IfOk result (λ line. (out-Command line).has_globals ≡ false) }
{
    let line = clap::Command::new(alloc, "mergejoin")
        .about(
            "JSON Merge Patch (RFC 7396), JSON Pointer (RFC 6901) and JSON Patch (RFC 6902) over one JSON array on standard input",
        )
        .after_help(AFTER_HELP)
        .subcommand_required(true)
        .disable_help_subcommand(true)
        .subcommand(get_line(alloc)?)?;
    let line = with_plain(alloc, line, "patch", PATCH)?;
    let line = with_plain(alloc, line, "merge", MERGE)?;
    let line = with_plain(alloc, line, "join", JOIN)?;
    let line = with_plain(alloc, line, "replay", REPLAY)?;
    with_plain(alloc, line, "rewrite", REWRITE)
}

/// The line with one more subcommand, which has no argument of its own.
fn with_plain<'a>(
    alloc: Global,
    line: clap::Command<'a>,
    name: &'a str,
    help: HelpTexts<'a>,
) -> Result<clap::Command<'a>, AllocError>
    requires required { (out-Command line).subcommand_required ≡ true }
    requires no_globals { (out-Command line).has_globals ≡ false }
    ensures line { IfOk result (λ new.
        app_of new ≡ with_subcommand (app_of line.entry) (new_shape name.now)) }
    ensures required { IfOk result (λ new. (out-Command new).subcommand_required ≡ true) }
    ensures no_globals { IfOk result (λ new. (out-Command new).has_globals ≡ false) }
{
    line.subcommand(plain_line(alloc, name, help))
}

/// A subcommand with no argument of its own.
fn plain_line<'a>(alloc: Global, name: &'a str, help: HelpTexts<'a>) -> clap::Command<'a>
    ensures shape { shape_of result ≡ new_shape name.now }
    ensures no_globals { (out-Command result).has_globals ≡ false }
{
    clap::Command::new(alloc, name)
        .about(help.about)
        .after_help(help.after)
}

/// The subcommand `get`, with its one argument.
fn get_line<'a>(alloc: Global) -> Result<clap::Command<'a>, AllocError>
    ensures shape { IfOk result (λ line. shape_of line ≡ get_shape) }
    ensures no_globals { IfOk result (λ line. (out-Command line).has_globals ≡ false) }
{
    let pointer = Arg::new(alloc, "POINTER").required(true).help(
        "A JSON Pointer (RFC 6901), such as /a/0; the empty word names the whole document",
    );
    plain_line(alloc, "get", GET).arg(pointer)
}

/// The command of the subcommand that was met.
fn command_from(alloc: Global, matches: &ArgMatches<'_>) -> Result<Command, AllocError>
    requires known { IsSubcommand (subcommand_name_of matches.now) }
    requires pointer { HasPointer (subcommand_rows_of matches.now) }
    ensures command { IfOk result (λ command.
        subcommand_name_of matches.now ≡ Some (word_of command)) }
    ensures pointer { IfOk result (λ command.
        CarriesPointer command (pointer_in (subcommand_rows_of matches.now))) }
{
    match matches.subcommand_name() {
        Some("get") => Ok(Command::Get(pointer_word(alloc, matches)?)),
        Some("patch") => Ok(Command::Patch),
        Some("merge") => Ok(Command::Merge),
        Some("join") => Ok(Command::Join),
        Some("replay") => Ok(Command::Replay),
        Some("rewrite") => Ok(Command::Rewrite),
        _ => unreachable!(),
    }
}

/// The word of the subcommand `get`.
fn pointer_word(alloc: Global, matches: &ArgMatches<'_>) -> Result<String, AllocError>
    requires get { subcommand_name_of matches.now ≡ Some (codes "get") }
    requires pointer { HasPointer (subcommand_rows_of matches.now) }
    ensures { IfOk result (λ word.
        pointer_in (subcommand_rows_of matches.now) ≡ Some (string_bytes word)) }
{
    let Some(found) = matches.subcommand_matches("get") else {
        unreachable!();
    };
    let Some(word) = found.get_str("POINTER") else {
        unreachable!();
    };
    String::from_str(alloc, word)
}

/// What is reported to the caller of an error of the command line.
fn refusal(alloc: Global, error: &clap::Error) -> CommandFault
    ensures out_of_memory { kind_of error.now ≡ ErrorKind.OutOfMemory
        → result ≡ CommandFault.OutOfMemory }
    ensures help { IsHelp result → kind_of error.now ≡ ErrorKind.DisplayHelp }
    ensures usage { IsUsage result → (kind_of error.now ≢ ErrorKind.OutOfMemory)
        × (kind_of error.now ≢ ErrorKind.DisplayHelp) }
{
    let kind = error.kind();
    if kind == ErrorKind::OutOfMemory {
        return CommandFault::OutOfMemory;
    }
    let Ok(text) = format!(in alloc; "{error}") else {
        return CommandFault::OutOfMemory;
    };
    if kind == ErrorKind::DisplayHelp {
        CommandFault::Help(text)
    } else {
        CommandFault::Usage(text)
    }
}
