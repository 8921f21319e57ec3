//! The program's arguments. The kit's argument parser, `clap`, reads them. Arguments that begin
//! with a dash are left to it alone, except for `run`, whose `--` is handled here.
ghost use Rattle.std.specs.Prelude.{◌≡◌, ◌<◌, ◌≤◌, false, None, Ok, IfOk, IsTrue, codes, drop, is_some, length, map, option_and_then, option_map, string_bytes};
ghost use Rattle.std.specs.Str.{bytes_eq};
ghost use Rattle.clap.specs.Words.{app_of, rule_of, subcommand_rows_of, with_subcommand};
ghost use Rattle.words.specs.Called.{IsRead, Reads, asked_of, call_in, call_of, called_of, has_no_dash, is_dashed, none_of, one_of, operands, program, run, run_from, run_of, with_one_word};

use crate::fault::WordsError;
use clap::{Arg, ArgMatches};
use std::alloc::{AllocError, Global};

/// What the program is asked to do.
#[derive(Clone, Copy)]
pub enum Command<'a> {
    /// Runs the script in this file, or the one on standard input.
    Sim { script: Option<&'a str> },
    /// Prints the frame that this word spells in hexadecimal digits.
    Decode { hex: &'a str },
    /// Runs the script in a file on node threads, as the configuration in another file says.
    Run { config: &'a str, script: &'a str },
}

impl<'a> Command<'a> {
    /// The command that the arguments give; the first of them is the program's name. No further
    /// arguments mean `sim`. After `run` a `--` ends the options, and no argument before it may
    /// begin with a dash. After any other word, an argument with a dash is read as `clap` reads it.
    pub fn read(alloc: Global, words: &'a [String]) -> Result<Command<'a>, WordsError>
        ensures alone { length words.now ≤ 1 → result ≡ Ok (Command.Sim None) }
        ensures run { IsRead (run_of (drop 1 (map string_bytes words.now))) result }
        ensures reads { let said = drop 1 (map string_bytes words.now) in
            IsTrue (has_no_dash said) → Reads (asked_of said) result }
    {
        if words.len() <= 1 {
            return Ok(Command::Sim { script: None });
        }
        match run_in(words) {
            Some(run) => Ok(run),
            None => Command::known_in(alloc, words),
        }
    }

    // The command that the arguments mean to `clap`; the first of them is the program's name.
    fn known_in(alloc: Global, words: &'a [String]) -> Result<Command<'a>, WordsError>
        requires { 1 < length words.now }
        ensures { let said = drop 1 (map string_bytes words.now) in
            IsTrue (has_no_dash said) → Reads (called_of said) result }
    {
        let matches = known(alloc)?.try_get_matches_from(words)?;
        command_in(&matches).ok_or(WordsError::Unknown)
    }
}

/// The command `run`, if the arguments give it.
fn run_in<'a>(words: &'a [String]) -> Option<Command<'a>>
    ensures { option_map call_of result ≡ run_of (drop 1 (map string_bytes words.now)) }
{
    let [_, name, words @ ..] = words else {
        return None;
    };
    if name.as_str() != "run" {
        return None;
    }
    let (config, script) = files_in(words)?;
    Some(Command::Run { config, script })
}

/// The two files that the arguments name. A `--` ends the options and isn't one of the files.
#[tactic(auto, using(crate::proofs::Files::two_more))]
fn files_in<'a>(words: &'a [String]) -> Option<(&'a str, &'a str)>
    ensures { option_map (λ files. run files.0.now files.1.now) result
        ≡ option_and_then run_from (operands (map string_bytes words.now)) }
{
    let [first, words @ ..] = words else {
        return None;
    };
    let first = first.as_str();
    if is_end(first) {
        return match words {
            [config, script] => Some((config.as_str(), script.as_str())),
            _ => None,
        };
    }
    if is_dashed(first) {
        return None;
    }
    Some((first, file_in(words)?))
}

/// The file that the arguments name, if they name exactly one.
#[tactic(auto, using(crate::proofs::Files::one_more))]
fn file_in<'a>(words: &'a [String]) -> Option<&'a str>
    ensures { option_map (λ file. file.now) result
        ≡ option_and_then one_of (operands (map string_bytes words.now)) }
{
    let [first, words @ ..] = words else {
        return None;
    };
    let first = first.as_str();
    if is_end(first) {
        return match words {
            [file] => Some(file.as_str()),
            _ => None,
        };
    }
    if is_dashed(first) || !is_over(words) {
        return None;
    }
    Some(first)
}

/// Whether the arguments name no file.
#[tactic(auto, using(crate::proofs::Files::none_more))]
fn is_over(words: &[String]) -> bool
    ensures { result ≡ is_some (option_and_then none_of (operands (map string_bytes words.now))) }
{
    let [first, words @ ..] = words else {
        return true;
    };
    is_end(first.as_str()) && words.is_empty()
}

/// Whether an argument ends the options.
fn is_end(word: &str) -> bool
    ensures { result ≡ bytes_eq word.now (codes "--") }
{
    word == "--"
}

/// Whether an argument begins with a dash.
fn is_dashed(word: &str) -> bool
    ensures { result ≡ is_dashed word.now }
{
    match word.as_bytes() {
        [first, ..] => *first == b'-',
        [] => false,
    }
}

/// The command in these matches, which are of the words in [`known`].
fn command_in<'a>(matches: &ArgMatches<'a>) -> Option<Command<'a>>
    ensures { option_map call_of result ≡ call_in (subcommand_rows_of matches.now) }
{
    match matches.subcommand()? {
        ("sim", sim) => Some(Command::Sim {
            script: sim.get_str("script"),
        }),
        ("decode", decode) => Some(Command::Decode {
            hex: decode.get_str("hex")?,
        }),
        _ => None,
    }
}

/// The words that the program knows.
fn known<'a>(alloc: Global) -> Result<clap::Command<'a>, AllocError>
    ensures { IfOk result (λ c. app_of c ≡ program) }
{
    let app = clap::Command::new(alloc, "markring").subcommand_required(true);
    let app = with_command(alloc, app, "sim", Arg::new(alloc, "script"))?;
    with_command(alloc, app, "decode", Arg::new(alloc, "hex").required(true))
}

/// Adds a command that takes one argument.
fn with_command<'a>(
    alloc: Global,
    app: clap::Command<'a>,
    name: &'a str,
    word: Arg<'a>,
) -> Result<clap::Command<'a>, AllocError>
    requires { word.global ≡ false }
    ensures { IfOk result (λ c. app_of c ≡ with_subcommand (app_of app.entry)
        (with_one_word name.now (rule_of word.entry))) }
{
    let command = clap::Command::new(alloc, name).arg(word)?;
    app.subcommand(command)
}
