//! The words as clap parses them.
ghost use Rattle.std.specs.Prelude.{◌≡◌, IfOk, IsTrue, None, Err};
ghost use Rattle.std.specs.List.{list_all};
ghost use Rattle.clap.specs.Words.{FailsBy, fault_of, found_of, matches_of, rows_of};
ghost use Rattle.ncq_words.specs.Forms.{form_of, is_plain, texts_of};
ghost use Rattle.ncq_words.specs.Command.{ncq_command, words_of};

use crate::read::WordsError;
use clap::error::ErrorKind;
use clap::{Arg, ArgAction, ArgMatches, Command, Error};
use std::alloc::Global;

/// The mode, and the value where there is one.
#[derive(Clone, Copy)]
pub(crate) struct Arguments<'a> {
    pub(crate) mode: &'a str,
    pub(crate) value: Option<&'a str>,
}

/// What clap finds in the words. The command has no help and no version, as words or as flags.
fn parse<'a>(alloc: Global, words: &'a [&'a str]) -> Result<ArgMatches<'a>, Error>
    ensures fails { FailsBy (fault_of ncq_command (texts_of words.now)) result }
    ensures matches { IfOk result (λ matches. rows_of (found_of matches)
        ≡ matches_of ncq_command (texts_of words.now)) }
{
    let mode = Arg::new(alloc, "mode")
        .required(true)
        .action(ArgAction::Set);
    let value = Arg::new(alloc, "value").action(ArgAction::Set);
    let command = Command::new(alloc, "ncq")
        .no_binary_name(true)
        .disable_help_flag(true)
        .disable_version_flag(true)
        .arg(mode)?
        .arg(value)?;
    command.try_get_matches_from(words)
}

/// The mode and the value that clap finds, which are all the words. `Usage` comes only where the
/// words fit no form.
pub(crate) fn arguments_of<'a>(
    alloc: Global,
    words: &'a [&'a str],
) -> Result<Arguments<'a>, WordsError>
    requires plain { IsTrue (list_all is_plain (texts_of words.now)) }
    ensures given { IfOk result (λ arguments. texts_of words.now ≡ words_of arguments) }
    ensures usage { result ≡ Err WordsError.Usage → form_of (texts_of words.now) ≡ None }
{
    match parse(alloc, words) {
        Ok(matches) => match matches.get_str("mode") {
            Some(mode) => Ok(Arguments {
                mode,
                value: matches.get_str("value"),
            }),
            None => Err(WordsError::Usage),
        },
        Err(error) => match error.kind() {
            ErrorKind::OutOfMemory => Err(WordsError::OutOfMemory),
            _ => Err(WordsError::Usage),
        },
    }
}
