//! What a command reads of the words.
ghost use Rattle.std.specs.Prelude.{◌≡◌, map, option_map, string_bytes, true, IfOk};
ghost use Rattle.clap.specs.Words.{app_of, first_of, is_simple_and_free};
ghost use Rattle.gl_text.specs.LogicalLines.{folded};
ghost use Rattle.gl_words.specs.Jobs.{word_at, keep_in};
ghost use Rattle.gl_words.specs.Reading.{words_read, rows_in};

use crate::keep::split_names;
use clap::error::ErrorKind;
use clap::{ArgMatches, Command};
use gl_fault::Memory;
use gl_line::Name;
use std::alloc::Global;

/// What the command reads of the words, the first being the job; nothing where it refuses them.
pub fn read_words<'a>(
    command: Command<'a>,
    words: &'a [String],
) -> Result<Option<ArgMatches<'a>>, Memory>
    requires simple { is_simple_and_free (app_of command) ≡ true }
    ensures read { IfOk result (λ m. option_map rows_in m
        ≡ words_read (app_of command.entry) (map string_bytes words.entry.now)) }
{
    match command.try_get_matches_from(words) {
        Ok(matches) => Ok(Some(matches)),
        Err(error) => {
            if error.kind() == ErrorKind::OutOfMemory {
                Err(Memory)
            } else {
                Ok(None)
            }
        }
    }
}

/// The first value of a word or an option.
fn value_of<'a>(matches: &ArgMatches<'a>, id: &str) -> Option<&'a str>
    ensures value { option_map (λ s. s.now) result ≡ first_of id.now (rows_in matches.now) }
{
    matches.get_str(id)
}

/// The word of a place.
pub fn word_of<'a>(matches: &ArgMatches<'a>, id: &str) -> &'a str
    ensures word { result.now ≡ word_at id.now (rows_in matches.now) }
{
    match value_of(matches, id) {
        Some(word) => word,
        None => "",
    }
}

/// The name that an option gives, folded.
pub fn name_of(alloc: Global, matches: &ArgMatches<'_>, id: &str) -> Result<Option<Name>, Memory>
    ensures name { IfOk result (λ name. name
        ≡ option_map folded (first_of id.now (rows_in matches.now))) }
{
    match value_of(matches, id) {
        Some(text) => Ok(Some(Name::folded(alloc, text.as_bytes())?)),
        None => Ok(None),
    }
}

/// The names that an option gives, with commas between them, folded.
pub fn kept_names(alloc: Global, matches: &ArgMatches<'_>, id: &str) -> Result<Vec<Name>, Memory>
    ensures names { IfOk result (λ names. names.items
        ≡ keep_in (first_of id.now (rows_in matches.now))) }
{
    match value_of(matches, id) {
        Some(text) => split_names(alloc, text.as_bytes()),
        None => Ok(Vec::new(alloc)),
    }
}
