//! The job that the words name.
ghost use Rattle.std.specs.Prelude.{◌≡◌, map, option_map, string_bytes, IfOk};
ghost use Rattle.gl_words.specs.Jobs.{request_of, flat_request_of, restore_request_of, job_named};
ghost use Rattle.gl_words.specs.Names.{lift_names, flat_names, restore_names, names_of};
ghost use Rattle.gl_words.specs.Reading.{words_read, rows_in};
ghost use Rattle.gl_words.specs.Commands.{lift_app, flat_app, restore_app};

use crate::commands::{flat_command, lift_command, restore_command};
use crate::reading::{kept_names, name_of, read_words, word_of};
use clap::ArgMatches;
use gl_fault::Memory;
use gl_line::Name;
use std::alloc::Global;

/// What the job `lift` is asked for.
#[derive(Drop)]
pub struct Lift<'a> {
    /// The deck to be read.
    pub deck: &'a str,
    /// The library to be read.
    pub library: &'a str,
    /// The lifted deck to be written.
    pub lifted: &'a str,
    /// The map of names to be written.
    pub map: &'a str,
    /// The report to be written.
    pub report: &'a str,
    /// The subcircuit of the deck that is the top, if not the cards outside subcircuits.
    pub top: Option<Name>,
    /// The names of nets that no cell may take as inner nets.
    pub keep: Vec<Name>,
}

/// What the job `flat` is asked for.
#[derive(Drop)]
pub struct Flat<'a> {
    /// The deck to be read.
    pub deck: &'a str,
    /// The flat deck to be written.
    pub out: &'a str,
    /// The subcircuit of the deck that is the top, if not the cards outside subcircuits.
    pub top: Option<Name>,
}

/// What the job `restore` is asked for.
#[derive(Drop)]
pub struct Restore<'a> {
    /// The lifted deck to be read.
    pub lifted: &'a str,
    /// The map of names to be read.
    pub map: &'a str,
    /// The restored flat deck to be written.
    pub out: &'a str,
    /// The subcircuit of the lifted deck that is the top, if not the cards outside subcircuits.
    pub top: Option<Name>,
}

/// A job, and what it is asked for.
#[derive(Drop)]
pub enum Job<'a> {
    /// The instances of a library's cells in a deck are listed.
    Lift(Lift<'a>),
    /// A deck is flattened.
    Flat(Flat<'a>),
    /// A lifted deck is flattened under the old names of a map.
    Restore(Restore<'a>),
}

/// What was read of the words of `lift`.
fn lift_of<'a>(alloc: Global, matches: &ArgMatches<'a>) -> Result<Lift<'a>, Memory>
    ensures names { IfOk result (λ lift. lift_names lift ≡ request_of (rows_in matches.now)) }
{
    Ok(Lift {
        deck: word_of(matches, "deck"),
        library: word_of(matches, "library"),
        lifted: word_of(matches, "lifted"),
        map: word_of(matches, "map"),
        report: word_of(matches, "report"),
        top: name_of(alloc, matches, "top")?,
        keep: kept_names(alloc, matches, "keep")?,
    })
}

/// What was read of the words of `flat`.
fn flat_of<'a>(alloc: Global, matches: &ArgMatches<'a>) -> Result<Flat<'a>, Memory>
    ensures names { IfOk result (λ flat. flat_names flat ≡ flat_request_of (rows_in matches.now)) }
{
    Ok(Flat {
        deck: word_of(matches, "deck"),
        out: word_of(matches, "out"),
        top: name_of(alloc, matches, "top")?,
    })
}

/// What was read of the words of `restore`.
fn restore_of<'a>(alloc: Global, matches: &ArgMatches<'a>) -> Result<Restore<'a>, Memory>
    ensures names { IfOk result (λ restore.
        restore_names restore ≡ restore_request_of (rows_in matches.now)) }
{
    Ok(Restore {
        lifted: word_of(matches, "lifted"),
        map: word_of(matches, "map"),
        out: word_of(matches, "out"),
        top: name_of(alloc, matches, "top")?,
    })
}

/// The job `lift` by its words, if its command takes them.
fn read_lift<'a>(alloc: Global, words: &'a [String]) -> Result<Option<Lift<'a>>, Memory>
    ensures names { IfOk result (λ lift. option_map lift_names lift
        ≡ option_map request_of (words_read lift_app (map string_bytes words.entry.now))) }
{
    let command = lift_command(alloc)?;
    match read_words(command, words)? {
        Some(matches) => Ok(Some(lift_of(alloc, &matches)?)),
        None => Ok(None),
    }
}

/// The job `flat` by its words, if its command takes them.
fn read_flat<'a>(alloc: Global, words: &'a [String]) -> Result<Option<Flat<'a>>, Memory>
    ensures names { IfOk result (λ flat. option_map flat_names flat
        ≡ option_map flat_request_of (words_read flat_app (map string_bytes words.entry.now))) }
{
    let command = flat_command(alloc)?;
    match read_words(command, words)? {
        Some(matches) => Ok(Some(flat_of(alloc, &matches)?)),
        None => Ok(None),
    }
}

/// The job `restore` by its words, if its command takes them.
fn read_restore<'a>(alloc: Global, words: &'a [String]) -> Result<Option<Restore<'a>>, Memory>
    ensures names { IfOk result (λ restore. option_map restore_names restore
        ≡ option_map restore_request_of (words_read restore_app (map string_bytes words.entry.now))) }
{
    let command = restore_command(alloc)?;
    match read_words(command, words)? {
        Some(matches) => Ok(Some(restore_of(alloc, &matches)?)),
        None => Ok(None),
    }
}

/// The job that the first word names, if its command takes the words.
pub fn job_of<'a>(alloc: Global, words: &'a [String]) -> Result<Option<Job<'a>>, Memory>
    ensures names { IfOk result (λ job. option_map names_of job
        ≡ job_named (map string_bytes words.entry.now)) }
{
    match words {
        [job, ..] if job.as_str() == "lift" => match read_lift(alloc, words)? {
            Some(lift) => Ok(Some(Job::Lift(lift))),
            None => Ok(None),
        },
        [job, ..] if job.as_str() == "flat" => match read_flat(alloc, words)? {
            Some(flat) => Ok(Some(Job::Flat(flat))),
            None => Ok(None),
        },
        [job, ..] if job.as_str() == "restore" => match read_restore(alloc, words)? {
            Some(restore) => Ok(Some(Job::Restore(restore))),
            None => Ok(None),
        },
        _ => Ok(None),
    }
}
