//! The commands of the jobs.
ghost use Rattle.std.specs.Prelude.{◌≡◌, IfOk};
ghost use Rattle.clap.specs.Words.{app_of};
ghost use Rattle.gl_words.specs.Commands.{with_word, with_option, lift_app, flat_app, restore_app};

use clap::{Arg, Command};
use std::alloc::{AllocError, Global};

/// One word more, which must be there.
fn add_word<'a>(alloc: Global, command: Command<'a>, id: &'a str) -> Result<Command<'a>, AllocError>
    ensures app { IfOk result (λ c. app_of c ≡ with_word (app_of command.entry) id.entry.now) }
{
    command.arg(Arg::new(alloc, id).required(true))
}

/// One option more, which takes one value.
fn add_option<'a>(
    alloc: Global,
    command: Command<'a>,
    id: &'a str,
) -> Result<Command<'a>, AllocError>
    ensures app { IfOk result (λ c. app_of c ≡ with_option (app_of command.entry) id.entry.now) }
{
    command.arg(Arg::new(alloc, id).long(id))
}

/// The command of the job `lift`.
pub fn lift_command<'a>(alloc: Global) -> Result<Command<'a>, AllocError>
    ensures app { IfOk result (λ c. app_of c ≡ lift_app) }
{
    let command = add_word(alloc, Command::new(alloc, "lift"), "deck")?;
    let command = add_word(alloc, command, "library")?;
    let command = add_word(alloc, command, "lifted")?;
    let command = add_word(alloc, command, "map")?;
    let command = add_word(alloc, command, "report")?;
    let command = add_option(alloc, command, "top")?;
    add_option(alloc, command, "keep")
}

/// The command of the job `flat`.
pub fn flat_command<'a>(alloc: Global) -> Result<Command<'a>, AllocError>
    ensures app { IfOk result (λ c. app_of c ≡ flat_app) }
{
    let command = add_word(alloc, Command::new(alloc, "flat"), "deck")?;
    let command = add_word(alloc, command, "out")?;
    add_option(alloc, command, "top")
}

/// The command of the job `restore`.
pub fn restore_command<'a>(alloc: Global) -> Result<Command<'a>, AllocError>
    ensures app { IfOk result (λ c. app_of c ≡ restore_app) }
{
    let command = add_word(alloc, Command::new(alloc, "restore"), "lifted")?;
    let command = add_word(alloc, command, "map")?;
    let command = add_word(alloc, command, "out")?;
    add_option(alloc, command, "top")
}
