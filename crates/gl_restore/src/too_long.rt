//! That the text of a restored deck is longer than a file may be.
ghost use Rattle.std.specs.Prelude.{◌≡◌};
ghost use Rattle.gl_said.specs.Texts.{parts_text, text_if_any};
ghost use Rattle.gl_restore.specs.Texts.{limit_text};
ghost use Rattle.gl_restore.specs.TooLong.{limit_of};
ghost use Rattle.gl_restore.specs.declared.too_long.TextFault.TheVariants.{Memory as NoMemory};

use gl_line::Memory;
use gl_said::{Parts, nothing, one};
use std::alloc::{AllocError, AllocFailed};
use thiserror::Error;

/// Why a restored deck has no text.
#[derive(Debug, Drop, Error)]
pub enum TextFault {
    /// It is longer than a file may be: 67,108,864 bytes.
    #[error("the restored deck is longer than a file may be")]
    RestoredText,
    /// There was no memory.
    #[error("no memory")]
    Memory,
}

impl From<Memory> for TextFault {
    ghost from_gives = { λ _ e. e ≡ NoMemory };

    fn from(_: Memory) -> Self {
        TextFault::Memory
    }
}

impl From<AllocError> for TextFault {
    ghost from_gives = { λ _ e. e ≡ NoMemory };

    fn from(_: AllocError) -> Self {
        TextFault::Memory
    }
}

impl<T: Drop> From<AllocFailed<T>> for TextFault {
    ghost from_gives = { λ _ e. e ≡ NoMemory };

    fn from(_: AllocFailed<T>) -> Self {
        TextFault::Memory
    }
}

/// What is said of a text that is too long; nothing of want of memory.
pub fn text_parts<'a>(fault: &'a TextFault) -> Parts<'a>
    ensures text { parts_text result ≡ text_if_any limit_text (limit_of fault.now) }
{
    match fault {
        TextFault::RestoredText => one("50 OutLimit which=RestoredText number=", 67_108_864),
        TextFault::Memory => nothing(),
    }
}
