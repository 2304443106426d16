//! The words that the program is started with.
ghost use Rattle.std.specs.Prelude.{◌≡◌, ◌≢◌, [], None, drop, IfErr, IsSomeAnd};
ghost use Rattle.std.specs.IoError.{error_kind};
ghost use Rattle.std.specs.declared.io.ErrorKind.TheVariants.{OutOfMemory};

use std::alloc::Global;
use std::env::Args;
use std::io;
use std::io::ErrorKind;

/// The program's name and its words. Words that are not UTF-8 are none; `None` where there is no memory.
pub fn words_of(alloc: Global, given: io::Result<Args>) -> Option<Vec<String>>
    ensures no_memory { IfErr given (λ error. error_kind error ≡ OutOfMemory → result ≡ None) }
    ensures no_text { IfErr given (λ error. error_kind error ≢ OutOfMemory
        → IsSomeAnd result (λ words. words.items ≡ [])) }
{
    match given {
        Ok(args) => args.collect(alloc).ok(),
        Err(error) if error.kind() == ErrorKind::OutOfMemory => None,
        Err(_) => Some(Vec::new(alloc)),
    }
}

/// The words behind the program's name.
pub fn behind_name(words: &[String]) -> &[String]
    ensures words { result.now ≡ drop 1 words.now }
{
    match words {
        [_, behind @ ..] => behind,
        [] => words,
    }
}
