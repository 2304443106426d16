//! The program: shows a text that is asked for, or passes the words to the top call over real files, and ends with its status.
#![tactic(auto)]

mod program;
mod words;

use crate::program::{run_words, usage_text};
use crate::words::{behind_name, words_of};
use gl_desk::RealDesk;
use std::env;
use std::process::ExitCode;

fn main(rt: HostRuntime) -> ExitCode {
    let alloc = rt.alloc();
    let Some(words) = words_of(alloc, env::args(&rt)) else {
        return ExitCode::from(9);
    };
    let words = behind_name(&words);
    let mut desk = RealDesk::new(&rt);
    let status = run_words(alloc, words, &mut desk);
    if let Some(usage) = usage_text(words, status) {
        // The status stays where the usage cannot be shown.
        let _ = eprint!(rt; "{usage}");
    }
    ExitCode::from(status)
}
