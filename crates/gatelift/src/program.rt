//! What the program does with its words, over any desk.
ghost use Rattle.std.specs.Prelude.{◌≡◌, ◌≢◌, None, map, string_bytes, IfSome, IsSomeAnd};
ghost use Rattle.gl_desk.specs.Desk.{IsFresh, NamesSame};
ghost use Rattle.gl_job.specs.Runs.{run_of};
ghost use Rattle.gl_words.specs.Topics.{topic_named, topic_text, usage_named};
ghost use Rattle.gatelift.specs.Programs.{IsShown, IsJobRun};

use gl_desk::{Desk, Slot, write_all};
use gl_run::run;
use gl_words::{Topic, topic_of, usage_of};
use std::alloc::Global;

/// Says a text. It opens nothing and takes no memory.
fn show<D: Desk>(desk: &mut D, topic: Topic) -> u8
    requires fresh { IsFresh D.shows desk.old }
    ensures shown { IsShown topic result (run_of D.shows D.held D.wants desk.old desk.new) }
    ensures names { NamesSame D.held D.wants desk.old desk.new }
{
    match write_all(desk, Slot::Says, topic.text().as_bytes()) {
        Ok(()) => 0,
        Err(_) => 8,
    }
}

/// Says the text that the words ask for, with status 0, or 8 where that fails; else does the job of the words.
pub fn run_words<D: Desk>(alloc: Global, words: &[String], desk: &mut D) -> u8
    requires fresh { IsFresh D.shows desk.old }
    ensures text { IfSome (topic_named (map string_bytes words.now)) (λ topic.
        IsShown topic result (run_of D.shows D.held D.wants desk.old desk.new)) }
    ensures job { topic_named (map string_bytes words.now) ≡ None
        → IsJobRun (map string_bytes words.now) result
        (run_of D.shows D.held D.wants desk.old desk.new) }
    ensures names { NamesSame D.held D.wants desk.old desk.new }
{
    match topic_of(words) {
        Some(topic) => show(desk, topic),
        None => run(alloc, words, desk),
    }
}

/// The usage that is shown besides, where the words name no job.
pub fn usage_text(words: &[String], status: u8) -> Option<&'static str>
    ensures usage { status ≡ 1 → IsSomeAnd result (λ text.
        text.now ≡ topic_text (usage_named (map string_bytes words.now))) }
    ensures none { status ≢ 1 → result ≡ None }
{
    if status == 1 {
        Some(usage_of(words).text())
    } else {
        None
    }
}
