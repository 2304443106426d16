//! The top call.
ghost use Rattle.std.specs.Prelude.{◌≡◌, ◌≢◌, ◌⊎◌, [], None, false, true, map, string_bytes};
ghost use Rattle.gl_desk.specs.declared.slot.Slot.{Slot as Place};
ghost use Rattle.gl_desk.specs.Desk.{IsFresh, NamesSame};
ghost use Rattle.gl_job.specs.Runs.{run_of};
ghost use Rattle.gl_job.specs.Courses.{Ends};
ghost use Rattle.gl_job.specs.Claims.{IsDone, IsComplete, IsStatus};
ghost use Rattle.gl_words.specs.Jobs.{job_named};
ghost use Rattle.gl_run.specs.Jobs.{course_named};
ghost use Rattle.gl_run.specs.Endings.{end_of};
ghost use Rattle.gl_run.specs.Claims.{IsEnding, IsLongSaid, IsFailedSaid, AreClosed, AreLeft};

use crate::ending::{Ending, say_ending};
use crate::flat::do_flat;
use crate::lift::do_lift;
use crate::restore::do_restore;
use gl_desk::{Desk, Slot};
use gl_fault::Memory;
use gl_job::Stop;
use gl_words::{Job, job_of};
use std::alloc::Global;

/// Reads the words and does the job that they name.
fn do_job<D: Desk>(alloc: Global, words: &[String], desk: &mut D) -> Ending
    requires free { (slot : Place) → slot ≢ Slot.Says
        → (D.shows desk.old slot).used ≡ false }
    ensures ends { Ends [] (course_named (map string_bytes words.now)) (end_of result)
        (run_of D.shows D.held D.wants desk.old desk.new) }
    ensures says { D.shows desk.new Slot.Says ≡ D.shows desk.old Slot.Says }
    ensures names { NamesSame D.held D.wants desk.old desk.new }
{
    match job_of(alloc, words) {
        Ok(Some(Job::Lift(lift))) => do_lift(alloc, desk, &lift),
        Ok(Some(Job::Flat(flat))) => do_flat(alloc, desk, &flat),
        Ok(Some(Job::Restore(restore))) => do_restore(alloc, desk, &restore),
        Ok(None) => Ending::Words,
        Err(Memory) => Ending::Stopped(Stop::Memory),
    }
}

/// The whole program: reads the words, does the job and answers the status. All outputs are made before the first is opened;
/// a status other than 0 says one line.
pub fn run<D: Desk>(alloc: Global, words: &[String], desk: &mut D) -> u8
    requires fresh { IsFresh D.shows desk.old }
    // It ended so; that is what it means, and what was said.
    ensures ending { IsEnding result (course_named (map string_bytes words.now))
        (run_of D.shows D.held D.wants desk.old desk.new) }
    ensures words { result ≡ 1 → job_named (map string_bytes words.now) ≡ None }
    ensures no_words { job_named (map string_bytes words.now) ≡ None → IsStatus result 1 }
    // The job's inputs were read to their ends, and its outputs were given what is to be written.
    ensures done { result ≡ 0 → IsDone (course_named (map string_bytes words.now))
        (run_of D.shows D.held D.wants desk.old desk.new) }
    ensures complete { IsComplete (course_named (map string_bytes words.now)) result
        (run_of D.shows D.held D.wants desk.old desk.new) }
    ensures long { IsLongSaid result (run_of D.shows D.held D.wants desk.old desk.new) }
    ensures failed { IsFailedSaid result (run_of D.shows D.held D.wants desk.old desk.new) }
    ensures closed { AreClosed result (run_of D.shows D.held D.wants desk.old desk.new) }
    ensures unused { AreLeft (course_named (map string_bytes words.now))
        (run_of D.shows D.held D.wants desk.old desk.new) }
    ensures names { NamesSame D.held D.wants desk.old desk.new }
{
    let ending = do_job(alloc, words, desk);
    say_ending(desk, &ending);
    ending.status()
}
