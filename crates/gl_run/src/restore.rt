//! The job `restore`.
ghost use Rattle.std.specs.Prelude.{◌≡◌, ◌≢◌, ◌≤◌, ◌+◌, [], ◌∷◌, false, length, IfOk, IfErr};
ghost use Rattle.std.specs.Option.{option_copied};
ghost use Rattle.gl_desk.specs.declared.slot.Slot.{Slot as Place};
ghost use Rattle.gl_desk.specs.Desk.{OthersSame, NamesSame};
ghost use Rattle.gl_text.specs.LogicalLines.{FILE};
ghost use Rattle.gl_text.specs.Flattening.{flat_of};
ghost use Rattle.gl_lifting.specs.MapReading.{read_map};
ghost use Rattle.gl_job.specs.Runs.{run_of, opening};
ghost use Rattle.gl_job.specs.Courses.{Ends, Makes};
ghost use Rattle.gl_job.specs.Points.{IsRead, IsNotRead};
ghost use Rattle.gl_deck.specs.Texts.{fault_text};
ghost use Rattle.gl_map.specs.Texts as maps;
ghost use Rattle.gl_words.specs.Names.{restore_names};
ghost use Rattle.gl_run.specs.Jobs.{restore_course, restore_outs};
ghost use Rattle.gl_run.specs.Restoring.{IsFlatRead};
ghost use Rattle.gl_run.specs.Endings.{end_of};

use crate::back::{flat_deck_of, map_of, restored_text};
use crate::ending::Ending;
use crate::writing::finish;
use gl_desk::{Desk, Slot};
use gl_flat::Flat;
use gl_job::{Kind, Output, read};
use gl_map::NameMap;
use gl_words::{Name, Restore};
use std::alloc::Global;

/// Reads the lifted deck by its word, and flattens it.
fn read_flat_file<D: Desk>(
    alloc: Global,
    desk: &mut D,
    word: &str,
    top: Option<&Name>,
) -> Result<Flat, Ending>
    requires free { (D.shows desk.old Slot.Deck).used ≡ false }
    ensures flat { IfOk result (λ flat. IsFlatRead (option_copied top.entry)
        (opening Slot.Deck word.now) flat (run_of D.shows D.held D.wants desk.old desk.new)) }
    ensures none { IfErr result (λ ending. IsNotRead Kind.Deck fault_text (flat_of (option_copied top.entry))
        (opening Slot.Deck word.now) (end_of ending) (run_of D.shows D.held D.wants desk.old desk.new)) }
    ensures others { OthersSame D.shows desk.old desk.new Slot.Deck }
    ensures names { NamesSame D.held D.wants desk.old desk.new }
{
    match read(alloc, desk, Slot::Deck, word) {
        Ok(bytes) => flat_deck_of(alloc, &bytes, top),
        Err(stop) => Err(Ending::Stopped(stop)),
    }
}

/// Reads the map of names by its word.
fn read_map_file<D: Desk>(alloc: Global, desk: &mut D, word: &str) -> Result<NameMap, Ending>
    requires free { (D.shows desk.old Slot.Map).used ≡ false }
    ensures map { IfOk result (λ names. IsRead read_map (opening Slot.Map word.now) names
        (run_of D.shows D.held D.wants desk.old desk.new)) }
    ensures few { IfOk result (λ names. length names.devices + length names.nets ≤ FILE) }
    ensures none { IfErr result (λ ending. IsNotRead Kind.Map maps.fault_text read_map
        (opening Slot.Map word.now) (end_of ending) (run_of D.shows D.held D.wants desk.old desk.new)) }
    ensures others { OthersSame D.shows desk.old desk.new Slot.Map }
    ensures names { NamesSame D.held D.wants desk.old desk.new }
{
    match read(alloc, desk, Slot::Map, word) {
        Ok(bytes) => map_of(alloc, &bytes),
        Err(stop) => Err(Ending::Stopped(stop)),
    }
}

/// Reads the lifted deck, flattens it, reads the map, and makes the restored text.
fn make_restore<D: Desk>(
    alloc: Global,
    desk: &mut D,
    words: &Restore<'_>,
) -> Result<Vec<u8>, Ending>
    requires deck { (D.shows desk.old Slot.Deck).used ≡ false }
    requires map { (D.shows desk.old Slot.Map).used ≡ false }
    ensures made { IfOk result (λ text. Makes [] (restore_course (restore_names words.now))
        (restore_outs (restore_names words.now)) (text.items ∷ []) (run_of D.shows D.held D.wants desk.old desk.new)) }
    ensures unmade { IfErr result (λ ending. Ends [] (restore_course (restore_names words.now))
        (end_of ending) (run_of D.shows D.held D.wants desk.old desk.new)) }
    ensures others { (slot : Place) → slot ≢ Slot.Deck → slot ≢ Slot.Map
        → D.shows desk.new slot ≡ D.shows desk.old slot }
    ensures names { NamesSame D.held D.wants desk.old desk.new }
{
    let flat = match read_flat_file(alloc, desk, words.lifted, words.top.as_ref()) {
        Ok(flat) => flat,
        Err(ending) => return Err(ending),
    };
    let names = match read_map_file(alloc, desk, words.map) {
        Ok(names) => names,
        Err(ending) => return Err(ending),
    };
    restored_text(alloc, &flat, &names)
}

/// Does the job `restore`: all that is written is made before the output is opened.
pub fn do_restore<D: Desk>(alloc: Global, desk: &mut D, words: &Restore<'_>) -> Ending
    requires free { (slot : Place) → slot ≢ Slot.Says
        → (D.shows desk.old slot).used ≡ false }
    ensures ends { Ends [] (restore_course (restore_names words.now)) (end_of result)
        (run_of D.shows D.held D.wants desk.old desk.new) }
    ensures says { D.shows desk.new Slot.Says ≡ D.shows desk.old Slot.Says }
    ensures names { NamesSame D.held D.wants desk.old desk.new }
{
    let text = match make_restore(alloc, desk, words) {
        Ok(text) => text,
        Err(ending) => return ending,
    };
    let outputs = [Output {
        slot: Slot::Out,
        word: words.out,
        text: &text,
    }];
    finish(desk, &outputs)
}
