//! The job `lift`.
ghost use Rattle.std.specs.Prelude.{◌≡◌, ◌≢◌, [], ◌∷◌, true, false, IfOk, IfErr};
ghost use Rattle.gl_desk.specs.declared.slot.Slot.{Slot as Place};
ghost use Rattle.gl_desk.specs.Desk.{OthersSame, NamesSame};
ghost use Rattle.gl_text.specs.Decks.{read_deck};
ghost use Rattle.gl_base.specs.Libraries.{read_library};
ghost use Rattle.gl_job.specs.Runs.{run_of, opening};
ghost use Rattle.gl_job.specs.Courses.{Ends, Makes};
ghost use Rattle.gl_job.specs.Points.{IsRead, IsNotRead};
ghost use Rattle.gl_lift.specs.Liftable.{IsLiftable, IsSearchable};
ghost use Rattle.gl_deck.specs.Texts.{fault_text};
ghost use Rattle.gl_cells.specs.Texts.{cell_text};
ghost use Rattle.gl_words.specs.Names.{lift_names};
ghost use Rattle.gl_run.specs.Jobs.{lift_course, lift_outs, texts_in_order};
ghost use Rattle.gl_run.specs.Endings.{end_of};

use crate::ending::{Ending, lift_ending};
use crate::inputs::{deck_of, library_of};
use crate::writing::finish;
use gl_deck::Deck;
use gl_desk::{Desk, Slot};
use gl_job::{Kind, Output, read};
use gl_lift::{Library, Texts, counted_limits_are_limits, texts_of};
use gl_words::Lift;
use std::alloc::Global;

/// Reads the deck by its word.
fn read_deck_file<D: Desk>(alloc: Global, desk: &mut D, word: &str) -> Result<Deck, Ending>
    requires free { (D.shows desk.old Slot.Deck).used ≡ false }
    ensures deck { IfOk result (λ deck. IsRead (read_deck true) (opening Slot.Deck word.now) deck
        (run_of D.shows D.held D.wants desk.old desk.new)) }
    ensures known { IfOk result IsLiftable }
    ensures none { IfErr result (λ ending. IsNotRead Kind.Deck fault_text (read_deck true)
        (opening Slot.Deck word.now) (end_of ending) (run_of D.shows D.held D.wants desk.old desk.new)) }
    ensures others { OthersSame D.shows desk.old desk.new Slot.Deck }
    ensures names { NamesSame D.held D.wants desk.old desk.new }
{
    match read(alloc, desk, Slot::Deck, word) {
        Ok(bytes) => deck_of(alloc, &bytes),
        Err(stop) => Err(Ending::Stopped(stop)),
    }
}

/// Reads the library by its word.
fn read_library_file<D: Desk>(alloc: Global, desk: &mut D, word: &str) -> Result<Library, Ending>
    requires free { (D.shows desk.old Slot.Library).used ≡ false }
    ensures library { IfOk result (λ library. IsRead read_library
        (opening Slot.Library word.now) library (run_of D.shows D.held D.wants desk.old desk.new)) }
    ensures known { IfOk result IsSearchable }
    ensures none { IfErr result (λ ending. IsNotRead Kind.Library cell_text read_library
        (opening Slot.Library word.now) (end_of ending) (run_of D.shows D.held D.wants desk.old desk.new)) }
    ensures others { OthersSame D.shows desk.old desk.new Slot.Library }
    ensures names { NamesSame D.held D.wants desk.old desk.new }
{
    match read(alloc, desk, Slot::Library, word) {
        Ok(bytes) => library_of(alloc, &bytes),
        Err(stop) => Err(Ending::Stopped(stop)),
    }
}

/// Reads both inputs, flattens the deck, and makes the texts of the lifted deck, the map of names and the report, unless they
/// pass a limit.
fn make_lift<D: Desk>(alloc: Global, desk: &mut D, words: &Lift<'_>) -> Result<Texts, Ending>
    requires deck { (D.shows desk.old Slot.Deck).used ≡ false }
    requires library { (D.shows desk.old Slot.Library).used ≡ false }
    ensures made { IfOk result (λ texts. Makes [] (lift_course (lift_names words.now))
        (lift_outs (lift_names words.now)) (texts_in_order texts)
        (run_of D.shows D.held D.wants desk.old desk.new)) }
    ensures unmade { IfErr result (λ ending. Ends [] (lift_course (lift_names words.now))
        (end_of ending) (run_of D.shows D.held D.wants desk.old desk.new)) }
    ensures others { (slot : Place) → slot ≢ Slot.Deck → slot ≢ Slot.Library
        → D.shows desk.new slot ≡ D.shows desk.old slot }
    ensures names { NamesSame D.held D.wants desk.old desk.new }
{
    let deck = match read_deck_file(alloc, desk, words.deck) {
        Ok(deck) => deck,
        Err(ending) => return Err(ending),
    };
    let library = match read_library_file(alloc, desk, words.library) {
        Ok(library) => library,
        Err(ending) => return Err(ending),
    };
    counted_limits_are_limits();
    match texts_of(alloc, deck, &library, words.top.as_ref(), &words.keep) {
        Ok(texts) => Ok(texts),
        Err(fault) => Err(lift_ending(fault)),
    }
}

/// Does the job `lift`: all that is written is made before the first output is opened.
pub fn do_lift<D: Desk>(alloc: Global, desk: &mut D, words: &Lift<'_>) -> Ending
    requires free { (slot : Place) → slot ≢ Slot.Says
        → (D.shows desk.old slot).used ≡ false }
    ensures ends { Ends [] (lift_course (lift_names words.now)) (end_of result)
        (run_of D.shows D.held D.wants desk.old desk.new) }
    ensures says { D.shows desk.new Slot.Says ≡ D.shows desk.old Slot.Says }
    ensures names { NamesSame D.held D.wants desk.old desk.new }
{
    let texts = match make_lift(alloc, desk, words) {
        Ok(texts) => texts,
        Err(ending) => return ending,
    };
    let outputs = [
        Output {
            slot: Slot::Lifted,
            word: words.lifted,
            text: &texts.lifted,
        },
        Output {
            slot: Slot::NewMap,
            word: words.map,
            text: &texts.map,
        },
        Output {
            slot: Slot::Report,
            word: words.report,
            text: &texts.report,
        },
    ];
    finish(desk, &outputs)
}
