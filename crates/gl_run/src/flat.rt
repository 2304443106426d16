//! The job `flat`.
ghost use Rattle.std.specs.Prelude.{◌≡◌, ◌≢◌, [], ◌∷◌, false, IfOk, IfErr};
ghost use Rattle.gl_desk.specs.declared.slot.Slot.{Slot as Place};
ghost use Rattle.gl_desk.specs.Desk.{OthersSame, NamesSame};
ghost use Rattle.gl_job.specs.Runs.{run_of, opening};
ghost use Rattle.gl_job.specs.Courses.{Ends, Makes};
ghost use Rattle.gl_job.specs.Points.{IsRead, IsNotRead};
ghost use Rattle.gl_text.specs.Flattening.{flat_job};
ghost use Rattle.gl_deck.specs.Texts.{fault_text};
ghost use Rattle.gl_words.specs.Names.{flat_names};
ghost use Rattle.gl_run.specs.Jobs.{flat_course};
ghost use Rattle.gl_run.specs.Endings.{end_of};

use crate::ending::Ending;
use crate::inputs::flat_text_of;
use crate::writing::finish;
use gl_desk::{Desk, Slot};
use gl_job::{Kind, Output, read};
use gl_words::Flat;
use std::alloc::Global;

/// Reads the deck, and makes its flat text.
fn make_flat<D: Desk>(alloc: Global, desk: &mut D, words: &Flat<'_>) -> Result<Vec<u8>, Ending>
    requires free { (D.shows desk.old Slot.Deck).used ≡ false }
    ensures made { IfOk result (λ text. IsRead (flat_job words.now.top)
        (opening Slot.Deck words.now.deck.now) text.items (run_of D.shows D.held D.wants desk.old desk.new)) }
    ensures unmade { IfErr result (λ ending. IsNotRead Kind.Deck fault_text
        (flat_job words.now.top) (opening Slot.Deck words.now.deck.now) (end_of ending) (run_of D.shows D.held D.wants desk.old desk.new)) }
    ensures others { OthersSame D.shows desk.old desk.new Slot.Deck }
    ensures names { NamesSame D.held D.wants desk.old desk.new }
{
    match read(alloc, desk, Slot::Deck, words.deck) {
        Ok(bytes) => flat_text_of(alloc, &bytes, words.top.as_ref()),
        Err(stop) => Err(Ending::Stopped(stop)),
    }
}

/// Does the job `flat`: all that is written is made before the output is opened.
pub fn do_flat<D: Desk>(alloc: Global, desk: &mut D, words: &Flat<'_>) -> Ending
    requires free { (slot : Place) → slot ≢ Slot.Says
        → (D.shows desk.old slot).used ≡ false }
    ensures ends { Ends [] (flat_course (flat_names words.now)) (end_of result)
        (run_of D.shows D.held D.wants desk.old desk.new) }
    ensures says { D.shows desk.new Slot.Says ≡ D.shows desk.old Slot.Says }
    ensures names { NamesSame D.held D.wants desk.old desk.new }
{
    let text = match make_flat(alloc, desk, words) {
        Ok(text) => text,
        Err(ending) => return ending,
    };
    let outputs = [Output {
        slot: Slot::Out,
        word: words.out,
        text: &text,
    }];
    finish(desk, &outputs)
}
