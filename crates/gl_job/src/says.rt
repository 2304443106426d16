ghost use Rattle.std.specs.Prelude.{◌≡◌, ◌++◌, codes, true, OnOk, OnErr};
ghost use Rattle.gl_desk.specs.Desk.{Gives, GivesFront, OthersSame, NamesSame};
ghost use Rattle.gl_job.specs.Texts.{front_of, ended, line_of, GivesOrFails};
ghost use Rattle.gl_said.specs.Texts.{part_text, parts_text};

use crate::kind::Kind;
use gl_desk::{Desk, Failed, Slot, write_all};
use gl_said::Part;
use itoa::Buffer;

/// Gives a part.
fn give_part<D: Desk>(desk: &mut D, part: Part<'_>) -> Result<(), Failed>
    requires says { (D.shows desk.old Slot.Says).used ≡ true }
    ensures ok { OnOk result
        (Gives (D.shows desk.old Slot.Says) (D.shows desk.new Slot.Says) (part_text part.entry)) }
    ensures err { OnErr result
        (GivesFront (D.shows desk.old Slot.Says) (D.shows desk.new Slot.Says) (part_text part.entry)) }
    ensures others { OthersSame D.shows desk.old desk.new Slot.Says }
    ensures names { NamesSame D.held D.wants desk.old desk.new }
{
    match part {
        Part::Text(text) => write_all(desk, Slot::Says, text.as_bytes()),
        Part::Name(name) => write_all(desk, Slot::Says, name),
        Part::Number(number) => {
            let mut buffer = Buffer::new();
            write_all(desk, Slot::Says, buffer.format(number).as_bytes())
        }
    }
}

/// Gives parts one after another, and stops at the first call that fails.
fn give_parts<D: Desk>(desk: &mut D, parts: &[Part<'_>]) -> Result<(), Failed>
    requires says { (D.shows desk.old Slot.Says).used ≡ true }
    ensures ok { OnOk result
        (Gives (D.shows desk.old Slot.Says) (D.shows desk.new Slot.Says) (parts_text parts.now)) }
    ensures err { OnErr result
        (GivesFront (D.shows desk.old Slot.Says) (D.shows desk.new Slot.Says) (parts_text parts.now)) }
    ensures others { OthersSame D.shows desk.old desk.new Slot.Says }
    ensures names { NamesSame D.held D.wants desk.old desk.new }
{
    match parts {
        [] => Ok(()),
        [first, behind @ ..] => match give_part(desk, *first) {
            Ok(()) => give_parts(desk, behind),
            Err(failed) => Err(failed),
        },
    }
}

/// Gives the line of a message, and stops at the first call that fails.
fn give_line<D: Desk>(desk: &mut D, kind: Kind, parts: &[Part<'_>]) -> Result<(), Failed>
    requires says { (D.shows desk.old Slot.Says).used ≡ true }
    ensures ok { OnOk result (Gives (D.shows desk.old Slot.Says) (D.shows desk.new Slot.Says)
        (front_of kind ++ (parts_text parts.now ++ codes "\n"))) }
    ensures err { OnErr result (GivesFront (D.shows desk.old Slot.Says) (D.shows desk.new Slot.Says)
        (front_of kind ++ (parts_text parts.now ++ codes "\n"))) }
    ensures others { OthersSame D.shows desk.old desk.new Slot.Says }
    ensures names { NamesSame D.held D.wants desk.old desk.new }
{
    give_part(desk, Part::Text(kind.front()))?;
    give_parts(desk, parts)?;
    give_part(desk, Part::Text("\n"))
}

/// Says the line of a message, or its front up to a call that fails. It takes no memory.
pub fn say<D: Desk>(desk: &mut D, kind: Kind, parts: &[Part<'_>])
    requires says { (D.shows desk.old Slot.Says).used ≡ true }
    ensures line { GivesOrFails
        (D.shows desk.old Slot.Says) (D.shows desk.new Slot.Says) (line_of (ended kind (parts_text parts.now))) }
    ensures others { OthersSame D.shows desk.old desk.new Slot.Says }
    ensures names { NamesSame D.held D.wants desk.old desk.new }
{
    match give_line(desk, kind, parts) {
        Ok(()) => {}
        Err(Failed) => {}
    }
}
