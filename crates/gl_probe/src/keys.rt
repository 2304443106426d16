//! The key of a pattern in a labelled circuit.
ghost use Rattle.std.specs.Prelude.{◌≡◌, IfOk, Some};
ghost use Rattle.gl_match.specs.Graph.{FitsInto};
ghost use Rattle.gl_course.specs.KeyNotes.{IsDeepEnough};
ghost use Rattle.gl_label.specs.LabelTables.{AreLabelsOf};
ghost use Rattle.gl_key.specs.Best.{seen};
ghost use Rattle.gl_probe.specs.Keys.{key_in};

use gl_graph::{Circuit, Pattern};
use gl_key::{Note, key_of};
use gl_label::{Labels, Sieve, Spoil};
use gl_match::Memory;
use std::alloc::Global;

/// The key of a pattern that fits into the circuit, whose labels are as deep as the pattern has vertices that may be the key.
pub fn note_of(alloc: Global, c: &Circuit, labels: &Labels, p: &Pattern) -> Result<Note, Memory>
    requires labels { AreLabelsOf c.now labels.now }
    requires fits { FitsInto c.now p.now }
    requires deep { IsDeepEnough p.now labels.now.deepest }
    ensures key { IfOk result (λ note. key_in c.now p.now ≡ Some (seen note)) }
{
    let _circuit = c.devices();
    let _pattern = p.devices();
    let _labels = labels.deepest();
    let spoil = Spoil::of(alloc, p)?;
    let own = labels.for_pattern(alloc, c, p, &spoil)?;
    let sieve = Sieve {
        circuit: labels,
        pattern: &own,
    };
    key_of(alloc, c, p, &sieve)
}
