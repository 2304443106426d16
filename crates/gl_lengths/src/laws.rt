ghost use Rattle.gl_lifting.specs.Chain.{OfBytes};
ghost use Rattle.gl_lifting.specs.Counting.{HasNewLength};
ghost use Rattle.gl_lengths.specs.CountedLimits.{HasCountedLimit};

use gl_lifting::{
    lifted_decks_are_counted, lifted_decks_are_flat, lifted_decks_are_paired, lifted_devices_stand,
    maps_have_each_once,
};

/// The flattened lifted deck of a lawful history of bytes, within limits or not, is as long as the original flat deck with
/// its devices under their new names.
pub fn lifted_flats_are_counted()
    ensures length { OfBytes (λ o flat run h stem. HasNewLength flat run h stem) }
{
    lifted_decks_are_flat();
    lifted_decks_are_paired();
    lifted_devices_stand();
    maps_have_each_once();
}

/// Whatever the report, the first limit that the texts of a lawful history of bytes pass is the one that is counted: names
/// by the map, cards by the original devices and the composites, and the flattened lifted deck by the original one.
pub fn limits_are_counted()
    ensures limit { OfBytes (λ o flat run h stem. HasCountedLimit flat run h stem) }
{
    lifted_decks_are_counted();
    lifted_decks_are_paired();
    lifted_flats_are_counted();
}
