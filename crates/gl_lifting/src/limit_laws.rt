//! Laws of how much is lifted, within limits or not: each is the contract of a function that does nothing.
ghost use Rattle.gl_lifting.specs.Chain.{OfBytes, RenamedIsOriginal};
ghost use Rattle.gl_lifting.specs.Counting.{HasCardsOf, HasNewCards, HasNewNames, HasOnceNames, IsPaired};

/// The lifted deck of a lawful history of bytes is expanded to one card for each original device and for each composite.
pub fn lifted_decks_are_counted()
    ensures cards { OfBytes (λ o flat run h stem. HasCardsOf flat run h stem) }
{}

/// Within limits or not, each device of the flattened lifted deck stands for an original one, line by line of the map;
/// renamed it is the original deck.
pub fn lifted_decks_are_paired()
    ensures paired { OfBytes (λ o flat run h stem. IsPaired flat run h stem) }
    ensures names { OfBytes (λ o flat run h stem. HasNewNames flat run h stem) }
    ensures renamed { OfBytes (λ o flat run h stem. RenamedIsOriginal flat run h stem) }
{}

/// Within limits or not, each original device stands in the flattened lifted deck under its new names, and the devices there
/// have a name each.
pub fn lifted_devices_stand()
    ensures stand { OfBytes (λ o flat run h stem. HasNewCards flat run h stem) }
    ensures differ { OfBytes (λ o flat run h stem. HasOnceNames flat run h stem) }
{}
