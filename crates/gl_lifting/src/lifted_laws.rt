//! Laws of flattening what is lifted: each is the contract of a function that does nothing.
ghost use Rattle.std.specs.Prelude.{◌≡◌, ◌+◌, ◌<◌, ◌≤◌, ◌^◌, ℕ, List, length, None};
ghost use Rattle.gl_text.specs.LogicalLines.{NAME};
ghost use Rattle.gl_text.specs.Flattening.{Flat};
ghost use Rattle.gl_base.specs.BaseCircuit.{nets_of};
ghost use Rattle.gl_base.specs.Libraries.{Library};
ghost use Rattle.gl_base.specs.RoundReports.{instance_name};
ghost use Rattle.gl_base.specs.Rounds.{cards_of};
ghost use Rattle.gl_lifting.specs.Runs.{run_of};
ghost use Rattle.gl_lifting.specs.Histories.{History};
ghost use Rattle.gl_lifting.specs.LiftedDecks.{lifted_deck};
ghost use Rattle.gl_lifting.specs.OutLimits.{lifted_flat, limits, out_limit};
ghost use Rattle.gl_lifting.specs.Lifted.{LiftsBack, Options as Asked};
ghost use Rattle.gl_lifting.specs.Chain.{IsLawfulOf, LinksHold, LiftedIsFlat, RenamedIsOriginal, OfBytes, OfBytesWithin};
ghost use Rattle.gl_lifting.specs.FewerLinks.{FewerLinksHold, HasSomeNet, AreFew, HaveNames, HasAsMany};
ghost use Rattle.gl_lifting.specs.NameMaps.{map_of};
ghost use Rattle.gl_lifting.specs.Pairing.{ArePaired};
ghost use Rattle.gl_lifting.specs.Suited.{HasSuited};

/// Of a lawful history of bytes: composites can be numbered, and where there is one the deck has a net; so all parts suit.
pub fn lawful_parts_suit()
    ensures few { OfBytes (λ o flat run h stem. AreFew h) }
    ensures some_net { OfBytes (λ o flat run h stem. HasSomeNet flat h) }
    ensures suited { OfBytes (λ o flat run h stem. HasSuited run.source flat run.library h) }
{}

/// The lifted deck of a lawful history of bytes has, flattened, as many devices as the original; within its limits it
/// is flattened: not too deep, and without a clash.
pub fn lifted_decks_are_flat()
    ensures many { OfBytes (λ o flat run h stem. HasAsMany flat run h stem) }
    ensures flat { OfBytesWithin LiftedIsFlat }
{}

/// Each composite of a lawful history of bytes within its limits can be named: below one of no lower number at the top
/// there is a device, whose flat name is longer.
pub fn composites_are_named()
    ensures named { OfBytesWithin (λ o flat run h stem. HaveNames stem h) }
{}

/// Each device of the flattened lifted deck stands for an original one, line by line of the map; so renamed it is the
/// original deck.
pub fn lifted_decks_are_renamed()
    ensures paired { OfBytesWithin (λ o flat run h stem.
        ArePaired (lifted_flat flat.top (lifted_deck stem flat run.source h))
        (map_of stem flat run.source h) flat) }
    ensures renamed { OfBytesWithin (λ o flat run h stem. RenamedIsOriginal flat run h stem) }
{}

/// The lift theorem: what was lifted of any deck and library, with any options, can be restored. Each link of it holds
/// of every lawful history whose texts pass no limit.
pub fn what_is_lifted_can_be_restored()
    ensures fewer_links { FewerLinksHold }
    ensures links { LinksHold }
    ensures theorem { LiftsBack }
{}
