ghost use Rattle.std.specs.Prelude.{◌≡◌, IfOk};
ghost use Rattle.std.specs.List.{IsAmong};
ghost use Rattle.gl_text.specs.Decks as decks;
ghost use Rattle.gl_deck.specs.Calls as calls;
ghost use Rattle.gl_deck.specs.Calls.{PortsFit};
ghost use Rattle.gl_deck.specs.Ranks.{AreRanks};
ghost use Rattle.gl_deck.specs.Refusals.{Refuses};

use crate::ranks::{rank_of, ranks};
use crate::reach::reaches;
use crate::site::Site;
use crate::{DeckFault, Name, Sub, Subs};
use std::alloc::{AllocError, Global};

/// The target is the subcircuit of this name, or leads to it.
fn leads_to(
    alloc: Global,
    subs: &Subs,
    ranks: &[usize],
    target: &Sub,
    name: &Name,
) -> Result<bool, AllocError>
    requires ranks { AreRanks subs.now ranks.now }
    requires among { IsAmong subs.now target.now }
    ensures leads { IfOk result (λ leads. leads ≡ decks.reaches subs.now target.now name.now) }
{
    if rank_of(subs, ranks, target.head().name()) < rank_of(subs, ranks, name) {
        return Ok(false);
    }
    reaches(alloc, subs, target, name)
}

/// Why the call of an X card is refused.
fn fault_at(
    alloc: Global,
    subs: &Subs,
    ranks: &[usize],
    site: &Site,
) -> Result<Option<DeckFault>, AllocError>
    requires ranks { AreRanks subs.now ranks.now }
    requires ports { PortsFit subs.now }
    ensures refused { IfOk result (λ fault. Refuses fault (calls.site_fault subs.now site.now)) }
{
    let line = site.line();
    let has = site.nodes();
    let Some(target) = subs.get(site.sub()) else {
        return Ok(Some(DeckFault::UnknownSubckt { line }));
    };
    let needs = target.head().ports().len() as u32;
    if has != needs {
        return Ok(Some(DeckFault::WrongNodeCount { line, has, needs }));
    }
    if site.is_inside() && leads_to(alloc, subs, ranks, target, site.scope_name())? {
        return Ok(Some(DeckFault::Recursive { line }));
    }
    Ok(None)
}

/// The refusal of the first X card whose call is refused.
fn first_fault(
    alloc: Global,
    subs: &Subs,
    ranks: &[usize],
    sites: &[Site],
) -> Result<Option<DeckFault>, AllocError>
    requires ranks { AreRanks subs.now ranks.now }
    requires ports { PortsFit subs.now }
    ensures first { IfOk result (λ fault. Refuses fault (calls.first_by_call subs.now sites.now)) }
{
    let mut rest = sites;
    while let [site, behind @ ..] = rest {
        if let Some(fault) = fault_at(alloc, subs, ranks, site)? {
            return Ok(Some(fault));
        }
        rest = behind;
    }
    Ok(None)
}

/// The refusal of the first X card, in the order given, that calls a subcircuit that the file lacks, has another number of
/// nodes than that has ports, or leads back to the subcircuit that it stands in, in this order. A call that goes down by the
/// ranks does not lead back, and each in the table does where no subcircuit leads back to itself; of any other call all that
/// it leads to is looked at.
pub fn first_call_fault(
    alloc: Global,
    subs: &Subs,
    sites: &[Site],
) -> Result<Option<DeckFault>, AllocError>
    requires ports { PortsFit subs.now }
    ensures first { IfOk result (λ fault. Refuses fault (calls.first_by_call subs.now sites.now)) }
{
    let ranks = ranks(alloc, subs)?;
    first_fault(alloc, subs, &ranks, sites)
}
