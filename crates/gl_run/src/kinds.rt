//! Of which kind a refusal is: of that of its input, or want of memory.
ghost use Rattle.std.specs.Prelude.{◌≡◌};
ghost use Rattle.gl_deck.specs.Refusals as decks;
ghost use Rattle.gl_flat.specs.Refusals as flats;
ghost use Rattle.gl_cells.specs.Causes.{cause_of};
ghost use Rattle.gl_lib.specs.Kept.{unknown_of};
ghost use Rattle.gl_map.specs.Refusals as maps;
ghost use Rattle.gl_restore.specs.Refusals as names;
ghost use Rattle.gl_restore.specs.TooLong.{limit_of};
ghost use Rattle.gl_job.specs.Points.{refusal_kind};

use gl_cells::LibFault;
use gl_deck::DeckFault;
use gl_flat::FlatFault;
use gl_job::Kind;
use gl_lib::KeepFault;
use gl_map::MapFault;
use gl_restore::{RestoreFault, TextFault};

/// Of which kind a refusal of reading is: of the given one, or want of memory.
pub fn deck_kind(kind: Kind, fault: &DeckFault) -> Kind
    ensures kind { result ≡ refusal_kind kind (decks.fault_of fault.now) }
{
    match fault {
        DeckFault::Memory => Kind::Memory,
        _ => kind,
    }
}

/// Of which kind a refusal of flattening is: of the given one, or want of memory.
pub fn flat_kind(kind: Kind, fault: &FlatFault) -> Kind
    ensures kind { result ≡ refusal_kind kind (flats.fault_of fault.now) }
{
    match fault {
        FlatFault::Memory => Kind::Memory,
        _ => kind,
    }
}

/// Of which kind a refusal of a library is: of the given one, or want of memory.
pub fn library_kind(kind: Kind, fault: &LibFault) -> Kind
    ensures kind { result ≡ refusal_kind kind (cause_of fault.now) }
{
    match fault {
        LibFault::Memory => Kind::Memory,
        _ => kind,
    }
}

/// Of which kind a refusal of kept names is: of the given one, or want of memory.
pub fn keep_kind(kind: Kind, fault: &KeepFault) -> Kind
    ensures kind { result ≡ refusal_kind kind (unknown_of fault.now) }
{
    match fault {
        KeepFault::Memory => Kind::Memory,
        _ => kind,
    }
}

/// Of which kind a refusal of reading a map is: of the given one, or want of memory.
pub fn map_kind(kind: Kind, fault: &MapFault) -> Kind
    ensures kind { result ≡ refusal_kind kind (maps.fault_of fault.now) }
{
    match fault {
        MapFault::Memory => Kind::Memory,
        _ => kind,
    }
}

/// Of which kind a refusal of restoring is: of the given one, or want of memory.
pub fn name_kind(kind: Kind, fault: &RestoreFault) -> Kind
    ensures kind { result ≡ refusal_kind kind (names.fault_of fault.now) }
{
    match fault {
        RestoreFault::Memory => Kind::Memory,
        _ => kind,
    }
}

/// Of which kind it is that a restored deck is too long: of the given one, or want of memory.
pub fn text_kind(kind: Kind, fault: &TextFault) -> Kind
    ensures kind { result ≡ refusal_kind kind (limit_of fault.now) }
{
    match fault {
        TextFault::Memory => Kind::Memory,
        _ => kind,
    }
}
