ghost use Rattle.std.specs.Prelude.{◌≡◌, option_map, IfOk};
ghost use Rattle.std.specs.Option.{option_copied};
ghost use Rattle.indexmap.specs.IndexMap.{get};
ghost use Rattle.gl_text.specs.LogicalLines.{same_text};
ghost use Rattle.gl_text.specs.Decks.{is_in};
ghost use Rattle.gl_lifting.specs.Renaming.{new_names};
ghost use Rattle.gl_restore.specs.Places.{ArePlaces, first_named, new_name};

use crate::places::{Places, note};
use crate::{Memory, Name};
use indexmap::IndexMap;
use std::alloc::Global;
use std::marker::Model;

/// Lines of a map, each a new name and an old one, looked up by the new names. Contracts see the lines.
#[derive(Drop)]
pub struct Lines<'a> {
    lines: &'a [(Name, Name)],
    places: Places,
}

impl<'a> Model for Lines<'a> {
    ghost use Rattle.std.specs.Prelude.{List, ℕ};
    ghost use Rattle.indexmap.specs.IndexMap.{get};
    ghost use Rattle.gl_text.specs.LogicalLines.{same_text};
    ghost use Rattle.gl_restore.specs.Places.{ArePlaces, new_name};

    ghost Value = { List (List ℕ × List ℕ) };

    ghost view = { λ l. l.lines.now };

    ghost invariant = { λ l. ArePlaces new_name l.lines.now (get same_text l.places) };
}

/// The places of lines, by their new names.
fn places_of(alloc: Global, lines: &[(Name, Name)]) -> Result<Places, Memory>
    ensures places { IfOk result (λ places. ArePlaces new_name lines.now (get same_text places)) }
{
    let mut places = IndexMap::new(alloc);
    let mut place: usize = 0;
    for line in lines {
        note(alloc, &mut places, &line.0, place)?;
        place += 1;
    }
    Ok(places)
}

impl<'a> Lines<'a> {
    /// The lines.
    pub fn of(alloc: Global, lines: &'a [(Name, Name)]) -> Result<Lines<'a>, Memory>
        ensures lines { IfOk result (λ l. l ≡ lines.now) }
    {
        Ok(Lines {
            lines,
            places: places_of(alloc, lines)?,
        })
    }

    /// The first line of a new name.
    fn find(&self, new: &Name) -> Option<&'a (Name, Name)>
        ensures found { option_copied result ≡ first_named new_name new.now self.now }
    {
        match self.places.get(new) {
            Some(place) => self.lines.get(*place),
            None => None,
        }
    }

    /// The old name of a new one.
    pub fn old_name(&self, new: &Name) -> Option<&'a Name>
        ensures old { option_copied result ≡ option_map (λ n. n.1) (first_named new_name new.now self.now) }
    {
        match self.find(new) {
            Some(line) => Some(&line.1),
            None => None,
        }
    }

    /// A line has the new name.
    pub fn has(&self, new: &Name) -> bool
        ensures has { result ≡ is_in new.now (new_names self.now) }
    {
        self.find(new).is_some()
    }
}
