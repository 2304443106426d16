//! The map of names of a run, and what it counts.
ghost use Rattle.std.specs.Prelude.{◌≡◌, ◌≤◌, ◌++◌, length, nat_lt, IfErr, IfOk};
ghost use Rattle.gl_text.specs.LogicalLines.{FILE, NAME};
ghost use Rattle.gl_lifting.specs.Runs.{run_of};
ghost use Rattle.gl_lifting.specs.Counting.{has_longer, new_length};
ghost use Rattle.gl_lifting.specs.NameMaps as maps;
ghost use Rattle.gl_lifting.specs.NameMaps.{map_of};
ghost use Rattle.gl_lifting.specs.Renaming.{new_names};
ghost use Rattle.gl_limit.specs.Bounds.{Tells};
ghost use Rattle.gl_found.specs.Founds.{IsRunOf};

use crate::frame::frame_length;
use crate::length::add_devices;
use crate::long::{has_long_device, has_long_net};
use crate::new_nets::NewNets;
use crate::plan::plans_of;
use crate::renames::renames_of;
use crate::text::map_text;
use gl_cells::Library;
use gl_flat::Flat;
use gl_found::{Lifted, composites_are_found, gather_found};
use gl_limit::{FILE_LENGTH, WriteFault};
use gl_map::{Memory, Name};
use std::alloc::Global;
use std::marker::Model;

/// The map of names of a run: each original device in flat order, and each net of the flat deck in order of first appearance, under
/// the name that it has in the lifted deck, flattened. What no chosen instance took in keeps its name. Contracts see the flat deck
/// and the map.
#[derive(Drop)]
pub struct Names<'a> {
    flat: &'a Flat,
    /// The new names of devices, by their numbers.
    devices: Vec<Option<Name>>,
    /// The new names of nets, by their numbers.
    nets: Vec<Option<Name>>,
}

impl<'a> Model for Names<'a> {
    ghost use Rattle.gl_named.specs.Firsts.{at_number};
    ghost use Rattle.gl_named.specs.Named.{Named, map_under};

    ghost Value = { Named };

    ghost view = { λ n. record {
      flat = n.flat.now;
      map = map_under (at_number n.devices.items) (at_number n.nets.items) n.flat.now;
    } };
}

impl<'a> Names<'a> {
    /// The map of names of a run. It takes time of the devices, the nets, the library and the cards of chosen instances: names and
    /// numbers are looked up in tables.
    pub fn of(
        alloc: Global,
        flat: &'a Flat,
        library: &Library,
        lift: &Lifted,
        stem: &[u8],
    ) -> Result<Names<'a>, Memory>
        ensures flat { IfOk result (λ n. n.flat ≡ flat.now) }
        ensures map { IfOk result (λ n. (r : IsRunOf flat.now library.now lift.now) → n.map
            ≡ map_of stem.now flat.now (run_of flat.now library.now r.keep).source r.shown.history) }
    {
        composites_are_found();
        let mut found = gather_found(alloc, lift)?;
        found.reverse();
        let plans = plans_of(alloc, flat.rails(), library.deck().subs().as_slice())?;
        let names = renames_of(alloc, stem, &plans, &found)?;
        Ok(Names {
            flat,
            devices: names.devices,
            nets: names.nets,
        })
    }

    /// A new name has more than 1,024 bytes.
    pub fn has_long_name(&self) -> bool
        ensures long { result
            ≡ has_longer NAME (new_names self.now.map.devices ++ new_names self.now.map.nets) }
    {
        has_long_device(&self.devices, self.flat.devices())
            || has_long_net(&self.nets, self.flat.nets().items())
    }

    /// The text of the flat deck under the new names is longer than a file may be. All but the lines of its devices is built and
    /// thrown away, and these are counted.
    pub fn has_long_flat(&self, alloc: Global) -> Result<bool, Memory>
        ensures long { IfOk result
            (λ long. long ≡ nat_lt FILE (new_length self.now.map self.now.flat)) }
    {
        let frame = frame_length(alloc, self.flat)?;
        let nets = NewNets {
            table: &self.nets,
            olds: self.flat.nets().items(),
        };
        Ok(add_devices(frame, &nets, &self.devices, self.flat.devices()) > FILE_LENGTH)
    }

    /// The map's text, or that it is longer than a file may be; then nothing much longer was built.
    pub fn text(&self, alloc: Global) -> Result<Vec<u8>, WriteFault>
        ensures text { IfOk result (λ text. text.items ≡ maps.map_text self.now.map) }
        ensures short { IfOk result (λ text. length text.items ≤ FILE) }
        ensures fault { IfErr result (λ fault. Tells fault (maps.map_text self.now.map)) }
    {
        map_text(
            alloc,
            &self.devices,
            self.flat.devices(),
            &self.nets,
            self.flat.nets().items(),
        )
    }
}
