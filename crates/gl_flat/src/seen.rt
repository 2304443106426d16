ghost use Rattle.std.specs.Prelude.{◌≡◌, ◌∷◌, ◌<◌, ◌^◌, [], Ok, length, map, OnOk, IfOk, IfErr};
ghost use Rattle.gl_text.specs.Decks.{once};
ghost use Rattle.gl_text.specs.Flattening.{bearers, device, net, net_name};
ghost use Rattle.gl_flat.specs.Refusals.{IsFaultOf};
ghost use Rattle.gl_flat.specs.SeenNames.{bearers_of, own, net_names, nothing_seen, number_in, seen_risks, seen_one, takes_top_name, top_bearers, with_device};
ghost use Rattle.gl_flat.specs.TopNames.{top_names};

use crate::copy::name_copy;
use crate::device::FlatDevice;
use crate::dot::holds_dot;
use crate::names::Names;
use crate::naming::{device_text, flat_name};
use crate::net::Net;
use crate::same::is_same_net;
use crate::scene::{Scene, is_top};
use crate::{FlatFault, Name};
use indexmap::{IndexMap, IndexSet};
use std::alloc::{AllocError, Global};
use std::marker::Model;

/// Flat names that were seen behind the nets of the top. Contracts see the names of the top, of devices, and of the devices'
/// nets, each with the net that has it.
#[derive(Drop)]
pub struct Seen<'a> {
    /// What cards are read against, and so the nets of the top.
    pub scene: Scene<'a>,
    /// The names of devices.
    pub devices: IndexSet<Name>,
    /// The flat names of the devices' nets, each with its net.
    pub nets: IndexMap<Name, Net<'a>>,
}

impl<'a> Model for Seen<'a> {
    ghost use Rattle.gl_flat.specs.SeenNames.{bearers_of, own, Seen as SeenValue};
    ghost use Rattle.gl_flat.specs.TopNames.{top_names};

    ghost Value = { SeenValue };

    ghost view = { λ s. record { tops = top_names s.scene; devices = s.devices.keys; nets = s.nets.entries } };
}

/// A copy of a net.
fn copy_of<'a>(alloc: Global, net: &Net<'a>) -> Result<Net<'a>, AllocError>
    ensures copy { IfOk result (λ copy. copy ≡ net.now) }
{
    Ok(Net {
        path: Vec::from_slice(alloc, &net.path)?,
        name: net.name,
    })
}

/// The names in a table, in order.
fn keys_of(alloc: Global, nets: IndexMap<Name, Net<'_>>) -> Result<Vec<Name>, AllocError>
    ensures keys { IfOk result (λ names. names.items ≡ map (λ e. e.0) nets.entry.entries) }
{
    nets.into_keys().collect(alloc)
}

/// Names, each once.
fn set_of(alloc: Global, names: Vec<Name>) -> Result<IndexSet<Name>, AllocError>
    ensures keys { IfOk result (λ set. set.keys ≡ once names.items) }
{
    IndexSet::from_iter(alloc, names)
}

impl<'a> Seen<'a> {
    /// Nets of the top alone were seen.
    pub fn of_scene(alloc: Global, scene: &Scene<'a>) -> Seen<'a>
        ensures nothing { result ≡ nothing_seen (top_names scene.now) }
    {
        Seen {
            scene: *scene,
            devices: IndexSet::new(alloc),
            nets: IndexMap::new(alloc),
        }
    }

    /// Adds a device's name that holds a dot, or refuses one that was seen.
    fn add_dotted(&mut self, alloc: Global, name: &Name) -> Result<(), FlatFault>
        ensures ok { OnOk result (with_device self.old name.now ≡ Ok self.new) }
        ensures refused { IfErr result (IsFaultOf (with_device self.old name.now)) }
    {
        if self.devices.insert(name_copy(alloc, name)?)? {
            return Ok(());
        }
        Err(FlatFault::NameClash {
            name: name_copy(alloc, name)?,
        })
    }

    /// Adds a device's name, or refuses one that was seen. A name without a dot is neither looked up nor kept.
    pub fn add_device(&mut self, alloc: Global, name: &Name) -> Result<(), FlatFault>
        ensures ok { OnOk result (seen_one self.old (device name.now) ≡ Ok self.new) }
        ensures refused { IfErr result (IsFaultOf (seen_one self.old (device name.now))) }
    {
        if holds_dot(name.as_bytes()) {
            return self.add_dotted(alloc, name);
        }
        Ok(())
    }

    /// The net is none of the top, and its flat name is that of one.
    fn has_top_name(&self, added: &Net<'a>, name: &Name) -> bool
        requires name { name.now ≡ net_name added.now }
        ensures takes { result ≡ takes_top_name self.now added.now }
    {
        !added.path.is_empty() && is_top(&self.scene, name)
    }

    /// Adds a net, or refuses one whose flat name another net has. Its number is given: nets are numbered from 0 by the first
    /// appearance of their flat names.
    pub fn add_net(&mut self, alloc: Global, added: &Net<'a>) -> Result<usize, FlatFault>
        ensures ok { OnOk result (seen_one self.old (net added.now) ≡ Ok self.new) }
        ensures number { IfOk result (λ number. number ≡ number_in self.new added.now) }
        ensures refused { IfErr result (IsFaultOf (seen_one self.old (net added.now))) }
    {
        let name = flat_name(alloc, added)?;
        if let Some((number, _, known)) = self.nets.get_full(name.as_name()) {
            if is_same_net(added, known) {
                return Ok(number);
            }
            return Err(FlatFault::NameClash {
                name: name.into_name(alloc)?,
            });
        }
        if self.has_top_name(added, name.as_name()) {
            return Err(FlatFault::NameClash {
                name: name.into_name(alloc)?,
            });
        }
        let number = self.nets.len();
        self.nets
            .insert(name.into_name(alloc)?, copy_of(alloc, added)?)?;
        Ok(number)
    }

    /// The flat names of the devices' nets, by their numbers.
    pub fn into_names(self, alloc: Global) -> Result<Names, AllocError>
        requires few { length (once (net_names self)) < 2 ^ 32 }
        ensures names { IfOk result (λ names. names ≡ once (net_names self.entry)) }
    {
        let keys = keys_of(alloc, self.nets)?;
        let set = set_of(alloc, keys)?;
        Ok(Names::of_set(set))
    }

    /// Adds a net whose flat name holds a dot, or refuses it; any other net is passed over.
    fn add_dotted_net(&mut self, alloc: Global, added: &Net<'a>) -> Result<(), FlatFault>
        ensures ok { OnOk result (seen_risks self.old (net added.now ∷ []) ≡ Ok self.new) }
        ensures refused { IfErr result (IsFaultOf (seen_risks self.old (net added.now ∷ []))) }
    {
        if added.holds_dot() {
            self.add_net(alloc, added)?;
        }
        Ok(())
    }

    /// Adds the nets of the top whose names hold a dot, or refuses the first whose flat name another net has.
    fn add_top_nets(&mut self, alloc: Global, names: &'a [Name]) -> Result<(), FlatFault>
        ensures ok { OnOk result (seen_risks self.old (top_bearers names.now) ≡ Ok self.new) }
        ensures refused { IfErr result (IsFaultOf (seen_risks self.old (top_bearers names.now))) }
    {
        for name in names {
            self.add_dotted_net(alloc, &Net::of_top(alloc, name))?;
        }
        Ok(())
    }

    /// Adds the nets whose flat names hold a dot, or refuses the first whose flat name another net has.
    fn add_nets(&mut self, alloc: Global, nets: &[Net<'a>]) -> Result<(), FlatFault>
        ensures ok { OnOk result (seen_risks self.old (map net nets.now) ≡ Ok self.new) }
        ensures refused { IfErr result (IsFaultOf (seen_risks self.old (map net nets.now))) }
    {
        for added in nets {
            self.add_dotted_net(alloc, added)?;
        }
        Ok(())
    }

    /// Adds a device's nets whose flat names hold a dot, or refuses the first whose flat name another net has.
    fn add_places(&mut self, alloc: Global, added: &FlatDevice<'a>) -> Result<(), FlatFault>
        ensures ok { OnOk result (seen_risks self.old (map net added.now.nets) ≡ Ok self.new) }
        ensures refused { IfErr result (IsFaultOf (seen_risks self.old (map net added.now.nets))) }
    {
        match &added.nets {
            None => self.add_top_nets(alloc, added.card.nodes()),
            Some(nets) => self.add_nets(alloc, nets),
        }
    }

    /// Adds a device's flat name, or refuses one that was seen. A name without a dot is not even written.
    fn add_own(&mut self, alloc: Global, added: &FlatDevice<'a>) -> Result<(), FlatFault>
        ensures ok { OnOk result (seen_one self.old (own added.now) ≡ Ok self.new) }
        ensures refused { IfErr result (IsFaultOf (seen_one self.old (own added.now))) }
    {
        if added.holds_dot() {
            return self.add_dotted(alloc, &device_text(alloc, added)?);
        }
        Ok(())
    }

    /// Adds what may clash of a device: its name and its nets. Or refuses the first that does.
    fn add_bearers(&mut self, alloc: Global, added: &FlatDevice<'a>) -> Result<(), FlatFault>
        ensures ok { OnOk result (seen_risks self.old (bearers added.now) ≡ Ok self.new) }
        ensures refused { IfErr result (IsFaultOf (seen_risks self.old (bearers added.now))) }
    {
        self.add_own(alloc, added)?;
        self.add_places(alloc, added)
    }

    /// Adds what may clash of devices, or refuses the first that does.
    pub fn add_all(&mut self, alloc: Global, devices: &[FlatDevice<'a>]) -> Result<(), FlatFault>
        ensures ok { OnOk result (seen_risks self.old (bearers_of devices.now) ≡ Ok self.new) }
        ensures refused { IfErr result (IsFaultOf (seen_risks self.old (bearers_of devices.now))) }
    {
        for added in devices {
            self.add_bearers(alloc, added)?;
        }
        Ok(())
    }
}
