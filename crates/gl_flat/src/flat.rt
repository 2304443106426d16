ghost use Rattle.std.specs.Prelude.{◌≡◌, map};
ghost use Rattle.std.specs.Option.{option_copied};
ghost use Rattle.gl_text.specs.Cards.{first_byte};
ghost use Rattle.gl_text.specs.Flattening.{device_name};
ghost use Rattle.gl_card.specs.Letters.{byte_of};
ghost use Rattle.gl_base.specs.BaseCircuit.{nets_of};
ghost use Rattle.gl_base.specs.Rounds.{cards_of};
ghost use Rattle.gl_flat.specs.Kept.{KeptDevice as Kept, kept_of};

use crate::names::Names;
use crate::{Head, Letter, ModelCard, Name, Tail};
use std::marker::Model;

/// A device of a flat deck as it is kept. Contracts see it as its flat name, the numbers of its nets, model and tail; the
/// letter is the name's first byte.
#[derive(Debug, Drop)]
pub struct KeptDevice {
    pub(crate) name: Name,
    pub(crate) letter: Letter,
    pub(crate) nets: Vec<u32>,
    pub(crate) model: Option<Name>,
    pub(crate) tail: Tail,
}

impl Model for KeptDevice {
    ghost use Rattle.std.specs.Prelude.{◌≡◌};
    ghost use Rattle.gl_text.specs.Cards.{first_byte};
    ghost use Rattle.gl_card.specs.Letters.{byte_of};
    ghost use Rattle.gl_flat.specs.Kept.{KeptDevice as Kept};

    ghost Value = { Kept };

    ghost view = { λ d. record { name = d.name; nets = d.nets.items; model = d.model; tail = d.tail } };

    ghost invariant = { λ d. first_byte d.name ≡ byte_of d.letter };
}

impl KeptDevice {
    /// Its flat name.
    pub fn name(&self) -> &Name
        ensures name { result.now ≡ self.now.name }
    {
        &self.name
    }

    /// The letter of its card.
    pub fn letter(&self) -> Letter
        ensures letter { byte_of result ≡ first_byte self.now.name }
    {
        self.letter
    }

    /// Its nets, place by place, by their numbers.
    pub fn nets(&self) -> &[u32]
        ensures nets { result.now ≡ self.now.nets }
    {
        &self.nets
    }

    /// Its model's name.
    pub fn model(&self) -> Option<&Name>
        ensures model { option_copied result ≡ self.now.model }
    {
        self.model.as_ref()
    }

    /// What follows the fields.
    pub fn tail(&self) -> &Tail
        ensures tail { result.now ≡ self.now.tail }
    {
        &self.tail
    }
}

/// A flat deck. Contracts see each device at the top, under its flat name and with the flat names of its nets.
#[derive(Debug, Drop)]
pub struct Flat {
    pub(crate) title: Vec<u8>,
    pub(crate) rails: Vec<Name>,
    pub(crate) models: Vec<ModelCard>,
    pub(crate) top: Option<Head>,
    pub(crate) nets: Names,
    pub(crate) devices: Vec<KeptDevice>,
    pub(crate) passed: Vec<Vec<u8>>,
}

impl Model for Flat {
    ghost use Rattle.std.specs.Prelude.{map};
    ghost use Rattle.gl_text.specs.Flattening.{Flat as FlatValue};
    ghost use Rattle.gl_flat.specs.Kept.{AreKept, kept_devices};

    ghost Value = { FlatValue };

    ghost view = { λ f. record {
      title = f.title.items;
      rails = f.rails.items;
      models = f.models.items;
      top = f.top;
      devices = kept_devices f.nets f.devices.items;
      passed = map (λ t. t.items) f.passed.items;
    } };

    ghost invariant = { λ f. AreKept f.nets f.devices.items };
}

impl Flat {
    /// The title.
    pub fn title(&self) -> &[u8]
        ensures title { result.now ≡ self.now.title }
    {
        &self.title
    }

    /// The rails but `0`.
    pub fn rails(&self) -> &[Name]
        ensures rails { result.now ≡ self.now.rails }
    {
        &self.rails
    }

    /// The models.
    pub fn models(&self) -> &[ModelCard]
        ensures models { result.now ≡ self.now.models }
    {
        &self.models
    }

    /// The head of the subcircuit that is the top.
    pub fn top(&self) -> Option<&Head>
        ensures top { option_copied result ≡ self.now.top }
    {
        self.top.as_ref()
    }

    /// The flat names of the devices' nets, each once in order of first appearance. A net's number is its place there.
    pub fn nets(&self) -> &Names
        ensures nets { result.now ≡ nets_of (cards_of self.now) }
    {
        &self.nets
    }

    /// The devices, in flat order, each net by its number.
    pub fn devices(&self) -> &[KeptDevice]
        ensures devices { result.now ≡ kept_of (cards_of self.now) }
        ensures names { map (λ (d : Kept). d.name) result.now
            ≡ map device_name self.now.devices }
    {
        &self.devices
    }

    /// The texts of passed cards.
    pub fn passed(&self) -> &[Vec<u8>]
        ensures passed { map (λ t. t.items) result.now ≡ self.now.passed }
    {
        &self.passed
    }
}
