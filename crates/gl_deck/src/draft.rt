ghost use Rattle.std.specs.Prelude.{◌≡◌, ◌<◌, ◌^◌, length, map, OnOk, IfOk};
ghost use Rattle.gl_text.specs.Decks.{dev_at};
ghost use Rattle.gl_card.specs.Reading.{card_value};
ghost use Rattle.gl_deck.specs.Bodies.{bodies_value, body_value};
ghost use Rattle.gl_deck.specs.Cards.{IsCountable};
ghost use Rattle.gl_deck.specs.Drafts.{empty_draft, with_body_here, with_call_here, with_model, opened, closed, with_globals, with_passed, draft_after, scope_of, site_of};

use crate::globals::add_names;
use crate::site::Site;
use crate::{Body, CallCard, Card, DevCard, Head, Memory, ModelCard, Name, Sub, Subs};
use indexmap::{IndexMap, IndexSet};
use std::alloc::Global;
use std::marker::Model;

/// What stands of a deck behind some of its cards.
#[derive(Drop)]
pub struct Draft {
    /// The subcircuit that is not closed yet, with its cards so far.
    pub current: Option<Sub>,
    /// Names of devices and X cards of the top, with their lines.
    pub top_names: IndexMap<Name, u32>,
    /// Names of devices and X cards of the open subcircuit, with their lines.
    pub inner_names: IndexMap<Name, u32>,
    /// Names of models, with their lines.
    pub model_names: IndexMap<Name, u32>,
    /// Names of global nets, each once, `0` too.
    pub globals: IndexSet<Name>,
    /// The models.
    pub models: Vec<ModelCard>,
    /// The closed subcircuits.
    pub subs: Subs,
    /// The devices and X cards of the top.
    pub top: Vec<Body>,
    /// The texts of passed cards.
    pub passed: Vec<Vec<u8>>,
    /// The X cards.
    pub sites: Vec<Site>,
}

impl Model for Draft {
    ghost use Rattle.std.specs.Prelude.{map};
    ghost use Rattle.gl_deck.specs.Bodies.{bodies_value, table_of};
    ghost use Rattle.gl_deck.specs.Cards.{AreSubs};
    ghost use Rattle.gl_deck.specs.Drafts.{Draft as DraftValue};

    ghost Value = { DraftValue };

    ghost view = { λ d. record { current = d.current; top_names = d.top_names.entries; inner_names = d.inner_names.entries; model_names = d.model_names.entries; globals = d.globals.keys; models = d.models.items; subs = table_of d.subs; top = bodies_value d.top.items; passed = map (λ t. t.items) d.passed.items; sites = d.sites.items } };

    ghost invariant = { λ d. AreSubs d.subs d.current };
}

impl Draft {
    /// The draft of no cards.
    pub fn new(alloc: Global) -> Draft
        ensures empty { result ≡ empty_draft }
    {
        Draft {
            current: None,
            top_names: IndexMap::new(alloc),
            inner_names: IndexMap::new(alloc),
            model_names: IndexMap::new(alloc),
            globals: IndexSet::new(alloc),
            models: Vec::new(alloc),
            subs: Subs::new(alloc),
            top: Vec::new(alloc),
            passed: Vec::new(alloc),
            sites: Vec::new(alloc),
        }
    }

    /// Adds a device or X card with its name, in the open subcircuit or at the top.
    fn add_body(&mut self, name: Name, line: u32, card: Body) -> Result<(), Memory>
        ensures added { OnOk result
            (self.new ≡ with_body_here self.old name line (body_value card)) }
    {
        match &mut self.current {
            None => {
                self.top_names.insert(name, line)?;
                self.top.push(card)?;
            }
            Some(sub) => {
                self.inner_names.insert(name, line)?;
                sub.cards.push(card)?;
            }
        }
        Ok(())
    }

    /// Adds a model.
    fn add_model(&mut self, alloc: Global, line: u32, card: ModelCard) -> Result<(), Memory>
        ensures added { OnOk result (self.new ≡ with_model self.old line card) }
    {
        let name = Name::of(alloc, card.name().as_bytes())?;
        self.model_names.insert(name, line)?;
        self.models.push(card)?;
        Ok(())
    }

    /// Opens a subcircuit.
    fn open(&mut self, alloc: Global, line: u32, head: Head)
        requires few { length head.ports < 2 ^ 32 }
        ensures opened { self.new ≡ opened self.old line head }
    {
        self.current = Some(Sub {
            line,
            head,
            cards: Vec::new(alloc),
        });
        self.inner_names = IndexMap::new(alloc);
    }

    /// Closes the open subcircuit.
    fn close(&mut self, alloc: Global) -> Result<(), Memory>
        ensures closed { OnOk result (self.new ≡ closed self.old.current self.old) }
    {
        if let Some(sub) = self.current.take() {
            self.subs.insert(alloc, sub)?;
        }
        Ok(())
    }

    /// Adds a device.
    fn add_device(&mut self, alloc: Global, line: u32, card: DevCard) -> Result<(), Memory>
        ensures added { OnOk result
            (self.new ≡ with_body_here self.old card.name line (dev_at line card)) }
    {
        let name = Name::of(alloc, card.name().as_bytes())?;
        self.add_body(name, line, Body::Dev(line, card))
    }

    /// The line and the name of the open subcircuit; line 0 at the top.
    fn open_scope(&self, alloc: Global) -> Result<(u32, Name), Memory>
        ensures scope { IfOk result
            (λ s. (record { line = s.0; name = s.1 }) ≡ scope_of self.now.current) }
    {
        match &self.current {
            None => Ok((0, Name::of(alloc, b"")?)),
            Some(sub) => Ok((sub.line(), Name::of(alloc, sub.head().name().as_bytes())?)),
        }
    }

    /// An X card of this place as far as its call goes.
    fn site(&self, alloc: Global, line: u32, card: &CallCard) -> Result<Site, Memory>
        requires few { length card.now.nodes < 2 ^ 32 }
        ensures site { IfOk result (λ s. s ≡ site_of self.now.current line card.now) }
    {
        let (scope_line, scope_name) = self.open_scope(alloc)?;
        Ok(Site {
            line,
            scope_line,
            scope_name,
            sub: Name::of(alloc, card.sub().as_bytes())?,
            nodes: card.nodes().len() as u32,
        })
    }

    /// Adds an X card.
    fn add_call(&mut self, alloc: Global, line: u32, card: CallCard) -> Result<(), Memory>
        requires few { length card.nodes < 2 ^ 32 }
        ensures added { OnOk result (self.new ≡ with_call_here self.old line card) }
    {
        let site = self.site(alloc, line, &card)?;
        let name = Name::of(alloc, card.name().as_bytes())?;
        self.add_body(name, line, Body::Call(line, card))?;
        self.sites.push(site)?;
        Ok(())
    }

    /// Adds global nets.
    fn add_globals(&mut self, names: Vec<Name>) -> Result<(), Memory>
        ensures added { OnOk result (self.new ≡ with_globals self.old names.items) }
    {
        add_names(&mut self.globals, names)
    }

    /// Adds a passed card.
    fn add_passed(&mut self, text: Vec<u8>) -> Result<(), Memory>
        ensures added { OnOk result (self.new ≡ with_passed self.old text.items) }
    {
        self.passed.push(text)?;
        Ok(())
    }

    /// Adds the card of a line that is not refused.
    pub fn add(&mut self, alloc: Global, line: u32, card: Card) -> Result<(), Memory>
        requires few { IsCountable (card_value card) }
        ensures added { OnOk result (self.new ≡ draft_after self.old line (card_value card)) }
    {
        match card {
            Card::Dev(card) => self.add_device(alloc, line, card),
            Card::Call(card) => self.add_call(alloc, line, card),
            Card::Model(card) => self.add_model(alloc, line, card),
            Card::Subckt(head) => {
                self.open(alloc, line, head);
                Ok(())
            }
            Card::Ends(_) => self.close(alloc),
            Card::Global(names) => self.add_globals(names),
            Card::End => Ok(()),
            Card::Passed(text) => self.add_passed(text),
        }
    }
}
