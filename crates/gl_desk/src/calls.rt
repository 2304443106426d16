use std::alloc::{AllocError, Global};

/// A kind of call of a desk.
#[derive(Clone, Copy, Debug, PartialEq, Eq)]
pub enum CallKind {
    /// The calls of `open`.
    Open,
    /// The calls of `take`.
    Take,
    /// The calls of `give`.
    Give,
}

/// The calls of one kind: how many were made, and the numbers, from 1, of those that are to fail.
#[derive(Drop)]
pub(crate) struct Calls {
    made: u32,
    listed: Vec<u32>,
}

impl Calls {
    ghost use Rattle.std.specs.Prelude.{◌≡◌, [], ◌∷◌, ◌++◌, ◌↔◌, IsTrue, OnOk, OnErr};
    ghost use Rattle.gl_desk.specs.Calls.{IsDue, next_number};

    /// No call was made, and none is to fail.
    pub(crate) fn new(alloc: Global) -> Calls
        ensures none { result.listed.items ≡ [] }
        ensures made { result.made ≡ 0 }
    {
        Calls {
            made: 0,
            listed: Vec::new(alloc),
        }
    }

    /// Adds a call that is to fail.
    pub(crate) fn list(&mut self, number: u32) -> Result<(), AllocError>
        ensures ok { OnOk result (self.new.listed.items ≡ self.old.listed.items ++ number ∷ []) }
        ensures err { OnErr result (self.new.listed.items ≡ self.old.listed.items) }
        ensures made { self.new.made ≡ self.old.made }
    {
        self.listed.push(number)?;
        Ok(())
    }

    /// Counts a call, and says whether it is to fail.
    pub(crate) fn count(&mut self) -> bool
        ensures due { IsTrue result ↔ IsDue self.old }
        ensures counted { self.new.made ≡ next_number self.old }
        ensures unchanged { self.new.listed.items ≡ self.old.listed.items }
    {
        self.made = self.made.saturating_add(1);
        self.listed.contains(&self.made)
    }
}
