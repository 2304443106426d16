use crate::{CallCard, DevCard, Head, ModelCard};
use gl_line::Name;

/// A card: what one logical line says.
#[derive(Debug, Drop)]
pub enum Card {
    /// A device.
    Dev(DevCard),
    /// A call of a subcircuit.
    Call(CallCard),
    /// A model.
    Model(ModelCard),
    /// The head of a subcircuit.
    Subckt(Head),
    /// The end of a subcircuit, with its name if one is given.
    Ends(Option<Name>),
    /// Names of global nets, in order, `0` and repeated ones too.
    Global(Vec<Name>),
    /// The end of the deck.
    End,
    /// Another dot card: its text without the blanks at its end.
    Passed(Vec<u8>),
}
