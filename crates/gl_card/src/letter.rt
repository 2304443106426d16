/// The kind of a device card, by its first letter.
#[derive(Clone, Copy, Debug, PartialEq, Eq)]
pub enum Letter {
    /// A transistor: drain, gate, source and bulk.
    M,
    /// A diode.
    D,
    /// A resistor.
    R,
    /// A capacitor.
    C,
    /// An inductor.
    L,
    /// A voltage source.
    V,
    /// A current source.
    I,
}
