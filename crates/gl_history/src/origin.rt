use gl_match::DevId;

/// Where a device of a circuit comes from.
#[derive(Clone, Copy, Debug, PartialEq, Eq)]
pub enum Origin {
    /// It is the original device of this number, from 0 in flat order.
    Base(DevId),
    /// It stands for the chosen instance of this number, from 1 over the whole run.
    Made(u32),
}
