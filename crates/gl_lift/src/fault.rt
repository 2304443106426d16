ghost use Rattle.std.specs.Prelude.{◌≡◌};
ghost use Rattle.gl_lift.specs.declared.fault.LimitFault.TheVariants as limits;
ghost use Rattle.gl_lift.specs.declared.fault.LiftFault.TheVariants as faults;
ghost use Rattle.gl_lift.specs.Refusals.{of_limit_fault};

use gl_flat::FlatFault;
use gl_lib::KeepFault;
use gl_limit::OutLimit;
use gl_match::Memory;
use std::alloc::AllocError;
use thiserror::Error;

/// Why rounds have no texts.
#[derive(Debug, Drop, Error)]
pub enum LimitFault {
    /// The first limit that the texts pass.
    #[error("a limit of what is written is passed")]
    Passed(OutLimit),
    /// There was no memory.
    #[error("no memory")]
    Memory,
}

impl From<Memory> for LimitFault {
    ghost from_gives = { λ _ e. e ≡ limits.Memory };

    fn from(_: Memory) -> Self {
        LimitFault::Memory
    }
}

impl From<AllocError> for LimitFault {
    ghost from_gives = { λ _ e. e ≡ limits.Memory };

    fn from(_: AllocError) -> Self {
        LimitFault::Memory
    }
}

/// Why nothing is written of a deck and a library that were read.
#[derive(Debug, Drop, Error)]
pub enum LiftFault {
    /// The deck has no flat deck.
    #[error("the deck is not flattened")]
    Flat(FlatFault),
    /// A kept name is no net of a device of the flat deck.
    #[error("a name is not kept")]
    Keep(KeepFault),
    /// The first limit that what is to be written passes.
    #[error("a limit of what is written is passed")]
    Limit(OutLimit),
    /// There was no memory.
    #[error("no memory")]
    Memory,
}

impl From<FlatFault> for LiftFault {
    ghost from_gives = { λ f e. e ≡ faults.Flat f };

    fn from(fault: FlatFault) -> Self {
        LiftFault::Flat(fault)
    }
}

impl From<KeepFault> for LiftFault {
    ghost from_gives = { λ f e. e ≡ faults.Keep f };

    fn from(fault: KeepFault) -> Self {
        LiftFault::Keep(fault)
    }
}

impl From<LimitFault> for LiftFault {
    ghost from_gives = { λ f e. e ≡ of_limit_fault f };

    fn from(fault: LimitFault) -> Self {
        match fault {
            LimitFault::Passed(limit) => LiftFault::Limit(limit),
            LimitFault::Memory => LiftFault::Memory,
        }
    }
}
