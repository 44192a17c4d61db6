//! Why a node is not separated.

ghost use Rattle.std.specs.Prelude.{◌≡◌};
ghost use Rattle.split_scan.specs.declared.halt.Halt.TheVariants as halt;

use std::alloc::AllocError;

/// Why a node is not separated: then its hull is taken.
#[derive(Clone, Copy)]
pub enum Halt {
    /// A question stops, a number is beyond 2^40, there are too many parts, or they have no order.
    Stopped,
    NoMemory,
}

impl From<AllocError> for Halt {
    ghost from_gives = { λ _ s. s ≡ halt.NoMemory };

    fn from(_: AllocError) -> Halt {
        Halt::NoMemory
    }
}
