// Why there is no answer.
ghost use Rattle.std.specs.Prelude.{◌≡◌};

use std::alloc::AllocError;

/// Why there is no answer. A file that is too long has one, so this isn't `ReadFail`.
#[derive(Clone, Copy)]
pub enum Stop {
    /// A file could not be read.
    ReadFault,
    /// There was no memory.
    Memory,
}

impl From<AllocError> for Stop {
    ghost use Rattle.commands.specs.declared.stop.Stop.{Stop};

    ghost from_gives = { λ _ s. s ≡ Stop.Memory };

    fn from(_: AllocError) -> Stop {
        Stop::Memory
    }
}
