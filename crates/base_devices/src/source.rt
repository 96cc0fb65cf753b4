//! The trait of sources, from which bytes are read.
ghost use Rattle.std.specs.Prelude.{ℕ, Bool, List};
ghost use Rattle.std.specs.declared.option.Option.{Option};
ghost use Rattle.std.specs.Io.{ReadsAtMost};
ghost use Rattle.std.specs.Io.KnownBytes.{ReadConsumes};
ghost use Rattle.base_devices.specs.Cause.{HasCause};
ghost use Rattle.base_devices.specs.Told.{Adds, Ends};

/// The outside failed, and counted it.
#[derive(Clone, Copy, Debug, PartialEq, Eq)]
pub struct Failed;

/// A device that gives bytes.
pub trait Source {
    /// The bytes that it gave so far.
    ghost given: { Self → List ℕ };

    /// Whether it stood at its end: the last read answered 0 into a buffer with room.
    ghost ended: { Self → Bool };

    /// The bytes that are left, where the source knows them.
    ghost left: { Self → Option (List ℕ) };

    /// How often the source has failed.
    ghost faults: { Self → ℕ };

    /// Moves the next bytes into the buffer and says how many. In a buffer with room, none come only at the end.
    fn read(&mut self, into: &mut [u8]) -> Result<usize, Failed>
        ensures bound { ReadsAtMost result into.new }
        ensures given { Adds (given self.old) (given self.new) result into.new }
        ensures end { Ends (ended self.new) result into.new }
        ensures left { ReadConsumes (left self.old) (left self.new) result into.new }
        ensures cause { HasCause (faults self.old) (faults self.new) result };
}
