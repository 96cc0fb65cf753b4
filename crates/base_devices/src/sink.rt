//! The trait of sinks, to which bytes are written.
ghost use Rattle.std.specs.Prelude.{length, ◌<◌, IfOk};
ghost use Rattle.std.specs.Io.{WritesAtMost};
ghost use Rattle.std.specs.Io.KnownBytes.{WriteAppends};
ghost use Rattle.base_devices.specs.Cause.{HasCause};
ghost use Rattle.base_devices.specs.Told.{Adds};
ghost use Rattle.base_devices.specs.Sinks.{SinkParts};

use crate::Failed;

/// A device that takes bytes. A write that takes nothing of a non-empty piece counts as a fault.
pub trait Sink {
    /// The bytes that it took so far, those that it holds where it tells them, and how often it failed.
    ghost state: { Self → SinkParts };

    /// Takes bytes from the front and says how many: at least one, where there is one. It holds then what it held before, and
    /// behind it these.
    fn write(&mut self, from: &[u8]) -> Result<usize, Failed>
        ensures bound { WritesAtMost result from.now }
        ensures some { IfOk result (λ n. 0 < length from.now → 0 < n) }
        ensures taken { Adds (state self.old).taken (state self.new).taken result from.now }
        ensures contents { WriteAppends (state self.old).contents (state self.new).contents result from.now }
        ensures cause { HasCause (state self.old).faults (state self.new).faults result };
}
