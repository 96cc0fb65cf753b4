//! The trait of the two kinds of networks: those that keep the entries of their journal, and those that don't.
ghost use Rattle.std.specs.Prelude.{◌≡◌, Bool};

/// Whether the entries of a journal are kept, so that they can be shown, or pass.
pub trait Keeping {
    ghost keeps: { Bool };

    /// Whether they are kept.
    fn keeps() -> bool
        ensures { result ≡ keeps };
}

/// The entries are kept.
pub struct Kept;

/// The entries pass: they exist in proofs alone.
pub struct Passed;

impl Keeping for Kept {
    ghost use Rattle.std.specs.Prelude.{true};

    ghost keeps = { true };

    fn keeps() -> bool {
        true
    }
}

impl Keeping for Passed {
    ghost use Rattle.std.specs.Prelude.{false};

    ghost keeps = { false };

    fn keeps() -> bool {
        false
    }
}
