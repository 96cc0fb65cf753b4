//! The trait that says what a lock asks of its value.
ghost use Rattle.std.specs.Prelude.{List};

/// A value with something that stays the same while it belongs to a lock, its root, and a list that
/// only grows.
pub trait Standing {
    type Root;

    type Item;

    // What stays the same.
    ghost root: { Self → Self.Root };

    // The list that grows.
    ghost list: { Self → List Self.Item };
}
