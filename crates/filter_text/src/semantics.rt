//! The type of the semantics of a network: by subscriptions alone, or by advertisements too.

/// Whether subscriptions alone steer notifications, or advertisements too.
#[derive(Clone, Copy, Debug, PartialEq, Eq)]
pub enum Semantics {
    /// Subscriptions alone.
    Subscription,
    /// Subscriptions and advertisements.
    Advertisement,
}
