//! What contracts see of a pass: what it knows of its lock.
use std::collections::LinkedList;

/// What a pass knows of its lock. No value of it is made: it is said in proofs alone.
pub struct View<I, R> {
    /// The pass's number, from 0.
    pub number: u64,
    /// The root of the value, `None` for a pass that was joined.
    pub root: Option<R>,
    /// The list of the value, as far as the pass has seen it.
    pub seen: LinkedList<I>,
    /// What the passes that were joined into this one had seen.
    pub joined: LinkedList<LinkedList<I>>,
    /// Its parts of the right to end the lock: one a pass, and 0 after it was joined.
    pub parts: u64,
    /// Whether the pass has the value in hand.
    pub hand: bool,
    /// Whether the slot is out with the pass's seat, which it is within a call alone.
    pub out: bool,
    /// How often the pass found the value in another's hand.
    pub misses: u64,
}
