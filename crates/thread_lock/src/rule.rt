//! The rule of the lock, and what the pass that makes a step knows after it.
//!
//! The outcomes named here are part of the statement. A clause of `TurnLock` that speaks of a pass's
//! number, of what it has seen, of whether it has the value in hand or of its misses means what these
//! outcomes say: `Take` alone raises `misses`, and only where the exchange of a pass that has nothing
//! in hand finds the value gone, so that another pass has it in hand. So wrong bodies are tried
//! against this file as it stands.
use crate::standing::Standing;
use crate::view::View;
use atomic_table::{Join, Play, Split, TableRule};
use std::snapshot::Snapshot;

/// What a lock gets when it is made: its first value, and how many passes it has.
#[derive(Drop)]
pub struct Start<T> {
    pub value: Snapshot<T>,
    pub passes: u64,
}

/// The rule: the value lies in the slot, or one pass has it in hand, and what each pass has seen
/// begins its list.
pub struct Turns;

impl<T: Standing> TableRule<Option<T>, View<T::Item, T::Root>, Start<T>> for Turns {
    ghost use Rattle.thread_lock.specs.Rule.{Kept, opener};

    ghost holds = { λ key. Kept T.root T.list (T.root key.value.value) key.passes };

    ghost first = { λ key. opener (T.root key.value.value) (T.list key.value.value) key.passes };
}

/// The exchange of a try: it finds the value, or counts a miss. A pass that has the value in hand
/// makes none.
pub struct Take;

impl<T: Standing> Play<Option<T>, View<T::Item, T::Root>> for Take {
    ghost use Rattle.thread_lock.specs.Rule.{Taken};

    ghost then = { λ _. Taken T.root T.list };
}

/// The slot goes back empty, and the value stays in hand.
pub struct LayBack;

impl<T: Standing> Play<Option<T>, View<T::Item, T::Root>> for LayBack {
    ghost use Rattle.thread_lock.specs.Rule.{Laid};

    ghost then = { λ _ before _ after. Laid before after };
}

/// The empty slot is taken again.
pub struct PickUp;

impl<T: Standing> Play<Option<T>, View<T::Item, T::Root>> for PickUp {
    ghost use Rattle.thread_lock.specs.Rule.{Lifted};

    ghost then = { λ _ before _ after. Lifted before after };
}

/// The slot goes back with the value.
pub struct Put;

impl<T: Standing> Play<Option<T>, View<T::Item, T::Root>> for Put {
    ghost use Rattle.thread_lock.specs.Rule.{PutBack};

    ghost then = { λ _ before _ after. PutBack T.list before after };
}

/// A pass is split off at the making.
pub struct Branch;

impl<I, R> Split<View<I, R>> for Branch {
    ghost use Rattle.thread_lock.specs.Rule.{stays, branch};

    ghost left = { stays };

    ghost right = { branch };
}

/// A pass is joined at the close.
pub struct Unite;

impl<I, R> Join<View<I, R>> for Unite {
    ghost use Rattle.thread_lock.specs.Rule.{united, nobody};

    ghost both = { united };

    ghost spent = { nobody };
}
