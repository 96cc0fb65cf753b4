//! The rule of the mark: how many items were pushed into the ring.
//!
//! The outcomes named here are part of the statement. A clause that speaks of a lane's misses, or of
//! the number on the mark, means what these outcomes say: `Look` alone raises `misses`, and only where
//! the mark shows just as many items as this end has had from the ring. So wrong bodies are tried
//! against this file as it stands.
use atomic_table::{Play, Seat, Split, Table, TableRule};
use rtrb::Protocol;
use std::alloc::Global;

/// What an end knows of the mark. No value of it is made: it is said in proofs alone.
pub struct View {
    /// Whether this is the end that puts.
    pub puts: bool,
    /// The number on the mark, as this end saw or left it last.
    pub count: u64,
    /// How often the mark showed this end that it had everything.
    pub misses: u64,
}

/// The rule: the word is the putting end's number, and at least what it showed to the other.
pub struct Marks;

impl TableRule<(), View, ()> for Marks {
    ghost use Rattle.thread_lane.specs.Mark.{Marked, putter};

    ghost holds = { λ _. Marked };

    ghost first = { λ _. putter 0 };
}

/// The putting end raises the mark after pushes.
pub struct Raise;

impl Play<(), View> for Raise {
    ghost use Rattle.thread_lane.specs.Mark.{Raised};

    ghost then = { λ step before _ after. Raised step.first before after };
}

/// The taking end looks at the mark, with the number of items that it has had.
pub struct Look;

impl Play<(), View> for Look {
    ghost use Rattle.thread_lane.specs.Mark.{Looked};

    ghost then = { λ step. Looked step.first };
}

/// The taking end's seat is split off at the making.
pub struct Ends;

impl Split<View> for Ends {
    ghost use Rattle.thread_lane.specs.Mark.{taker};

    ghost left = { λ v. v };

    ghost right = { λ _. taker 0 0 };
}

/// Fewer than 2^63 items go through a lane.
pub struct Bounded;

impl<T> Protocol<T> for Bounded {
    ghost use Rattle.std.specs.Prelude.{◌^◌, ◌<◌, length};

    ghost allows = { λ before _. length before < 2 ^ 63 };
}

pub type Mark = Table<(), View, (), Marks, Global>;

pub type MarkSeat = Seat<(), View>;
