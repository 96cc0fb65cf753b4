//! The type of the items of a pool that won't change any more, by their numbers.
use crate::pool::Pool;
use base::Cover;
use std::marker::Model;

/// The items of a pool in their canonical order, each once. An item's place is its number. Contracts see the list.
pub struct Items<T: Cover> {
    pool: Pool<T>,
}

impl<T: Cover + Drop> Drop for Items<T> {
    fn drop(self) {
        let Self { pool: _ } = self;
    }
}

impl<T: Cover> Model for Items<T> {
    ghost use Rattle.std.specs.Prelude.{List};
    ghost use Rattle.std.specs.Coded.{coded_list};

    ghost Value = { List T };

    ghost coded = { coded_list T.code };

    ghost view = { λ i. i.pool.items };
}

impl<T: Cover> Items<T> {
    ghost use Rattle.std.specs.Prelude.{◌≡◌, ◌<◌, length, slice_get, Some};
    ghost use Rattle.base.specs.Sets.{IsRising};

    /// The items of a pool by their numbers. The pool keeps its holders.
    pub fn of(pool: Pool<T>) -> Self
        ensures { result ≡ pool.items }
    {
        Items { pool }
    }

    /// Does nothing; its contract says what each list of items keeps: it rises.
    pub fn lemma_rising(&self)
        ensures { IsRising T.order self.now }
    {
        self.pool.lemma_plain();
    }

    /// How many items there are.
    pub fn len(&self) -> usize
        ensures { result ≡ length self.now }
    {
        self.pool.live()
    }

    /// The item with a number.
    pub fn at(&self, number: usize) -> &T
        requires { number < length self.now }
        ensures { slice_get self.now number ≡ Some result.now }
    {
        self.pool.nth(number)
    }
}
