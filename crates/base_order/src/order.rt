//! The type of items in their canonical order, with the rows by which roots are found.
ghost use Rattle.std.specs.Prelude.{◌≡◌, ◌↔◌, ℕ, ◌^◌, ◌<◌, List, [], ◌∷◌, length, nat_lt, true, false, IfOk};
ghost use Rattle.base_bits.specs.Rows.{is_in};
ghost use Rattle.base.specs.Sets.{Has, IsRising, is_root, roots, put_in, minus};
ghost use Rattle.base_order.specs.Order.{covers_at, root_at, root_numbers, IsChange, IsSettled, Moves, picked, covered_row, above_row};
ghost use Rattle.base_order.specs.Columns.{Narrows};

use crate::build;
use crate::put::{put_if, set_to};
use base::{Cover, NoMemory};
use base_bits::Row;
use base_pool::Items;
use std::alloc::Global;
use std::marker::Model;
use std::snapshot::Snapshot;

/// What each of some items in their canonical order covers, and what stands over it. Contracts see the list of the items,
/// which lie elsewhere: an order holds none of them.
pub struct Order<T: Cover> {
    items: Snapshot<Items<T>>,
    covered: Vec<Row>,
    above: Vec<Row>,
}

impl<T: Cover> Drop for Order<T> {
    fn drop(self) {
        let Self {
            items: _,
            covered: _,
            above: _,
        } = self;
    }
}

impl<T: Cover> Model for Order<T> {
    ghost use Rattle.std.specs.Prelude.{List};
    ghost use Rattle.std.specs.Coded.{coded_list};
    ghost use Rattle.base_order.specs.Order.{IsOrder};

    ghost Value = { List T };

    ghost coded = { coded_list T.code };

    ghost view = { λ o. o.items.value };

    ghost invariant = { λ o. IsOrder T.covering T.order o.items.value o.covered.items o.above.items };
}

impl<T: Cover> Order<T> {
    /// The order of these items.
    pub fn new(alloc: Global, items: &Items<T>) -> Result<Self, NoMemory>
        requires few { length items.now < 2 ^ 32 }
        ensures { IfOk result (λ order. order ≡ items.now) }
    {
        let words = build::no_words(alloc, items)?;
        Order::narrowed(alloc, items, words)
    }

    /// The same, with a word for each item beside its signature, which has bits that each item has that
    /// this one covers, or is 0 and decides nothing. The order is the same whatever the words; they spare
    /// comparisons of items whose signatures are alike.
    pub fn narrowed(alloc: Global, items: &Items<T>, words: Vec<u64>) -> Result<Self, NoMemory>
        requires few { length items.now < 2 ^ 32 }
        requires words { Narrows T.covering items.now words.items }
        ensures { IfOk result (λ order. order ≡ items.now) }
    {
        items.lemma_rising();
        let covered = build::covered_rows(alloc, items, words)?;
        let above = build::above_rows(alloc, items, &covered)?;
        Ok(Order {
            items: Snapshot::of(items),
            covered,
            above,
        })
    }

    /// How many items there are.
    pub fn count(&self) -> u32
        ensures { result ≡ length self.now }
    {
        self.covered.len() as u32
    }

    /// Does nothing; its contract says what each order keeps: its items rise.
    pub fn lemma_sorted(&self)
        ensures rising { IsRising T.order self.now }
        ensures few { length self.now < 2 ^ 32 }
    {
        let _ = &self.items;
    }

    /// The numbers of those that an item covers.
    pub fn covered_by(&self, i: u32) -> &Row
        requires { i < length self.now }
        ensures { result.now ≡ covered_row T.covering self.now i }
    {
        &self.covered[i as usize]
    }

    /// The numbers of those that stand over an item: each covers it, and is not covered back or
    /// comes before it.
    pub fn above(&self, i: u32) -> &Row
        requires { i < length self.now }
        ensures { result.now ≡ above_row T.covering self.now i }
    {
        &self.above[i as usize]
    }

    /// Does nothing; by its contract the roots by numbers are the roots of the items with
    /// these numbers.
    pub fn lemma_roots(&self)
        ensures { (ns : List ℕ) → IsRising nat_lt ns → ((i : ℕ) → Has i ns → i < length self.now)
            → picked self.now (root_numbers T.covering self.now ns) ≡ roots T.covering T.order (picked self.now ns) }
    {
        let _ = &self.items;
    }

    /// Whether nothing in a need stands over an item.
    fn is_free(&self, need: &Row, i: u32) -> bool
        requires need { need.now.width ≡ length self.now }
        requires there { i < length self.now }
        ensures { result ≡ is_root (covers_at T.covering self.now) nat_lt need.now.members i }
    {
        need.lemma_sorted();
        !self.above(i).meets(need)
    }

    /// Whether a number is a root of a need.
    fn is_root(&self, need: &Row, i: u32) -> bool
        requires need { need.now.width ≡ length self.now }
        requires there { i < length self.now }
        ensures { result ≡ root_at T.covering self.now need.now.members i }
    {
        need.has(i) && self.is_free(need, i)
    }

    /// Finds the roots of the items with these numbers.
    pub fn roots(&self, of: &Row, into: &mut Row)
        requires of { of.now.width ≡ length self.now }
        requires into { into.old.width ≡ length self.now }
        ensures width { into.new.width ≡ into.old.width }
        ensures members { into.new.members ≡ root_numbers T.covering self.now of.now.members }
    {
        of.lemma_sorted();
        into.clear();
        let mut at = 0;
        while let Some(i) = of.first_from(at) {
            let is_root = self.is_free(of, i);
            put_if(into, i, is_root);
            at = i + 1;
        }
    }

    /// Settles one number: it is a root of the need or none, and is listed where that is new.
    fn settle(&self, need: &Row, i: u32, roots: &mut Row, withdrawn: &mut Row, added: &mut Row)
        requires there { i < length self.now }
        requires need { need.now.width ≡ length self.now }
        requires roots { roots.old.width ≡ length self.now }
        requires withdrawn { withdrawn.old.width ≡ length self.now }
        requires added { added.old.width ≡ length self.now }
        ensures width { roots.new.width ≡ length self.now }
        ensures withdrawn_width { withdrawn.new.width ≡ length self.now }
        ensures added_width { added.new.width ≡ length self.now }
        ensures own { is_in i roots.new.members ≡ root_at T.covering self.now need.now.members i }
        ensures moves { Moves (root_at T.covering self.now need.now.members) roots.old.members withdrawn.old.members added.old.members
            roots.new.members withdrawn.new.members added.new.members }
    {
        let is_root = self.is_root(need, i);
        let was = set_to(roots, i, is_root);
        put_if(withdrawn, i, was & !is_root);
        put_if(added, i, is_root & !was);
    }

    /// Settles a number that is no root yet.
    fn settle_other(
        &self,
        need: &Row,
        c: u32,
        roots: &mut Row,
        withdrawn: &mut Row,
        added: &mut Row,
    )
        requires there { c < length self.now }
        requires need { need.now.width ≡ length self.now }
        requires roots { roots.old.width ≡ length self.now }
        requires withdrawn { withdrawn.old.width ≡ length self.now }
        requires added { added.old.width ≡ length self.now }
        ensures width { roots.new.width ≡ length self.now }
        ensures withdrawn_width { withdrawn.new.width ≡ length self.now }
        ensures added_width { added.new.width ≡ length self.now }
        ensures own { root_at T.covering self.now need.now.members c ≡ true → is_in c roots.new.members ≡ true }
        ensures moves { Moves (root_at T.covering self.now need.now.members) roots.old.members withdrawn.old.members added.old.members
            roots.new.members withdrawn.new.members added.new.members }
    {
        if roots.has(c) {
            return;
        }
        self.settle(need, c, roots, withdrawn, added);
    }

    /// Where a root was lost, finds the new roots among what it covers.
    fn settle_lost(&self, need: &Row, c: u32, roots: &mut Row, withdrawn: &mut Row, added: &mut Row)
        requires there { c < length self.now }
        requires need { need.now.width ≡ length self.now }
        requires roots { roots.old.width ≡ length self.now }
        requires withdrawn { withdrawn.old.width ≡ length self.now }
        requires added { added.old.width ≡ length self.now }
        requires own { is_in c roots.old.members ≡ root_at T.covering self.now need.now.members c }
        ensures width { roots.new.width ≡ length self.now }
        ensures withdrawn_width { withdrawn.new.width ≡ length self.now }
        ensures added_width { added.new.width ≡ length self.now }
        ensures lost { is_in c withdrawn.new.members ≡ true → (k : ℕ) → covers_at T.covering self.now c k ≡ true → Has k need.now.members
            → root_at T.covering self.now need.now.members k ≡ true → is_in k roots.new.members ≡ true }
        ensures moves { Moves (root_at T.covering self.now need.now.members) roots.old.members withdrawn.old.members added.old.members
            roots.new.members withdrawn.new.members added.new.members }
    {
        need.lemma_sorted();
        if !withdrawn.has(c) {
            return;
        }
        let covered = self.covered_by(c);
        let mut at = 0;
        while let Some(i) = covered.first_common_from(need, at) {
            self.settle_other(need, i, roots, withdrawn, added);
            at = i + 1;
        }
    }

    /// Where a root was won, finds the roots that it covers and that are none now.
    fn settle_won(&self, need: &Row, c: u32, roots: &mut Row, withdrawn: &mut Row, added: &mut Row)
        requires there { c < length self.now }
        requires need { need.now.width ≡ length self.now }
        requires roots { roots.old.width ≡ length self.now }
        requires withdrawn { withdrawn.old.width ≡ length self.now }
        requires added { added.old.width ≡ length self.now }
        requires own { is_in c roots.old.members ≡ root_at T.covering self.now need.now.members c }
        ensures width { roots.new.width ≡ length self.now }
        ensures withdrawn_width { withdrawn.new.width ≡ length self.now }
        ensures added_width { added.new.width ≡ length self.now }
        ensures won { is_in c added.new.members ≡ true → (k : ℕ) → covers_at T.covering self.now c k ≡ true
            → root_at T.covering self.now need.now.members k ≡ false → is_in k roots.new.members ≡ false }
        ensures moves { Moves (root_at T.covering self.now need.now.members) roots.old.members withdrawn.old.members added.old.members
            roots.new.members withdrawn.new.members added.new.members }
    {
        if !added.has(c) {
            return;
        }
        let covered = self.covered_by(c);
        covered.lemma_sorted();
        let mut at = 0;
        while let Some(i) = covered.first_common_from(roots, at) {
            self.settle(need, i, roots, withdrawn, added);
            at = i + 1;
        }
        roots.lemma_sorted();
    }

    /// Settles one number, and where that is listed, what it covers.
    fn settle_from(&self, need: &Row, c: u32, roots: &mut Row, withdrawn: &mut Row, added: &mut Row)
        requires there { c < length self.now }
        requires need { need.now.width ≡ length self.now }
        requires roots { roots.old.width ≡ length self.now }
        requires withdrawn { withdrawn.old.width ≡ length self.now }
        requires added { added.old.width ≡ length self.now }
        ensures width { roots.new.width ≡ length self.now }
        ensures withdrawn_width { withdrawn.new.width ≡ length self.now }
        ensures added_width { added.new.width ≡ length self.now }
        ensures settled { IsSettled (root_at T.covering self.now need.now.members) (covers_at T.covering self.now) need.now.members c
            roots.new.members withdrawn.new.members added.new.members }
        ensures moves { Moves (root_at T.covering self.now need.now.members) roots.old.members withdrawn.old.members added.old.members
            roots.new.members withdrawn.new.members added.new.members }
    {
        self.settle(need, c, roots, withdrawn, added);
        self.settle_lost(need, c, roots, withdrawn, added);
        self.settle_won(need, c, roots, withdrawn, added);
    }

    /// Settles each of these numbers, as `settle_from` does.
    fn settle_each(
        &self,
        need: &Row,
        changed: &[u32],
        roots: &mut Row,
        withdrawn: &mut Row,
        added: &mut Row,
    )
        requires there { (i : ℕ) → Has i changed.now → i < length self.now }
        requires need { need.now.width ≡ length self.now }
        requires roots { roots.old.width ≡ length self.now }
        requires withdrawn { withdrawn.old.width ≡ length self.now }
        requires added { added.old.width ≡ length self.now }
        ensures width { roots.new.width ≡ length self.now }
        ensures withdrawn_width { withdrawn.new.width ≡ length self.now }
        ensures added_width { added.new.width ≡ length self.now }
        ensures settled { (c : ℕ) → Has c changed.now
            → IsSettled (root_at T.covering self.now need.now.members) (covers_at T.covering self.now) need.now.members c
            roots.new.members withdrawn.new.members added.new.members }
        ensures moves { Moves (root_at T.covering self.now need.now.members) roots.old.members withdrawn.old.members added.old.members
            roots.new.members withdrawn.new.members added.new.members }
    {
        for c in changed {
            self.settle_from(need, *c, roots, withdrawn, added);
        }
    }

    /// Makes the roots of a need before the roots of the need now, where some numbers went and
    /// others came, and lists which numbers are no roots any more and which are new ones. It looks
    /// at the numbers that went and came, and of those that were or are roots at what they cover.
    pub fn reroot(
        &self,
        need: &Row,
        gone: &[u32],
        come: &[u32],
        roots: &mut Row,
        withdrawn: &mut Row,
        added: &mut Row,
    )
        requires gone { (i : ℕ) → Has i gone.now → i < length self.now }
        requires come { (i : ℕ) → Has i come.now → i < length self.now }
        requires need { need.now.width ≡ length self.now }
        requires roots { roots.old.width ≡ length self.now }
        requires withdrawn { withdrawn.old.width ≡ length self.now }
        requires added { added.old.width ≡ length self.now }
        requires change { IsChange T.covering self.now need.now.members roots.old.members gone.now come.now }
        ensures width { roots.new.width ≡ length self.now }
        ensures withdrawn_width { withdrawn.new.width ≡ length self.now }
        ensures added_width { added.new.width ≡ length self.now }
        ensures roots { roots.new.members ≡ root_numbers T.covering self.now need.now.members }
        ensures withdrawn { withdrawn.new.members ≡ minus nat_lt roots.old.members roots.new.members }
        ensures added { added.new.members ≡ minus nat_lt roots.new.members roots.old.members }
    {
        need.lemma_sorted();
        roots.lemma_sorted();
        withdrawn.clear();
        added.clear();
        self.settle_each(need, gone, roots, withdrawn, added);
        self.settle_each(need, come, roots, withdrawn, added);
        roots.lemma_sorted();
        withdrawn.lemma_sorted();
        added.lemma_sorted();
    }
}
