//! Keeps the history of all pending changes, which exists in proofs alone.
//!
//! A history stands in a book, to which anybody may add who has its word. So that only the owner of a `History` can
//! add to it, each entry uses up a pen: the first entry the first pen, and each other one the pen that the entry before
//! it names. A pen can't be copied.
ghost use Rattle.std.specs.Prelude.{◌≡◌, IsTrue};
ghost use Rattle.logbook.specs.Pages.{may_write};
ghost use Rattle.thread_versions.specs.Book.{first_pen, word_of};

use logbook::{Gain, Offer, Pen, Plain, Play, Rule, Seen, Start, Word};
use match_routes::TableChange;
use std::marker::Model;
use std::snapshot::Snapshot;
use std::sync::Wait;

/// A change in the book. No value of it is made.
pub struct Entry {
    /// The change.
    pub change: TableChange,
    /// The number of the pen that was used up for it.
    pub pen: u64,
    /// The number of the pen for the next one.
    pub next: u64,
}

/// The rule of the book.
pub struct Law;

impl Rule<Entry, u64> for Law {
    ghost use Rattle.std.specs.Prelude.{[]};
    ghost use base.Fml.{ftrue};
    ghost use Rattle.thread_versions.specs.Book.{IsBookKept};

    ghost holds = { λ cells log. IsBookKept cells log };

    ghost first = { [] };

    ghost hinted = { λ n log. Unit {0} };

    ghost shows = { λ log. [] };

    ghost keeps = { λ names log. ftrue };

    ghost moves = { λ ask before after answer. Unit {0} };
}

/// Nothing is gained at a step.
struct Nothing;

impl Gain<Entry, u64> for Nothing {
    ghost use base.Fml.{ftrue};

    ghost after = { λ names about answer. ftrue };
}

/// The step that makes a pen.
struct MakePen;

impl Play<Entry, u64> for MakePen {
    ghost use Rattle.thread_versions.specs.Book.{MakesPen};

    ghost then = { MakesPen };
}

impl Plain<(), Entry, u64> for MakePen {
    ghost use Rattle.std.specs.Prelude.{None};
    ghost use Rattle.match_routes.specs.declared.table_change.TableChange.TheVariants.{Put};

    ghost ask = { λ _. record { change = Put 0 0; pen = 0; next = 0 } };

    ghost state = { λ _. None };
}

/// The step that adds a change.
struct Add;

impl Play<Entry, u64> for Add {
    ghost use Rattle.thread_versions.specs.Book.{AddsToSeen};

    ghost then = { AddsToSeen };
}

/// What an entry is made of.
#[derive(Drop)]
struct Draft {
    change: TableChange,
    pen: Snapshot<Pen>,
    next: Snapshot<Pen>,
}

impl Draft {
    fn new(change: &TableChange, pen: &Pen, next: &Pen) -> Draft
        ensures change { result.change ≡ change.now }
        ensures pens { (result.pen.value ≡ pen.now) × (result.next.value ≡ next.now) }
    {
        Draft {
            change: *change,
            pen: Snapshot::of(pen),
            next: Snapshot::of(next),
        }
    }
}

impl Plain<Draft, Entry, u64> for Add {
    ghost use Rattle.std.specs.Prelude.{None};

    ghost ask = { λ d. record { change = d.change; pen = d.pen.value.nib.key; next = d.next.value.nib.key } };

    ghost state = { λ d. None };
}

/// The book's first word, by which entries are added.
type BookWord = Word<Entry, u64, Law>;

/// What of the book was seen.
type SeenEntries = Seen<Entry, u64, Law>;

/// A pen that nobody had, and whether it is the first one.
fn make_pen(word: &BookWord, seen: &SeenEntries) -> (bool, Pen)
    requires { word.now ≡ word_of seen.now.book }
    ensures pen { (result.1.book ≡ seen.now.book) × (result.1.nib.right ≡ may_write) }
    ensures first { IsTrue result.0 → result.1.nib.key ≡ first_pen }
{
    let mut seen = seen.again();
    let mut pen = seen.no_pen();
    let mut offer: Offer<Entry, u64, Law, Nothing> = seen.plain::<Nothing, (), MakePen>(&());
    let found = word.compare_exchange::<MakePen, Nothing>(0, 1, &mut seen, &mut offer, &mut pen);
    let _pen_word: BookWord = Word::tracked(0, &mut pen);
    (found == 0, pen)
}

/// A history, with the right to add to it. Contracts see its book and its changes.
#[derive(Drop)]
pub struct History {
    word: BookWord,
    pen: Pen,
    seen: SeenEntries,
}

impl Model for History {
    ghost use Rattle.thread_versions.specs.History.{HistoryParts, HasPen, history_parts};

    ghost Value = { HistoryParts };

    ghost view = { λ h. history_parts h.seen };

    ghost invariant = { λ h. HasPen h.word h.pen h.seen };
}

impl History {
    ghost use Rattle.std.specs.Prelude.{◌++◌, ◌∷◌, []};

    /// A history of no changes. It opens one book after the other until the first pen is its own, as it is in a new book.
    pub fn new<R: Wait>(rt: &R) -> History
        ensures { result.log ≡ [] }
    {
        for _ in rt.forever() {
            let (seen, mut first, _second) = Seen::open(Start::alone(), 0, 0);
            let word: BookWord = Word::tracked(0, &mut first);
            let (is_first, pen) = make_pen(&word, &seen);
            if is_first {
                return History { word, pen, seen };
            }
        }
        unreachable!()
    }

    /// Adds a change.
    pub fn push(&mut self, change: &TableChange)
        ensures { self.new ≡ record self.old { log = self.old.log ++ change.now ∷ [] } }
    {
        let History { word, pen, seen } = self;
        let (_, next) = make_pen(word, seen);
        let draft = Draft::new(change, pen, &next);
        let mut offer: Offer<Entry, u64, Law, Nothing> = seen.plain::<Nothing, Draft, Add>(&draft);
        let _found = word.compare_exchange::<Add, Nothing>(0, 1, seen, &mut offer, pen);
        *pen = next;
    }

    /// All of it so far.
    pub fn past(&self) -> Past
        ensures { result ≡ self.now }
    {
        Past {
            seen: self.seen.again(),
        }
    }
}

/// A beginning of a history, which has no bytes. Contracts see its book and its changes.
#[derive(Drop)]
pub struct Past {
    seen: SeenEntries,
}

impl Model for Past {
    ghost use Rattle.thread_versions.specs.History.{HistoryParts, history_parts};

    ghost Value = { HistoryParts };

    ghost view = { λ p. history_parts p.seen };
}

impl Past {
    ghost use Rattle.std.specs.Prelude.{◌≤◌, length};
    ghost use mathlib.Core.List.{IsPrefix};

    /// The same beginning.
    pub fn again(&self) -> Past
        ensures { result ≡ self.now }
    {
        Past {
            seen: self.seen.again(),
        }
    }

    /// Of two beginnings of one history, the one that isn't longer begins the other. The call does nothing.
    pub fn lemma_prefix(&self, other: &Past)
        requires { other.now.book ≡ self.now.book }
        ensures { length self.now.log ≤ length other.now.log → IsPrefix self.now.log other.now.log }
    {
        let mut both = self.seen.again();
        both.learn(&other.seen);
    }
}
