//! Keeps the notices that were heard as contracts see them. No notice is kept for it at run time.
use filter_types::Notice;
use std::marker::Model;
use std::snapshot::Snapshot;

/// A list of notices, of which contracts alone see what it holds.
#[derive(Drop)]
#[cycle(heard)]
pub(crate) struct Heard {
    notices: Notices,
}

#[derive(Drop)]
#[cycle(heard)]
enum Notices {
    Nothing,
    /// Those before the last, and the last.
    More(Snapshot<Snapshot<Heard>>, Snapshot<Notice>),
}

impl Model for Heard {
    ghost use Rattle.std.specs.Prelude.{List, length};
    ghost use Rattle.filter_types.specs.Notice.{Attribute};

    ghost Value = { List (List Attribute) };

    ghost use Rattle.output_patterns.specs.Heard.{heard};

    ghost view = { λ h. heard h.notices };

    ghost size = { length };

    ghost use Rattle.std.proofs.Common.{arith, length-append};

    ghost size_decreases = { λ a h. Prim.grind (arith, length-append) };
}

impl Heard {
    ghost use Rattle.std.specs.Prelude.{◌≡◌, ◌++◌, ◌∷◌, []};

    /// No notice.
    pub(crate) fn nothing() -> Self
        ensures { result ≡ [] }
    {
        Heard {
            notices: Notices::Nothing,
        }
    }

    /// The notices heard earlier, and this one.
    pub(crate) fn and(earlier: &Snapshot<Heard>, n: &Notice) -> Self
        ensures { result ≡ earlier.now.value ++ n.now ∷ [] }
    {
        Heard {
            notices: Notices::More(Snapshot::of(earlier), Snapshot::of(n)),
        }
    }
}
