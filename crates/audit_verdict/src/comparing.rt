//! A text compared with what is claimed, as it is written.
ghost use Rattle.std.specs.Prelude.{◌≡◌, ◌≤◌, List, ℕ, true, false, drop, length, IfSome};
ghost use Rattle.audit_claim.specs.Difference.{difference};
ghost use Rattle.audit_verdict.specs.Comparing.{Follows, GoesOn, IsComparedTo, comparing};

use audit_claim::difference;
use std::marker::Model;

/// How far a text is as what is claimed. The text comes piece by piece and is not kept.
#[derive(Drop)]
pub struct Comparing<'a> {
    claimed: &'a [u8],
    at: usize,
    apart: bool,
}

impl<'a> Model for Comparing<'a> {
    ghost use Rattle.std.specs.Prelude.{◌≤◌, length};
    ghost use Rattle.audit_verdict.specs.Comparing.{ComparingParts, comparing};

    ghost Value = { ComparingParts };

    ghost view = { λ c. comparing c.claimed.now c.at c.apart };

    ghost invariant = { λ c. c.at ≤ length c.claimed.now };
}

impl<'a> Comparing<'a> {
    /// Nothing is compared yet.
    pub fn new(claimed: &'a [u8]) -> Comparing<'a>
        ensures { result ≡ comparing claimed.now 0 false }
    {
        Comparing {
            claimed,
            at: 0,
            apart: false,
        }
    }

    /// Compares the next piece of the text. It takes no memory.
    pub fn compare(&mut self, piece: &[u8])
        ensures { GoesOn self.old self.new piece.now }
    {
        if self.apart {
            return;
        }
        let (_, rest) = self.claimed.split_at(self.at);
        match difference(rest, piece) {
            None => self.at += piece.len(),
            Some(place) => {
                self.at += place;
                self.apart = place < piece.len();
            }
        }
    }

    /// Goes on by a text whose comparison with what is claimed from this place on was made apart, where that is the place that the text has come to, and
    /// answers whether it went on; where the text has parted before, it goes on by any.
    pub fn follow(&mut self, part: &Comparing<'_>, from: usize) -> bool
        requires part { part.now.claimed ≡ drop from self.old.claimed }
        requires within { from ≤ length self.old.claimed }
        ensures went { (piece : List ℕ) → IsComparedTo part.now piece → Follows result self.old self.new piece }
        ensures apart { self.old.apart ≡ true → result ≡ true }
        ensures there { self.old.at ≡ from → result ≡ true }
    {
        if self.apart {
            return true;
        }
        if self.at != from {
            return false;
        }
        self.at += part.at;
        self.apart = part.apart;
        true
    }

    /// The first place at which what is claimed is not the text that was compared.
    pub fn place(&self) -> Option<usize>
        ensures value { (text : List ℕ) → IsComparedTo self.now text → result ≡ difference self.now.claimed text }
        ensures within { IfSome result (λ place. place ≤ length self.now.claimed) }
    {
        if !self.apart && self.at == self.claimed.len() {
            None
        } else {
            Some(self.at)
        }
    }
}
