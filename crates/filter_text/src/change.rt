//! Reads and writes changes: lists of filters, or of advertisements, that are taken out and added.
ghost use Rattle.std.specs.Prelude.{◌≡◌, ◌++◌, [], length, OnOk};
ghost use Rattle.std.specs.List.{flat_map};
ghost use Rattle.filter_text.specs.Reading.{Gives, Reads};
ghost use Rattle.filter_text.specs.MessageText.{signed, Each};
ghost use Rattle.filter_text.specs.Changes.{apart, both_at, braced_at, change_of, changes_at, from, is_change, leads, rises, signed_lists};

use crate::fault::WireFault;
use crate::listed::Listed;
use crate::reader::Reader;
use base::NoMemory;
use std::alloc::Global;

impl<'a> Reader<'a> {
    // A list and the brace that closes it.
    #[tactic(auto, unfolding(crate::specs::Changes::braced_at))]
    fn braced<L: Listed>(&mut self, alloc: Global) -> Result<L, WireFault>
        ensures { Reads (λ x. x) result (braced_at L.front self.old.rest.now) self.new.rest.now }
    {
        let list = L::read(self, alloc)?;
        self.close()?;
        Ok(list)
    }

    // The lists behind the sign.
    fn signed<L: Listed>(&mut self, alloc: Global, sign: u8) -> Result<Vec<L>, WireFault>
        ensures { Reads (λ x. x.items) result (changes_at L.front sign (length self.old.rest.now) [] self.old.rest.now) self.new.rest.now }
    {
        let mut read = Vec::new(alloc);
        for _ in 0..self.rest.len() {
            if !self.marked(sign) {
                return Ok(read);
            }
            let list = self.braced(alloc)?;
            read.push(list)?;
        }
        Ok(read)
    }

    #[tactic(auto, unfolding(crate::specs::Changes::both_at))]
    fn both<L: Listed>(&mut self, alloc: Global) -> Result<(Vec<L>, Vec<L>), WireFault>
        ensures { Reads (λ x. (x.0.items, x.1.items)) result (both_at L.front self.old.rest.now) self.new.rest.now }
    {
        let out = self.signed(alloc, b'-')?;
        let add = self.signed(alloc, b'+')?;
        Ok((out, add))
    }

    /// All that is left, as lists that are taken out and added.
    #[tactic(auto, unfolding(crate::specs::Changes::change_of))]
    pub fn change<L: Listed>(&mut self, alloc: Global) -> Result<(Vec<L>, Vec<L>), WireFault>
        ensures { Gives (λ x. (x.0.items, x.1.items)) result (change_of L.order L.front self.old.rest.now) }
    {
        let (out, add) = self.both(alloc)?;
        if !self.rest.is_empty() {
            return Err(WireFault::Outside);
        }
        if !is_change(&out, &add) {
            return Err(WireFault::Outside);
        }
        Ok((out, add))
    }
}

// Whether each stands before the next.
fn rises<L: Listed>(lists: &[L]) -> bool
    ensures { result ≡ rises L.order lists.now }
{
    let mut rest = lists;
    while let [first, second, ..] = rest {
        if !first.stands_before(second) {
            return false;
        }
        rest = &rest[1..];
    }
    true
}

// Without those in front that stand before this one.
fn from<'b, L: Listed>(least: &L, lists: &'b [L]) -> &'b [L]
    ensures { result.now ≡ from L.order least.now lists.now }
{
    for (i, list) in lists.iter().enumerate() {
        if !list.stands_before(least) {
            return &lists[i..];
        }
    }
    &lists[lists.len()..]
}

// Whether it stands before what comes first.
fn leads<L: Listed>(list: &L, lists: &[L]) -> bool
    ensures { result ≡ leads L.order list.now lists.now }
{
    match lists {
        [] => true,
        [first, ..] => list.stands_before(first),
    }
}

// Whether two rising lists have no member in common.
fn apart<L: Listed>(out: &[L], add: &[L]) -> bool
    ensures { result ≡ apart L.order out.now add.now }
{
    let mut rest = out;
    for list in add {
        rest = from(list, rest);
        if !leads(list, rest) {
            return false;
        }
    }
    true
}

#[tactic(auto, unfolding(crate::specs::Changes::is_change))]
fn is_change<L: Listed>(out: &[L], add: &[L]) -> bool
    ensures { result ≡ is_change L.order out.now add.now }
{
    rises(out) && rises(add) && apart(out, add) && !(out.is_empty() && add.is_empty())
}

// Puts the text of each behind the sign at the end.
fn push_signed<L: Listed>(out: &mut Vec<u8>, sign: u8, lists: &[L]) -> Result<(), NoMemory>
    ensures text { OnOk result (out.new.items ≡ out.old.items ++ flat_map (λ x. signed sign (L.text x)) lists.now) }
    ensures sound { OnOk result (Each L.IsSound lists.now) }
{
    for list in lists {
        out.push(b' ')?;
        out.push(sign)?;
        out.push(b'{')?;
        list.push(out)?;
        out.push(b'}')?;
    }
    Ok(())
}

/// Puts the text of lists that are taken out and added at the end.
pub fn push_change<L: Listed>(text: &mut Vec<u8>, out: &[L], add: &[L]) -> Result<(), NoMemory>
    ensures text { OnOk result (text.new.items ≡ text.old.items ++ signed_lists L.text out.now add.now) }
    ensures sound { OnOk result (Each L.IsSound out.now × Each L.IsSound add.now) }
{
    push_signed(text, b'-', out)?;
    push_signed(text, b'+', add)
}
