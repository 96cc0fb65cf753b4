//! Finds which patterns a text has, among those whose marks it has.
ghost use Rattle.std.specs.Prelude.{◌≡◌, ◌++◌, [], cond, OnOk, length};
ghost use Rattle.filter_constraints.specs.Bytes.{has_prefix, has_suffix, has_part};
ghost use Rattle.match_index.specs.Lines.{ids_with};
ghost use Rattle.match_texts.specs.Groups.{mark_of, marks_of, groups_pairs};
ghost use Rattle.match_texts.specs.Marks.{first_mark, first_pair, last_mark, last_pair, AreMarked};

use crate::bytes::has_part;
use crate::group::Group;
use crate::marks::{
    Mark, SHORT, WORDS, first_mark, first_pair, is_marked, last_mark, last_pair, mark_all,
};
use base::NoMemory;
use filter_constraints::{has_prefix, has_suffix};
use match_index::append_ids;

/// Appends ids, if they are asked for.
#[inline]
fn append_if(found: &mut Vec<u32>, asked: bool, ids: &[u32]) -> Result<(), NoMemory>
    ensures { OnOk result (found.new.items ≡ found.old.items ++ cond asked ids.now []) }
{
    if asked {
        append_ids(found, ids)?;
    }
    Ok(())
}

/// Whether a text begins with a pattern.
#[inline]
fn is_prefix(mark: Mark, key: &[u8], first: u32, pair: u32, x: &[u8]) -> bool
    requires marked { mark ≡ mark_of key.now }
    requires first { first ≡ first_mark x.now }
    requires pair { pair ≡ first_pair x.now }
    ensures { result ≡ has_prefix x.now key.now }
{
    if mark.first != first && mark.first != pair && mark.first != SHORT {
        return false;
    }
    has_prefix(x, key)
}

/// Appends the ids of the patterns that a text begins with.
pub(crate) fn meet_prefixes(
    marks: &[Mark],
    groups: &[Group],
    x: &[u8],
    found: &mut Vec<u32>,
) -> Result<(), NoMemory>
    requires { marks.now ≡ marks_of groups.now }
    ensures { OnOk result (found.new.items ≡ found.old.items ++ ids_with (λ k. has_prefix x.now k) (groups_pairs groups.now)) }
{
    let first = first_mark(x);
    let pair = first_pair(x);
    for (i, mark) in marks.iter().enumerate() {
        let group = &groups[i];
        append_if(
            found,
            is_prefix(*mark, &group.key, first, pair, x),
            &group.ids,
        )?;
    }
    Ok(())
}

/// Whether a text ends with a pattern.
#[inline]
fn is_suffix(mark: Mark, key: &[u8], last: u32, pair: u32, x: &[u8]) -> bool
    requires marked { mark ≡ mark_of key.now }
    requires last { last ≡ last_mark x.now }
    requires pair { pair ≡ last_pair x.now }
    ensures { result ≡ has_suffix x.now key.now }
{
    if mark.last != last && mark.last != pair && mark.last != SHORT {
        return false;
    }
    has_suffix(x, key)
}

/// Appends the ids of the patterns that a text ends with.
pub(crate) fn meet_suffixes(
    marks: &[Mark],
    groups: &[Group],
    x: &[u8],
    found: &mut Vec<u32>,
) -> Result<(), NoMemory>
    requires { marks.now ≡ marks_of groups.now }
    ensures { OnOk result (found.new.items ≡ found.old.items ++ ids_with (λ k. has_suffix x.now k) (groups_pairs groups.now)) }
{
    let last = last_mark(x);
    let pair = last_pair(x);
    for (i, mark) in marks.iter().enumerate() {
        let group = &groups[i];
        append_if(
            found,
            is_suffix(*mark, &group.key, last, pair, x),
            &group.ids,
        )?;
    }
    Ok(())
}

/// Whether a pattern stands in a text whose places are marked.
#[inline]
fn is_part(mark: Mark, key: &[u8], words: &[u64], x: &[u8]) -> bool
    requires marked { mark ≡ mark_of key.now }
    requires long { length words.now ≡ 129 }
    requires places { AreMarked words.now x.now }
    ensures { result ≡ has_part x.now key.now }
{
    if !is_marked(words, mark.first) {
        return false;
    }
    if !is_marked(words, mark.last) {
        return false;
    }
    has_part(x, key)
}

/// Appends the ids of the patterns that stand in a text whose places are marked.
fn meet_marked(
    marks: &[Mark],
    groups: &[Group],
    words: &[u64],
    x: &[u8],
    found: &mut Vec<u32>,
) -> Result<(), NoMemory>
    requires marked { marks.now ≡ marks_of groups.now }
    requires long { length words.now ≡ 129 }
    requires places { AreMarked words.now x.now }
    ensures { OnOk result (found.new.items ≡ found.old.items ++ ids_with (λ k. has_part x.now k) (groups_pairs groups.now)) }
{
    for (i, mark) in marks.iter().enumerate() {
        let group = &groups[i];
        append_if(found, is_part(*mark, &group.key, words, x), &group.ids)?;
    }
    Ok(())
}

/// Appends the ids of the patterns that stand in a text.
pub(crate) fn meet_parts(
    marks: &[Mark],
    groups: &[Group],
    x: &[u8],
    found: &mut Vec<u32>,
) -> Result<(), NoMemory>
    requires { marks.now ≡ marks_of groups.now }
    ensures { OnOk result (found.new.items ≡ found.old.items ++ ids_with (λ k. has_part x.now k) (groups_pairs groups.now)) }
{
    let mut words = [0; WORDS];
    mark_all(&mut words, x);
    meet_marked(marks, groups, &words, x, found)
}
