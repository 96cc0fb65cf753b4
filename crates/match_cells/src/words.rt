//! Words that show a set.
ghost use Rattle.std.specs.Prelude.{◌≡◌, ℕ, ◌+◌, ◌*◌, ◌<◌, ◌≤◌, length, slice_index, ◌==◌};
ghost use Rattle.match_cells.specs.Changes.{turned, after, AreWithin, words_at};
ghost use Rattle.base_bits.specs.Words.{bit};

/// Puts a number in that is no member, or takes a member out.
#[inline]
pub(crate) fn turn(words: &mut [u64], k: usize)
    requires { k < 64 * length words.old }
    ensures { words.new ≡ turned words.old k }
{
    words[k / 64] ^= 1 << (k % 64) as u32;
}

/// Makes the changes from one place up to another.
pub(crate) fn turn_all(words: &mut [u64], changes: &[u16], from: usize, to: usize)
    requires order { from ≤ to }
    requires known { to ≤ length changes.now }
    requires within { AreWithin (length words.old) changes.now }
    ensures length { length words.new ≡ length words.old }
    ensures words { (first : _) → words.old ≡ after first changes.now from → words.new ≡ after first changes.now to }
{
    for i in from..to {
        turn(words, changes[i] as usize);
    }
}

/// Makes the words the same as some of a longer list.
#[inline]
pub(crate) fn copy(into: &mut [u64], from: &[u64], at: usize)
    requires { at + length into.old ≤ length from.now }
    ensures { into.new ≡ words_at from.now at (length into.old) }
{
    into.copy_from_slice(&from[at..at + into.len()]);
}

/// Whether a number is a member.
#[tactic(auto, unfolding(base_bits::specs::Words::bit))]
#[inline]
pub(crate) fn has(words: &[u64], k: usize) -> bool
    requires { k < 64 * length words.now }
    ensures { result ≡ (bit words.now k == 1) }
{
    words[k / 64] >> (k % 64) as u32 & 1 == 1
}
