//! Puts a number into a row or takes it out, by a test.
ghost use Rattle.std.specs.Prelude.{◌≡◌, ◌<◌, ◌∷◌, [], cond, nat_lt};
ghost use Rattle.base.specs.Sets.{put_in, minus};
ghost use Rattle.base_bits.specs.Rows.{is_in};

use base_bits::Row;

/// Puts a number in where it holds.
pub fn put_if(row: &mut Row, i: u32, holds: bool)
    requires { i < row.old.width }
    ensures width { row.new.width ≡ row.old.width }
    ensures members { row.new.members ≡ cond holds (put_in nat_lt i row.old.members) row.old.members }
{
    if holds {
        row.insert(i);
    }
}

/// Puts a number in where it holds, and else takes it out; answers whether it was in.
pub fn set_to(row: &mut Row, i: u32, holds: bool) -> bool
    requires { i < row.old.width }
    ensures was { result ≡ is_in i row.old.members }
    ensures width { row.new.width ≡ row.old.width }
    ensures members { row.new.members ≡ cond holds (put_in nat_lt i row.old.members) (minus nat_lt row.old.members (i ∷ [])) }
{
    if holds { !row.insert(i) } else { row.remove(i) }
}
