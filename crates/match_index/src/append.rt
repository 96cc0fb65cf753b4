//! Appends the ids of a group to a list.
ghost use Rattle.std.specs.Prelude.{◌≡◌, ◌++◌, OnOk};
ghost use Rattle.match_index.specs.Pairs.{KeepsBeginning};

use base::NoMemory;

/// Appends the ids of a group to those that were found. Most groups have one or two, so it pushes them one by one.
pub fn append_ids(found: &mut Vec<u32>, ids: &[u32]) -> Result<(), NoMemory>
    ensures ok { OnOk result (found.new.items ≡ found.old.items ++ ids.now) }
    ensures begins { KeepsBeginning found.old.items found.new.items }
{
    for id in ids {
        found.push(*id)?;
    }
    Ok(())
}
