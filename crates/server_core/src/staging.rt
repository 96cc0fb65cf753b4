//! Adds the changes of a step to those that are pending.
ghost use Rattle.std.specs.Prelude.{◌≡◌, ◌≤◌, ◌+◌, ◌++◌, length, map, vec_len, vec_capacity};
ghost use Rattle.match_routes.specs.declared.table_change.TableChange.TheVariants.{Put, Take};

use match_routes::TableChange;

/// Takes each of these numbers from an interface, behind other changes. There is room, so it takes no memory.
fn put_takes(pending: &mut Vec<TableChange>, interface: u32, numbers: &[u32])
    requires room { vec_len pending.old + length numbers.now ≤ vec_capacity pending.old }
    ensures items { pending.new.items ≡ pending.old.items ++ map (λ i. Take i interface) numbers.now }
    ensures len { vec_len pending.new ≡ vec_len pending.old + length numbers.now }
    ensures capacity { vec_capacity pending.new ≡ vec_capacity pending.old }
{
    for number in numbers {
        pending.push_reserved(TableChange::Take {
            number: *number,
            interface,
        });
    }
}

/// Puts each of these numbers to an interface, behind other changes. There is room, so it takes no memory.
fn put_puts(pending: &mut Vec<TableChange>, interface: u32, numbers: &[u32])
    requires room { vec_len pending.old + length numbers.now ≤ vec_capacity pending.old }
    ensures items { pending.new.items ≡ pending.old.items ++ map (λ i. Put i interface) numbers.now }
{
    for number in numbers {
        pending.push_reserved(TableChange::Put {
            number: *number,
            interface,
        });
    }
}

/// The changes by which an interface loses the first numbers and gets the second ones, behind others. There is room, so it
/// takes no memory.
pub(crate) fn stage(pending: &mut Vec<TableChange>, interface: u32, lost: &[u32], won: &[u32])
    requires room { vec_len pending.old + (length lost.now + length won.now) ≤ vec_capacity pending.old }
    ensures { pending.new.items ≡ pending.old.items ++ (map (λ i. Take i interface) lost.now ++ map (λ i. Put i interface) won.now) }
{
    put_takes(pending, interface, lost);
    put_puts(pending, interface, won);
}
