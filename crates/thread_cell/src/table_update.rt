//! Hands the pending changes of a core to its publisher.
ghost use Rattle.std.specs.Prelude.{◌≡◌, ◌<◌, ◌∷◌, ◌++◌, [], length, OnOk, IfOk, IsTrue};
ghost use Rattle.base.specs.Sets.{Has};
ghost use Rattle.match_routes.specs.declared.table_change.TableChange.{TableChange as ChangeParts};
ghost use Rattle.match_routes.specs.Installed.{pair_in, IsKnown};
ghost use Rattle.net_tables.specs.Known.{known_filters};
ghost use Rattle.thread_versions.specs.Ends.{pending, installed, forwarding_of, IsSamePublisher};
ghost use Rattle.thread_cell.specs.Kept.{IsWideFor};
ghost use Rattle.thread_cell.specs.Versions.{IsTouched, AreTouched, AreNumbered, IsOfHeld, AreMended};

use base::NoMemory;
use match_routes::TableChange;
use server_core::Core;
use std::alloc::Global;
use thread_versions::Publisher;

/// The pair of an interface and a number that a change is of.
fn pair_of(change: &TableChange) -> (u32, u32)
    ensures { result ≡ pair_in change.now }
{
    match change {
        TableChange::Put { number, interface } => (*interface, *number),
        TableChange::Take { number, interface } => (*interface, *number),
    }
}

/// Whether two changes are of one pair of an interface and a number.
fn are_of_one_pair(one: &TableChange, other: &TableChange) -> bool
    ensures { IsTrue result → pair_in one.now ≡ pair_in other.now }
{
    pair_of(one) == pair_of(other)
}

/// Whether one of the changes touches the pair of this one.
fn is_touched(change: &TableChange, changes: &[TableChange]) -> bool
    ensures { IsTrue result → IsTouched changes.now change.now }
{
    for other in changes {
        if are_of_one_pair(change, other) {
            return true;
        }
    }
    false
}

/// The change of the same pair that says what a core holds.
fn held_change(core: &Core<'_>, change: &TableChange) -> Result<TableChange, NoMemory>
    requires numbered { (pair_in change.now).1 < length (known_filters core.now.net.clients) }
    ensures pair { IfOk result (λ held. pair_in held ≡ pair_in change.now) }
    ensures held { IfOk result (IsOfHeld core.now) }
{
    let (interface, number) = pair_of(change);
    let held = core.held(interface)?;
    if held.filters().has(number) {
        return Ok(TableChange::Put { number, interface });
    }
    Ok(TableChange::Take { number, interface })
}

/// For the pair of each of these changes one that says what a core holds.
fn mends(
    alloc: Global,
    core: &Core<'_>,
    changes: &[TableChange],
) -> Result<Vec<TableChange>, NoMemory>
    requires numbered { AreNumbered core.now changes.now }
    ensures touched { IfOk result (λ mends. AreTouched mends.items changes.now) }
    ensures same { IfOk result (λ mends. AreTouched changes.now mends.items) }
    ensures held { IfOk result (λ mends. (mend : ChangeParts) → Has mend mends.items → IsOfHeld core.now mend) }
{
    let mut mends = Vec::new(alloc);
    for change in changes {
        if !is_touched(change, &mends) {
            let mend = held_change(core, change)?;
            mends.push(mend)?;
        }
    }
    Ok(mends)
}

/// Hands a change over to the publisher, and keeps a copy of it.
pub(crate) fn hand(
    publisher: &mut Publisher,
    handed: &mut Vec<TableChange>,
    change: TableChange,
) -> Result<(), NoMemory>
    requires handed { pending publisher.old ≡ installed publisher.old ++ handed.old.items }
    requires known { IsKnown (forwarding_of publisher.old) (pair_in change) }
    ensures same { IsSamePublisher publisher.old publisher.new × (installed publisher.new ≡ installed publisher.old) }
    ensures handed { pending publisher.new ≡ installed publisher.new ++ handed.new.items }
    ensures more { OnOk result (handed.new.items ≡ handed.old.items ++ change ∷ []) }
{
    handed.reserve(1)?;
    publisher.stage(change)?;
    handed.push_reserved(change);
    Ok(())
}

/// Hands changes over to the publisher, in their order, and keeps copies.
pub(crate) fn hand_over(
    publisher: &mut Publisher,
    handed: &mut Vec<TableChange>,
    changes: &[TableChange],
) -> Result<(), NoMemory>
    requires handed { pending publisher.old ≡ installed publisher.old ++ handed.old.items }
    requires known { (change : ChangeParts) → Has change changes.now → IsKnown (forwarding_of publisher.old) (pair_in change) }
    ensures same { IsSamePublisher publisher.old publisher.new × (installed publisher.new ≡ installed publisher.old) }
    ensures handed { pending publisher.new ≡ installed publisher.new ++ handed.new.items }
    ensures all { OnOk result (handed.new.items ≡ handed.old.items ++ changes.now) }
{
    for change in changes {
        hand(publisher, handed, *change)?;
    }
    Ok(())
}

/// Hands over what a core holds of each pair that was handed over before, after a table update that found no memory. Then what
/// is handed makes no difference, whatever else is done to it. Where nothing was handed, nothing is done.
pub(crate) fn mend(
    alloc: Global,
    publisher: &mut Publisher,
    handed: &mut Vec<TableChange>,
    core: &Core<'_>,
) -> Result<(), NoMemory>
    requires handed { pending publisher.old ≡ installed publisher.old ++ handed.old.items }
    requires wide { IsWideFor core.now (forwarding_of publisher.old) }
    ensures same { IsSamePublisher publisher.old publisher.new × (installed publisher.new ≡ installed publisher.old) }
    ensures handed { pending publisher.new ≡ installed publisher.new ++ handed.new.items }
    ensures mended { OnOk result (AreMended core.now handed.new.items) }
{
    let changes = mends(alloc, core, handed)?;
    hand_over(publisher, handed, &changes)
}
