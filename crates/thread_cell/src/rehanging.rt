//! One server is set on other links: its publisher takes away what it holds from the old ones and puts what is held then, and
//! installs that in one table update.
ghost use Rattle.std.specs.Prelude.{◌≡◌, ◌≤◌, ◌++◌, ◌∷◌, [], ℕ, List, map, OnOk, OnErr};
ghost use Rattle.base.specs.Sets.{Has};
ghost use Rattle.match_routes.specs.declared.table_change.TableChange.{TableChange as ChangeParts};
ghost use Rattle.match_routes.specs.Installed.{IsKnown, pair_in};
ghost use Rattle.net_model.specs.Parts.{EntryParts};
ghost use Rattle.net_tables.specs.Known.{known_filters};
ghost use Rattle.server_control.specs.Held.{held_in, AreHeldIn};
ghost use Rattle.server_core.specs.Linked.{AreHeldLinks};
ghost use Rattle.thread_versions.specs.Ends.{pending, installed, forwarding_of, IsSamePublisher};
ghost use Rattle.thread_cell.specs.Kept.{IsSomeServer, IsWideFor};
ghost use Rattle.filter_text.specs.MessageText.{Each};
ghost use Rattle.thread_cell.specs.Lanes.{IsNew, neighbours_in};
ghost use Rattle.thread_cell.specs.Cell.{IsServerInHand};
ghost use Rattle.thread_cell.specs.Turns.{IsStill};
ghost use Rattle.thread_cell.specs.Relinking.{AreTaken, IsPutOn, takes};

use crate::held::ServerInHand;
use crate::link::Link;
use crate::table_update::{hand, hand_over, mend};
use base::NoMemory;
use match_routes::TableChange;
use server_control::HeldLink;
use server_core::Core;
use std::alloc::Global;
use std::sync::Wait;
use thread_versions::Publisher;

/// Hands over that numbers are no longer installed from a link.
fn withdraw(
    publisher: &mut Publisher,
    handed: &mut Vec<TableChange>,
    link: u32,
    numbers: &[u32],
) -> Result<(), NoMemory>
    requires handed { pending publisher.old ≡ installed publisher.old ++ handed.old.items }
    requires known { (number : ℕ) → Has number numbers.now → IsKnown (forwarding_of publisher.old) (link, number) }
    ensures same { IsSamePublisher publisher.old publisher.new × (installed publisher.new ≡ installed publisher.old) }
    ensures handed { pending publisher.new ≡ installed publisher.new ++ handed.new.items }
    ensures all { OnOk result (handed.new.items ≡ handed.old.items ++ map (takes link) numbers.now) }
{
    for number in numbers {
        let change = TableChange::Take {
            number: *number,
            interface: link,
        };
        hand(publisher, handed, change)?;
    }
    Ok(())
}

/// Hands over that all that is held from a link is taken away.
fn withdraw_link(
    alloc: Global,
    publisher: &mut Publisher,
    handed: &mut Vec<TableChange>,
    core: &Core<'_>,
    link: u32,
) -> Result<(), NoMemory>
    requires handed { pending publisher.old ≡ installed publisher.old ++ handed.old.items }
    requires wide { IsWideFor core.now (forwarding_of publisher.old) }
    requires small { link ≤ 64 }
    ensures same { IsSamePublisher publisher.old publisher.new × (installed publisher.new ≡ installed publisher.old) }
    ensures handed { pending publisher.new ≡ installed publisher.new ++ handed.new.items }
    ensures all { OnOk result ((gone : List ChangeParts) × (handed.new.items ≡ handed.old.items ++ gone)
        × AreTaken (known_filters core.now.net.clients) core.now.control (link ∷ []) gone) }
{
    let held = core.held(link)?;
    let filters = held.filters();
    filters.lemma_sorted();
    let numbers = filters.members(alloc)?;
    withdraw(publisher, handed, link, &numbers)
}

/// Hands over that all that is held from links is taken away.
fn withdraw_all(
    alloc: Global,
    publisher: &mut Publisher,
    handed: &mut Vec<TableChange>,
    core: &Core<'_>,
    links: &[Link],
) -> Result<(), NoMemory>
    requires handed { pending publisher.old ≡ installed publisher.old ++ handed.old.items }
    requires wide { IsWideFor core.now (forwarding_of publisher.old) }
    requires small { (link : ℕ) → Has link (neighbours_in links.now) → link ≤ 64 }
    ensures same { IsSamePublisher publisher.old publisher.new × (installed publisher.new ≡ installed publisher.old) }
    ensures handed { pending publisher.new ≡ installed publisher.new ++ handed.new.items }
    ensures all { OnOk result ((gone : List ChangeParts) × (handed.new.items ≡ handed.old.items ++ gone)
        × AreTaken (known_filters core.now.net.clients) core.now.control (neighbours_in links.now) gone) }
{
    for link in links {
        withdraw_link(alloc, publisher, handed, core, link.neighbour)?;
    }
    Ok(())
}

/// Takes away what is held from links, puts these changes, and installs that.
fn republish<R: Wait>(
    rt: &R,
    alloc: Global,
    publisher: &mut Publisher,
    handed: &mut Vec<TableChange>,
    core: &Core<'_>,
    links: &[Link],
    changes: &[TableChange],
) -> Result<(), NoMemory>
    requires handed { pending publisher.old ≡ installed publisher.old ++ handed.old.items }
    requires wide { IsWideFor core.now (forwarding_of publisher.old) }
    requires small { (link : ℕ) → Has link (neighbours_in links.now) → link ≤ 64 }
    requires known { (change : ChangeParts) → Has change changes.now → IsKnown (forwarding_of publisher.old) (pair_in change) }
    ensures same { IsSamePublisher publisher.old publisher.new }
    ensures installed { OnErr result (installed publisher.new ≡ installed publisher.old) }
    ensures handed { OnErr result (pending publisher.new ≡ installed publisher.new ++ handed.new.items) }
    ensures calm { OnOk result ((pending publisher.new ≡ installed publisher.new) × (handed.new.items ≡ [])) }
    ensures all { OnOk result ((gone : List ChangeParts) × (installed publisher.new ≡ installed publisher.old ++ ((handed.old.items ++ gone) ++ changes.now))
        × AreTaken (known_filters core.now.net.clients) core.now.control (neighbours_in links.now) gone) }
{
    withdraw_all(alloc, publisher, handed, core, links)?;
    hand_over(publisher, handed, changes)?;
    publisher.publish(rt)?;
    handed.clear();
    Ok(())
}

/// Sets a server on other links, of which this is given, over these lanes. It receives no message and makes no entry; what is
/// held is installed. After a fault all is as before, but that some changes may have been handed to the publisher, which
/// has installed none of them.
pub(crate) fn put_on<'a, R: Wait>(
    rt: &R,
    alloc: Global,
    held: &mut ServerInHand<'a>,
    given: &[HeldLink<'a>],
    links: Vec<Link>,
) -> Result<(), NoMemory>
    requires held { IsServerInHand held.old }
    requires stands { IsSomeServer held.old.core }
    requires calm { held.old.core.pending ≡ [] }
    requires net { AreHeldIn held.old.core.net given.now }
    requires given { AreHeldLinks (held_in given.now) }
    requires names { neighbours_in links.items ≡ map (λ h. h.link) (held_in given.now) }
    requires new { Each IsNew links.items }
    ensures held { IsServerInHand held.new }
    ensures put { OnOk result (IsPutOn (held_in given.now) links.items held.old held.new) }
    ensures still { OnErr result ((journal : List EntryParts) → IsStill held.old held.new journal journal) }
{
    let relinked = held.core.relinked(given)?;
    let _whole = held.core.interfaces();
    let _calm = held.core.pending();
    relinked.lemma_sound();
    mend(alloc, &mut held.publisher, &mut held.handed, &held.core)?;
    republish(
        rt,
        alloc,
        &mut held.publisher,
        &mut held.handed,
        &held.core,
        &held.links,
        relinked.pending(),
    )?;
    let _before = held.core.relink(relinked);
    held.links = links;
    Ok(())
}
