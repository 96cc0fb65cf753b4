//! What every run of a hierarchy promises, at the real theory of filters.
ghost use Rattle.std.specs.Prelude.{◌<◌, List, []};
ghost use Rattle.net_model.specs.Real.{real};
ghost use Rattle.law_hierarchy.specs.Masters.{HierarchyLaws};
ghost use Rattle.law_hierarchy.specs.HierarchyRun.{AllBelow, WalkDrains};
ghost use Rattle.net_model.specs.Parts.{NetParts, EntryParts};
ghost use Rattle.net_model.specs.Nets.{phases_of};
ghost use Rattle.net_model.specs.Sound.{IsSound};
ghost use Rattle.hierarchy_turns.specs.Network.{net_of, moment_by, IsLegal};
ghost use Rattle.hierarchy_turns.specs.Limits.{StaysLow};
ghost use Rattle.hierarchy_turns.specs.Promise.{HierarchyPromise, IsWholeRun};

use net_model::Real;

/// A sound net is a net with server 1 at its top, on the tree of phase 0, and each of its commands is of one of its phases.
pub fn lawful()
    ensures laws { (net : NetParts) → IsSound net → HierarchyLaws real (net_of net) }
    ensures phases { (net : NetParts) → IsSound net → AllBelow real (net_of net) (phases_of net) }
{}

/// The empty journal is a legal run, and from each legal run the walk goes on as a legal run to its drained end.
pub fn walks()
    ensures empty { (net : NetParts) → IsLegal net [] }
    ensures walks { (net : NetParts) (journal : List EntryParts) → IsSound net → IsLegal net journal → (moment_by net journal).phase < phases_of net
        → WalkDrains real (net_of net) (phases_of net) (moment_by net journal).network (moment_by net journal).phase }
{
    law_hierarchy::walk_drains::<Real>();
}

/// A legal run of a sound net is short, and its stamps are low.
pub fn low()
    ensures { (net : NetParts) (journal : List EntryParts) → IsSound net → IsLegal net journal → StaysLow net journal }
{
    law_hierarchy::bounded::<Real>();
}

/// A whole run of a hierarchy puts each accepted publication once on each link to a master on the way to the top and on no other
/// such link, carries down only what is wanted there, gives its clients what flooding owes them, once, and nothing that it does not
/// allow, in the order of each publisher, by phase and in causal order, and what is settled on its way by each moment; no link carries
/// a publication twice, or more than flooding puts on it; deliveries go by the filters in force, and its length is bounded.
pub fn promise()
    ensures { (net : NetParts) (journal : List EntryParts) → IsWholeRun net journal → HierarchyPromise net journal }
{
    lawful();
    law_hierarchy::climbs_once::<Real>();
    law_hierarchy::goes_down::<Real>();
    law_hierarchy::in_force::<Real>();
    law_hierarchy::owed_once::<Real>();
    law_hierarchy::flood_owed_once::<Real>();
    law_hierarchy::delivered_by_phase::<Real>();
    law_hierarchy::causal_order::<Real>();
    law_hierarchy::settled_by::<Real>();
    law_hierarchy::never_twice::<Real>();
    law_hierarchy::economy::<Real>();
    law_hierarchy::delivered_allowed::<Real>();
    law_hierarchy::stable_inputs::<Real>();
    law_hierarchy::in_order::<Real>();
    law_hierarchy::bounded::<Real>();
    law_hierarchy::last_moment::<Real>();
}
