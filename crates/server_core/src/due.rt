//! Makes the messages by which a change is announced on the links.
ghost use Rattle.std.specs.Prelude.{◌≡◌, ◌≢◌, ◌<◌, ◌≤◌, ◌++◌, ℕ, true, false, List, [], length, map, Some, slice_get, IfOk, OnOk};
ghost use Rattle.law_routing.specs.Server.{Message as Carried};
ghost use Rattle.net_model.specs.Real.{real};
ghost use Rattle.filter_text.specs.declared.semantics.Semantics.TheVariants.{Advertisement};
ghost use Rattle.server_stock.specs.Sides.{Announced};
ghost use Rattle.net_tables.specs.Known.{known_filters, known_adverts};
ghost use Rattle.server_message.specs.Parts.{onto, sent_by};
ghost use Rattle.server_core.specs.Due.{IsChangeOf};
ghost use Rattle.server_core.specs.Showing.{AnnouncesFilters, AnnouncesAdverts};

use base::{Cover, NoMemory};
use base_bits::Row;
use filter_covering::{Ad, Sub};
use net_tables::Tables;
use server_message::{Load, Message, Sending, SetChange};
use server_stock::Stock;
use std::alloc::Global;

/// Whether neither row has a member.
fn are_empty(one: &Row, other: &Row) -> bool
    ensures none { result ≡ true → (one.now.members ≡ []) × (other.now.members ≡ []) }
    ensures some { result ≡ false → (one.now.members ≡ []) × (other.now.members ≡ []) → ⊥ }
{
    one.is_empty() && other.is_empty()
}

/// What was announced on the link at a place, where something was.
fn change_at<'a, T: Cover>(
    alloc: Global,
    stock: &Stock<'a, T>,
    place: usize,
) -> Result<Option<SetChange>, NoMemory>
    requires { place < length stock.now.announced }
    ensures { (t : Announced) → slice_get stock.now.announced place ≡ Some t → IfOk result (IsChangeOf (length stock.now.items) t) }
{
    let withdrawn = stock.withdrawn(place);
    let added = stock.added(place);
    withdrawn.lemma_sorted();
    added.lemma_sorted();
    if are_empty(withdrawn, added) {
        return Ok(None);
    }
    let change = SetChange::of(alloc, withdrawn, added)?;
    Ok(Some(change))
}

/// Items of whose changes links are announced: filters or advertisements.
trait Telling: Cover {
    ghost use Rattle.std.specs.Prelude.{◌≡◌, List, length};
    ghost use Rattle.net_model.specs.Parts.{NetParts};
    ghost use Rattle.law_routing.specs.Server.{Message as Carried};
    ghost use Rattle.net_model.specs.Real.{real};
    ghost use Rattle.server_stock.specs.Sides.{Announced};
    ghost use Rattle.server_core.specs.Due.{IsChangeOf, IsCarried};

    /// What was announced on a link, by numbers of items, stands in a net for these messages.
    ghost announces: { NetParts → List Self → Announced → List (Carried real) → Type 0 };

    /// What a message carries of a change.
    fn load(change: Option<SetChange>) -> Option<Load>
        ensures { (net : NetParts) (items : List Self) (announced : Announced) (ms : List (Carried real)) → announces net items announced ms
            → IsChangeOf (length items) announced change → IsCarried net ms result };
}

impl Telling for Sub {
    ghost use Rattle.server_core.specs.Showing.{FiltersAnnounced};

    ghost announces = { FiltersAnnounced };

    fn load(change: Option<SetChange>) -> Option<Load> {
        Some(Load::Filters(change?))
    }
}

impl Telling for Ad {
    ghost use Rattle.server_core.specs.Showing.{AdvertsAnnounced};

    ghost announces = { AdvertsAnnounced };

    fn load(change: Option<SetChange>) -> Option<Load> {
        Some(Load::Adverts(change?))
    }
}

/// Puts the message at the end that was announced on the link at a place, if there is one.
fn put_announced<'a, T: Telling>(
    alloc: Global,
    tables: &'a Tables<'a>,
    to: u32,
    stock: &Stock<'a, T>,
    place: usize,
    sent: &mut Vec<Sending<'a>>,
) -> Result<(), NoMemory>
    requires place { place < length stock.now.announced }
    requires announced { (t : Announced) → slice_get stock.now.announced place ≡ Some t
        → (ms : List (Carried real)) × T.announces tables.now stock.now.items t ms }
    ensures { (t : Announced) (ms : List (Carried real)) → slice_get stock.now.announced place ≡ Some t → T.announces tables.now stock.now.items t ms
        → OnOk result (sent.new.items ≡ sent.old.items ++ map (onto tables.now to) ms) }
{
    let change = change_at(alloc, stock, place)?;
    let Some(load) = T::load(change) else {
        return Ok(());
    };
    let message = Message::of(tables, load);
    sent.push(Sending { to, message })?;
    Ok(())
}

/// The messages that were announced on filters, by link.
pub(crate) fn filter_messages<'a>(
    alloc: Global,
    tables: &'a Tables<'a>,
    links: &[u32],
    filters: &Stock<'a, Sub>,
) -> Result<Vec<Sending<'a>>, NoMemory>
    requires links { length links.now ≤ length filters.now.announced }
    requires items { filters.now.items ≡ known_filters tables.now.clients }
    requires announced { (p : ℕ) (t : Announced) → p < length links.now → slice_get filters.now.announced p ≡ Some t
        → (ms : List (Carried real)) × AnnouncesFilters filters.now.items t ms }
    ensures { (messages : ℕ → List (Carried real)) → ((p link : ℕ) (t : Announced) → slice_get links.now p ≡ Some link
        → slice_get filters.now.announced p ≡ Some t → AnnouncesFilters filters.now.items t (messages link))
        → IfOk result (λ sent. sent.items ≡ sent_by tables.now messages links.now) }
{
    let mut sent = Vec::new(alloc);
    for p in 0..links.len() {
        put_announced(alloc, tables, links[p], filters, p, &mut sent)?;
    }
    Ok(sent)
}

/// Under advertisement semantics the messages that were announced by link, on filters of the one that is the interface, on advertisements of the others.
pub(crate) fn advert_messages<'a>(
    alloc: Global,
    tables: &'a Tables<'a>,
    links: &[u32],
    interface: u32,
    filters: &Stock<'a, Sub>,
    adverts: &Stock<'a, Ad>,
) -> Result<Vec<Sending<'a>>, NoMemory>
    requires links { (length links.now ≤ length filters.now.announced) × (length links.now ≤ length adverts.now.announced) }
    requires filter_items { filters.now.items ≡ known_filters tables.now.clients }
    requires advert_items { adverts.now.items ≡ known_adverts tables.now.clients }
    requires steered { tables.now.semantics ≡ Advertisement }
    requires filters_announced { (p : ℕ) (t : Announced) → slice_get links.now p ≡ Some interface → slice_get filters.now.announced p ≡ Some t
        → (ms : List (Carried real)) × AnnouncesFilters filters.now.items t ms }
    requires adverts_announced { (p link : ℕ) (t : Announced) → slice_get links.now p ≡ Some link → link ≢ interface
        → slice_get adverts.now.announced p ≡ Some t → (ms : List (Carried real)) × AnnouncesAdverts adverts.now.items t ms }
    ensures { (messages : ℕ → List (Carried real)) → ((p : ℕ) (t : Announced) → slice_get links.now p ≡ Some interface
        → slice_get filters.now.announced p ≡ Some t → AnnouncesFilters filters.now.items t (messages interface))
        → ((p link : ℕ) (t : Announced) → slice_get links.now p ≡ Some link → link ≢ interface
        → slice_get adverts.now.announced p ≡ Some t → AnnouncesAdverts adverts.now.items t (messages link))
        → IfOk result (λ sent. sent.items ≡ sent_by tables.now messages links.now) }
{
    let mut sent = Vec::new(alloc);
    for p in 0..links.len() {
        let link = links[p];
        if link == interface {
            put_announced(alloc, tables, link, filters, p, &mut sent)?;
        } else {
            put_announced(alloc, tables, link, adverts, p, &mut sent)?;
        }
    }
    Ok(sent)
}
