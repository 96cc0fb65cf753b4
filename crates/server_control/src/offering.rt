//! Finds the filters that are wanted where some advertisements are held.
ghost use Rattle.std.specs.Prelude.{◌≡◌, ◌≢◌, ◌<◌, ℕ, [], length, filter, slice_get, Some};
ghost use Rattle.base.specs.Sets.{Has, roots};
ghost use Rattle.filter_types.specs.Cover.{filter_covers};
ghost use Rattle.filter_types.specs.Before.{list_before};
ghost use Rattle.filter_text.specs.declared.semantics.Semantics.TheVariants.{Advertisement};
ghost use Rattle.filter_text.specs.Messages.{Lists};
ghost use Rattle.server_stock.specs.Sides.{Announced};
ghost use Rattle.server_stock.specs.Stock.{held_from, held_elsewhere, sent, IsAnnounced};
ghost use Rattle.net_tables.specs.Related.{overlap_rows};
ghost use Rattle.server_control.specs.Control.{is_wanted, Offers};
ghost use Rattle.server_control.specs.Offering.{row_of, IsUnion};

use base_bits::Row;
use filter_covering::{Ad, Sub};
use server_stock::Stock;

/// Puts the members of each of these rows in whose number is held.
pub fn unite(held: &Row, rows: &[Row], row: &mut Row)
    requires held { held.now.width ≡ length rows.now }
    requires width { (a : ℕ) → a < length rows.now → (row_of rows.now a).width ≡ row.old.width }
    requires empty { row.old.members ≡ [] }
    ensures width { row.new.width ≡ row.old.width }
    ensures union { IsUnion held.now.members rows.now row.new.members }
{
    held.lemma_sorted();
    let mut at = 0;
    while let Some(a) = held.first_from(at) {
        row.insert_all(&rows[a as usize]);
        at = a + 1;
    }
}

/// Offers on the link of an interface, if it is one, what is wanted there now: the filters that overlap an advertisement
/// which is held from it. The row is made that of these.
pub(crate) fn offer_wanted<'a>(
    filters: &mut Stock<'a, Sub>,
    adverts: &Stock<'a, Ad>,
    overlaps: &[Row],
    interface: u32,
    row: &mut Row,
)
    requires rows { overlaps.now ≡ overlap_rows filters.old.items adverts.now.items }
    requires interface { Has interface adverts.now.interfaces }
    requires width { row.old.width ≡ length filters.old.items }
    requires others { (p link : ℕ) (offered : Lists) → slice_get filters.old.interfaces p ≡ Some link → link ≢ interface
        → slice_get filters.old.offered p ≡ Some offered
        → Offers Advertisement (held_from list_before link adverts.now.holdings) filters.old.items offered }
    ensures width { row.new.width ≡ row.old.width }
    ensures items { filters.new.items ≡ filters.old.items }
    ensures interfaces { filters.new.interfaces ≡ filters.old.interfaces }
    ensures holdings { filters.new.holdings ≡ filters.old.holdings }
    ensures links { length filters.new.announced ≡ length filters.old.announced }
    ensures wanted { (p link : ℕ) (offered : Lists) → slice_get filters.old.interfaces p ≡ Some link → slice_get filters.new.offered p ≡ Some offered
        → Offers Advertisement (held_from list_before link adverts.now.holdings) filters.old.items offered }
    ensures announced { (p : ℕ) (before : Lists) → p < length filters.old.announced → slice_get filters.old.interfaces p ≡ Some interface
        → slice_get filters.old.offered p ≡ Some before
        → (t : Announced) × (slice_get filters.new.announced p ≡ Some t) × IsAnnounced list_before filters.old.items
        (sent filter_covers list_before before interface filters.old.holdings)
        (roots filter_covers list_before (filter (is_wanted Advertisement (held_from list_before interface adverts.now.holdings))
        (held_elsewhere list_before interface filters.old.holdings))) t }
{
    filters.lemma_sound();
    if let Some(place) = filters.link_place(interface) {
        let Some(held) = adverts.held(interface) else {
            unreachable!()
        };
        row.clear();
        unite(held, overlaps, row);
        filters.offer(place, row);
    }
}
