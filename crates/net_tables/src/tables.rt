//! The type of the tables of a run: the catalogue of its net with the rows of covering and overlap.
ghost use Rattle.std.specs.Prelude.{◌≡◌, ◌<◌, length, IfOk};
ghost use Rattle.net_model.specs.Sound.{IsSound};
ghost use Rattle.net_tables.specs.Known.{known_filters, known_adverts, known_publications};
ghost use Rattle.net_tables.specs.Related.{overlap_rows};
ghost use Rattle.net_tables.specs.Found.{IsFound, delivery_of, known_deliveries, publication_at};
ghost use Rattle.net_inbox.specs.Inbox.{delivery_at};
ghost use Rattle.filter_types.specs.Notice.{AreValues};
ghost use Rattle.filter_text.specs.MessageText.{IsId};
ghost use Rattle.filter_text.specs.NoticeText.{IsNoticeText};

use crate::Catalogue;
use crate::found::{deliveries, find_all};
use base::NoMemory;
use base_bits::{Row, Set, Sets};
use base_order::Order;
use base_pool::Items;
use filter_covering::{Ad, Sub};
use filter_text::Semantics;
use net_inbox::Deliveries;
use net_model::Net;
use std::alloc::Global;
use std::marker::Model;

/// The catalogue of a net, for its filters and advertisements the rows that say which covers which and which overlap, and
/// each publication with the filters that it matches. Contracts see the net, of which all is a function.
#[derive(Drop)]
pub struct Tables<'a> {
    catalogue: Catalogue<'a>,
    filters: Order<Sub>,
    adverts: Order<Ad>,
    overlaps: Vec<Row>,
    deliveries: Deliveries,
    matched: Sets,
}

impl<'a> Model for Tables<'a> {
    ghost use Rattle.net_model.specs.Parts.{NetParts};
    ghost use Rattle.net_tables.specs.Tables.{AreTables};
    ghost use Rattle.net_tables.specs.Found.{AreFound};

    ghost Value = { NetParts };

    ghost view = { λ t. t.catalogue };

    ghost invariant = { λ t. AreTables t.catalogue t.filters t.adverts t.overlaps.items × AreFound t.catalogue t.deliveries t.matched.rows };
}

impl<'a> Tables<'a> {
    /// The tables of a net. All their memory is taken here.
    pub fn of(alloc: Global, net: &'a Net) -> Result<Tables<'a>, NoMemory>
        requires { IsSound net.now }
        ensures { IfOk result (λ tables. tables ≡ net.now) }
    {
        let catalogue = Catalogue::of(alloc, net)?;
        let filters = catalogue.filter_order(alloc)?;
        let adverts = catalogue.advert_order(alloc)?;
        let overlaps = catalogue.overlaps(alloc)?;
        let deliveries = deliveries(alloc, &net.clients, catalogue.publications())?;
        let matched = find_all(alloc, catalogue.matcher(), catalogue.publications())?;
        Ok(Tables {
            catalogue,
            filters,
            adverts,
            overlaps,
            deliveries,
            matched,
        })
    }

    /// The net.
    pub fn net(&self) -> &'a Net
        ensures { result.now ≡ self.now }
    {
        self.catalogue.net()
    }

    /// The catalogue.
    pub fn catalogue(&self) -> &Catalogue<'a>
        ensures { result.now ≡ self.now }
    {
        &self.catalogue
    }

    /// Whether advertisements steer the filters.
    pub fn semantics(&self) -> Semantics
        ensures { result ≡ self.now.semantics }
    {
        self.catalogue.net().semantics
    }

    /// Which filter covers which, by their numbers.
    pub fn filters(&self) -> &Order<Sub>
        ensures { result.now ≡ known_filters self.now.clients }
    {
        &self.filters
    }

    /// Which advertisement covers which, by their numbers.
    pub fn adverts(&self) -> &Order<Ad>
        ensures { result.now ≡ known_adverts self.now.clients }
    {
        &self.adverts
    }

    /// The filters themselves.
    pub fn filter_items(&self) -> &Items<Sub>
        ensures { result.now ≡ known_filters self.now.clients }
    {
        self.catalogue.filters()
    }

    /// The advertisements themselves.
    pub fn advert_items(&self) -> &Items<Ad>
        ensures { result.now ≡ known_adverts self.now.clients }
    {
        self.catalogue.adverts()
    }

    /// For each advertisement the row of the filters that overlap it.
    pub fn overlaps(&self) -> &[Row]
        ensures { result.now ≡ overlap_rows (known_filters self.now.clients) (known_adverts self.now.clients) }
    {
        &self.overlaps
    }

    /// The publications as they are delivered, by their numbers.
    pub fn deliveries(&self) -> &Deliveries
        ensures { result.now ≡ known_deliveries self.now.clients }
    {
        &self.deliveries
    }

    /// The numbers of the filters that the publication with a number matches.
    pub fn matched(&self, number: u32) -> Set<'_>
        requires { number < length (known_publications 1 self.now.clients) }
        ensures { IsFound self.now (publication_at self.now number) result }
    {
        self.lemma_delivered(number);
        self.matched.at(number as usize)
    }

    /// Does nothing; its contract says what is delivered of the publication with a number: its id, which is in range, and the
    /// text of its notice.
    pub fn lemma_delivered(&self, number: u32)
        requires { number < length (known_publications 1 self.now.clients) }
        ensures delivery { delivery_at (known_deliveries self.now.clients) number ≡ delivery_of (publication_at self.now number) }
        ensures range { IsId (publication_at self.now number).id }
        ensures values { AreValues (publication_at self.now number).notice }
        ensures text { IsNoticeText (delivery_of (publication_at self.now number)).bytes (publication_at self.now number).notice }
    {
        self.catalogue.lemma_sound();
        let known = &self.catalogue.publications()[number as usize];
        let _ = known.notice.attributes();
    }
}
