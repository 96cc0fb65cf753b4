//! How the filters and advertisements of a net are related, as rows that are made where they are asked for.
ghost use Rattle.std.specs.Prelude.{◌≡◌, ◌<◌, ◌^◌, length, IfOk};
ghost use Rattle.filter_types.specs.Cover.{overlaps};
ghost use Rattle.net_tables.specs.Related.{overlap_row, overlap_rows};

use crate::catalogue::Catalogue;
use crate::words::text_words;
use base::NoMemory;
use base_bits::Row;
use base_order::{Order, put_if};
use base_pool::Items;
use filter_covering::{Ad, Sub};
use filter_types::{Advert, overlaps};
use std::alloc::Global;

// Whether the filter overlaps the advertisement.
fn is_met(sub: &Sub, advert: &Advert) -> bool
    ensures { result ≡ overlaps sub.now advert.now }
{
    overlaps(&sub.0, advert)
}

// The numbers of the filters that overlap an advertisement.
fn overlap_row(alloc: Global, filters: &Items<Sub>, advert: &Advert) -> Result<Row, NoMemory>
    requires { length filters.now < 2 ^ 32 }
    ensures { IfOk result (λ row. row ≡ overlap_row filters.now advert.now) }
{
    let mut row = Row::new(alloc, filters.len() as u32)?;
    for i in 0..filters.len() {
        let sub = filters.at(i);
        let holds = is_met(sub, advert);
        put_if(&mut row, i as u32, holds);
    }
    Ok(row)
}

// The same for each advertisement.
fn overlap_rows(
    alloc: Global,
    filters: &Items<Sub>,
    adverts: &Items<Ad>,
) -> Result<Vec<Row>, NoMemory>
    requires { length filters.now < 2 ^ 32 }
    ensures { IfOk result (λ rows. rows.items ≡ overlap_rows filters.now adverts.now) }
{
    let mut rows = Vec::with_capacity(alloc, adverts.len())?;
    for i in 0..adverts.len() {
        let ad = adverts.at(i);
        rows.push(overlap_row(alloc, filters, &ad.0)?)?;
    }
    Ok(rows)
}

impl<'a> Catalogue<'a> {
    ghost use Rattle.std.specs.Prelude.{◌≡◌, IfOk};
    ghost use Rattle.net_tables.specs.Known.{known_filters, known_adverts};
    ghost use Rattle.net_tables.specs.Related.{overlap_rows};

    /// The filters by their numbers, with the rows that say which covers which.
    pub fn filter_order(&self, alloc: Global) -> Result<Order<Sub>, NoMemory>
        ensures { IfOk result (λ order. order ≡ known_filters self.now.clients) }
    {
        self.lemma_sound();
        let words = text_words(alloc, self.filters())?;
        Order::narrowed(alloc, self.filters(), words)
    }

    /// The advertisements by their numbers, with the rows that say which covers which.
    pub fn advert_order(&self, alloc: Global) -> Result<Order<Ad>, NoMemory>
        ensures { IfOk result (λ order. order ≡ known_adverts self.now.clients) }
    {
        self.lemma_sound();
        Order::new(alloc, self.adverts())
    }

    /// For each advertisement the row of the numbers of the filters that overlap it.
    pub fn overlaps(&self, alloc: Global) -> Result<Vec<Row>, NoMemory>
        ensures { IfOk result (λ rows. rows.items ≡ overlap_rows (known_filters self.now.clients) (known_adverts self.now.clients)) }
    {
        self.lemma_sound();
        overlap_rows(alloc, self.filters(), self.adverts())
    }
}
