//! The type of the catalogue of a net: filters, advertisements and publications by number.
ghost use Rattle.std.specs.Prelude.{◌≡◌, IfOk};
ghost use Rattle.net_model.specs.Sound.{IsSound};
ghost use Rattle.net_tables.specs.Known.{known_filters};

use crate::named;
use crate::numbered::NumberedCommand;
use crate::publication::Publication;
use crate::scripts::{Numbers, number_all};
use base::NoMemory;
use base_bits::Row;
use base_pool::Items;
use filter_covering::{Ad, Sub};
use filter_text::Lists;
use match_filters::{Matcher, MatcherBuilder, Scratch};
use net_model::Net;
use std::alloc::Global;
use std::marker::Model;

/// What a run knows of its net before its first step: each filter and each advertisement of all scripts once, numbered in
/// canonical order; each publication, numbered by publisher and ordinal; and the scripts by these numbers. It never changes,
/// and all that is asked of it is a function of the net, which contracts see.
pub struct Catalogue<'a> {
    net: &'a Net,
    filters: Items<Sub>,
    adverts: Items<Ad>,
    publications: Vec<Publication>,
    scripts: Vec<Lists<(u32, NumberedCommand)>>,
    matcher: Matcher,
}

impl Drop for Catalogue<'_> {
    fn drop(self) {
        let Self {
            net: _,
            filters: _,
            adverts: _,
            publications: _,
            scripts: _,
            matcher: _,
        } = self;
    }
}

impl<'a> Model for Catalogue<'a> {
    ghost use Rattle.net_model.specs.Parts.{NetParts};
    ghost use Rattle.std.specs.Prelude.{◌≡◌};
    ghost use Rattle.net_tables.specs.Numbered.{IsCatalogue};
    ghost use Rattle.net_tables.specs.Numbering.{catalogue_of};

    ghost Value = { NetParts };

    ghost view = { λ c. c.net.now };

    ghost invariant = { λ c. IsCatalogue c.net.now (catalogue_of c.filters c.adverts c.publications.items) c.scripts.items
        × (c.matcher ≡ c.filters) };
}

// A matcher of the filters of a sound net.
fn matcher_of(alloc: Global, net: &Net, filters: &Items<Sub>) -> Result<Matcher, NoMemory>
    requires sound { IsSound net.now }
    requires filters { filters.now ≡ known_filters net.now.clients }
    ensures { IfOk result (λ matcher. matcher ≡ filters.now) }
{
    let _ = net;
    let mut builder = MatcherBuilder::new(alloc);
    for i in 0..filters.len() {
        builder.put(&filters.at(i).0)?;
    }
    builder.build()
}

impl<'a> Catalogue<'a> {
    ghost use Rattle.std.specs.Prelude.{◌≡◌, ◌<◌, ◌≤◌, length, slice_get, Some, IfOk, OnOk, OnErr};
    ghost use Rattle.base.specs.Sets.{IsRising};
    ghost use Rattle.filter_types.specs.Before.{list_before};
    ghost use Rattle.net_model.specs.Sound.{IsSound};
    ghost use Rattle.net_tables.specs.Known.{PublicationParts, known_filters, known_adverts, known_publications};
    ghost use Rattle.match_filters.specs.Matching.{matched};
    ghost use Rattle.net_tables.specs.Numbered.{AllNumbered, catalogued};

    /// The catalogue of a net.
    pub fn of(alloc: Global, net: &'a Net) -> Result<Catalogue<'a>, NoMemory>
        requires { IsSound net.now }
        ensures { IfOk result (λ catalogue. catalogue ≡ net.now) }
    {
        let filters = named::filters(alloc, &net.clients)?;
        let adverts = named::adverts(alloc, &net.clients)?;
        let mut numbers = Numbers {
            filters: &filters.numbers,
            adverts: &adverts.numbers,
        };
        let mut publications = Vec::new(alloc);
        let scripts = number_all(alloc, &mut numbers, &mut publications, &net.clients)?;
        let matcher = matcher_of(alloc, net, &filters.items)?;
        Ok(Catalogue {
            net,
            filters: filters.items,
            adverts: adverts.items,
            publications,
            scripts,
            matcher,
        })
    }

    /// Does nothing; its contract says what each catalogue keeps: its net is sound, it has few items, and they rise.
    pub fn lemma_sound(&self)
        ensures sound { IsSound self.now }
        ensures few_filters { length (known_filters self.now.clients) ≤ 4096 }
        ensures few_adverts { length (known_adverts self.now.clients) ≤ 4096 }
        ensures few_publications { length (known_publications 1 self.now.clients) ≤ 100000 }
        ensures filters { IsRising list_before (known_filters self.now.clients) }
        ensures adverts { IsRising list_before (known_adverts self.now.clients) }
    {
        let _ = &self.net;
    }

    /// The net.
    pub fn net(&self) -> &'a Net
        ensures { result.now ≡ self.now }
    {
        self.net
    }

    /// The filters in the order of their numbers.
    pub fn filters(&self) -> &Items<Sub>
        ensures { result.now ≡ known_filters self.now.clients }
    {
        &self.filters
    }

    /// The advertisements in the order of their numbers.
    pub fn adverts(&self) -> &Items<Ad>
        ensures { result.now ≡ known_adverts self.now.clients }
    {
        &self.adverts
    }

    /// The publications in the order of their numbers: by publisher and ordinal.
    pub fn publications(&self) -> &[Publication]
        ensures { result.now ≡ known_publications 1 self.now.clients }
    {
        &self.publications
    }

    /// The scripts of all clients by numbers, in the order of the net.
    pub fn scripts(&self) -> &[Lists<(u32, NumberedCommand)>]
        ensures { AllNumbered (catalogued self.now.clients) 1 result.now self.now.clients }
    {
        &self.scripts
    }

    /// What finds which filters a notice matches, by their numbers.
    pub fn matcher(&self) -> &Matcher
        ensures { result.now ≡ known_filters self.now.clients }
    {
        &self.matcher
    }
}
