//! What flooding brings, line by line on its way to a sink. What writing wants is made before it, so it takes no memory.
ghost use Rattle.std.specs.Prelude.{◌≡◌, length};
ghost use Rattle.base_devices.specs.Pending.{outlet, Went};
ghost use Rattle.output_report.specs.Flood.{row_word, row_line, flood_section, flood_sections};

use crate::publish::{text_at, texts_in};
use crate::writing::{put_client, put_publication, put_refused};
use base::NoMemory;
use base_devices::{Pending, Sink};
use filter_text::{Bytes, Lists};
use net_model::{Client, Net};
use output_flood::{Owed, OwedRow};
use std::alloc::Global;
use std::marker::Model;

// The word of a row.
fn row_word(must: bool) -> &'static [u8]
    ensures { result.now ≡ row_word must }
{
    if must { b"deliver " } else { b"may " }
}

/// What flooding brings, kept until it is written. Contracts see its text.
#[derive(Drop)]
pub struct Flooded {
    net: Net,
    owed: Owed,
    texts: Vec<Lists<Bytes>>,
}

impl Model for Flooded {
    ghost use Rattle.std.specs.Prelude.{◌≡◌, ℕ, List, length};
    ghost use Rattle.output_report.specs.Published.{texts_in};
    ghost use Rattle.output_report.specs.Flood.{flood_text};

    ghost Value = { List ℕ };

    ghost view = { λ f. flood_text f.net f.owed.refused.items f.owed.rows.items };

    ghost invariant = { λ f. (length f.owed.refused.items ≡ length f.net.clients) × (length f.owed.rows.items ≡ length f.net.clients)
        × (f.texts.items ≡ texts_in f.net.clients) };
}

// The clients, with the texts of what they publish.
#[derive(Clone, Copy)]
struct Published<'a> {
    clients: &'a [Client],
    texts: &'a [Lists<Bytes>],
}

// The line of a row.
#[tactic(auto, unfolding(crate::specs::Flood::row_line))]
fn put_row<K: Sink>(out: &mut Pending, sink: &mut K, published: Published<'_>, row: &OwedRow)
    ensures { Went (outlet (K.state sink.old) out.old) (outlet (K.state sink.new) out.new)
        (row_line published.entry.clients.now published.entry.texts.now row.now) }
{
    put_publication(
        out,
        sink,
        row_word(row.must),
        published.clients,
        row.id,
        text_at(published.texts, row.id),
    )
}

// A client with its refused publishes and its rows, in their order.
fn put_section<K: Sink>(
    out: &mut Pending,
    sink: &mut K,
    published: Published<'_>,
    client: &Client,
    refused: &[u32],
    rows: &[OwedRow],
)
    ensures { Went (outlet (K.state sink.old) out.old) (outlet (K.state sink.new) out.new)
        (flood_section published.entry.clients.now published.entry.texts.now client.now refused.now rows.now) }
{
    put_client(out, sink, &client.name);
    put_refused(out, sink, refused);
    for row in rows {
        put_row(out, sink, published, row);
    }
}

// All clients in their order.
fn put_sections<K: Sink>(
    out: &mut Pending,
    sink: &mut K,
    published: Published<'_>,
    refused: &[Lists<u32>],
    rows: &[Lists<OwedRow>],
)
    requires refused { length refused.now ≡ length published.clients.now }
    requires rows { length rows.now ≡ length published.clients.now }
    ensures { Went (outlet (K.state sink.old) out.old) (outlet (K.state sink.new) out.new)
        (flood_sections published.entry.clients.now published.entry.texts.now published.entry.clients.now refused.now rows.now) }
{
    for (i, client) in published.clients.iter().enumerate() {
        put_section(
            out,
            sink,
            published,
            client,
            refused[i].as_slice(),
            rows[i].as_slice(),
        );
    }
}

impl Flooded {
    ghost use Rattle.std.specs.Prelude.{◌≡◌, length, IfOk};
    ghost use Rattle.output_report.specs.Flood.{flood_text};

    /// What flooding brings to the clients of a net, with the texts of what they publish.
    pub fn make(alloc: Global, net: Net, owed: Owed) -> Result<Flooded, NoMemory>
        requires refused { length owed.refused.items ≡ length net.clients }
        requires rows { length owed.rows.items ≡ length net.clients }
        ensures { IfOk result (λ flooded. flooded ≡ flood_text net owed.refused.items owed.rows.items) }
    {
        let texts = texts_in(alloc, &net.clients)?;
        Ok(Flooded { net, owed, texts })
    }

    /// Puts the text behind what waits: client by client in the order of the net its refused publishes, a line `deliver` for
    /// each publication that is owed to it and `may` for each that is allowed and not owed, by publisher and ordinal. It
    /// takes no memory.
    pub fn put<K: Sink>(&self, out: &mut Pending, sink: &mut K)
        ensures { Went (outlet (K.state sink.old) out.old) (outlet (K.state sink.new) out.new) self.now }
    {
        let published = Published {
            clients: &self.net.clients,
            texts: &self.texts,
        };
        put_sections(out, sink, published, &self.owed.refused, &self.owed.rows)
    }
}
