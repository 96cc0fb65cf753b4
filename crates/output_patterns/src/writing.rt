//! Writes the lines of what patterns find to a sink. No call takes memory.
ghost use Rattle.std.specs.Prelude.{◌≡◌, ◌<◌, ◌^◌, ◌++◌, ◌∷◌, [], ℕ, List, length, true};
ghost use Rattle.std.specs.List.{flat_map};
ghost use Rattle.std.specs.Fmt.{decimal};
ghost use Rattle.std.specs.Option.{option_copied};
ghost use Rattle.base_devices.specs.Pending.{outlet, Went};
ghost use Rattle.net_inbox.specs.Inbox.{in_order};
ghost use Rattle.output_patterns.specs.Scan.{all_occurrences};
ghost use Rattle.output_patterns.specs.Published.{ArePublished, is_published, notice_at, notices_of};
ghost use Rattle.output_patterns.specs.Found.{found_line, heard_in, id_text, pattern_line, pattern_text, place_text};

use crate::Detector;
use crate::published::{name_at, notice_at};
use crate::searched::Searched;
use base_devices::{Pending, Sink};
use filter_text::{Id, Lists};
use filter_types::Notice;
use filter_values::Name;
use itoa::Buffer;
use net_inbox::{Inbox, Received};

// A number in decimal.
fn put_number<K: Sink>(out: &mut Pending, sink: &mut K, number: u64)
    ensures { Went (outlet (K.state sink.old) out.old) (outlet (K.state sink.new) out.new) (decimal number) }
{
    let mut buffer = Buffer::new();
    out.put(sink, buffer.format(number).as_bytes())
}

// A publication.
fn put_id<K: Sink>(out: &mut Pending, sink: &mut K, names: &[Name], id: Id)
    ensures { Went (outlet (K.state sink.old) out.old) (outlet (K.state sink.new) out.new) (id_text names.now id) }
{
    out.put(sink, b" ");
    out.put(sink, name_at(names, id.publisher));
    out.put(sink, b" ");
    put_number(out, sink, u64::from(id.ordinal))
}

// What a client received, with the names of those who published it.
#[derive(Clone, Copy)]
struct Heard<'a> {
    names: &'a [Name],
    received: Received<'a>,
}

// The publication of the delivery at a place.
fn put_place<K: Sink>(out: &mut Pending, sink: &mut K, heard: Heard<'_>, place: u64)
    ensures { Went (outlet (K.state sink.old) out.old) (outlet (K.state sink.new) out.new)
        (place_text heard.entry.names.now (in_order heard.entry.received) place) }
{
    let Some(at) = place.checked_sub(1) else {
        return;
    };
    let numbers = heard.received.numbers;
    if at as usize >= numbers.len() {
        return;
    }
    let delivery = heard.received.deliveries.at(numbers[at as usize]);
    put_id(out, sink, heard.names, delivery.id)
}

// The line of a pattern.
fn put_head<K: Sink>(out: &mut Pending, sink: &mut K, names: &[Name], client: u32, label: &Name)
    ensures { Went (outlet (K.state sink.old) out.old) (outlet (K.state sink.new) out.new)
        (pattern_line names.now client label.now) }
{
    out.put(sink, b"pattern ");
    out.put(sink, name_at(names, client));
    out.put(sink, b" ");
    out.put(sink, label.bytes());
    out.put(sink, b"\n")
}

// The line of an occurrence.
fn put_occurrence<K: Sink>(out: &mut Pending, sink: &mut K, heard: Heard<'_>, places: &[u64])
    ensures { Went (outlet (K.state sink.old) out.old) (outlet (K.state sink.new) out.new)
        (found_line heard.entry.names.now (in_order heard.entry.received) places.now) }
{
    out.put(sink, b"found");
    for place in places {
        put_place(out, sink, heard, *place);
    }
    out.put(sink, b"\n")
}

// Feeds the next notice, and puts the line of the occurrence that ends with it, if one does.
fn put_next<K: Sink>(
    out: &mut Pending,
    sink: &mut K,
    heard: Heard<'_>,
    detector: &mut Detector,
    notice: &Notice,
)
    requires some { 0 < length detector.old.steps }
    requires few { length detector.old.fed < 2 ^ 63 }
    ensures steps { detector.new.steps ≡ detector.old.steps }
    ensures fed { detector.new.fed ≡ detector.old.fed ++ notice.now ∷ [] }
    ensures went { (line : List ℕ)
        × Went (outlet (K.state sink.old) out.old) (outlet (K.state sink.new) out.new) line
        × (flat_map (found_line heard.entry.names.now (in_order heard.entry.received)) (all_occurrences detector.old.steps (detector.old.fed ++ notice.now ∷ []))
        ≡ flat_map (found_line heard.entry.names.now (in_order heard.entry.received)) (all_occurrences detector.old.steps detector.old.fed) ++ line) }
{
    if detector.feed(notice) {
        put_occurrence(out, sink, heard, detector.places());
    }
}

// The lines of all occurrences in the deliveries, in one pass.
fn put_occurrences<K: Sink>(
    out: &mut Pending,
    sink: &mut K,
    heard: Heard<'_>,
    notices: &[Lists<Notice>],
    mut detector: Detector,
)
    requires some { 0 < length detector.steps }
    requires nothing { detector.fed ≡ [] }
    requires published { ArePublished notices.now (in_order heard.received) }
    ensures { Went (outlet (K.state sink.old) out.old) (outlet (K.state sink.new) out.new)
        (flat_map (found_line heard.entry.names.now (in_order heard.entry.received))
        (all_occurrences detector.steps (notices_of notices.now (in_order heard.entry.received)))) }
{
    for number in heard.received.numbers {
        let id = heard.received.deliveries.at(*number).id;
        put_next(out, sink, heard, &mut detector, notice_at(notices, id));
    }
}

/// A pattern, and a line for each of all its occurrences in what its client received.
pub fn put_pattern<K: Sink>(
    out: &mut Pending,
    sink: &mut K,
    names: &[Name],
    notices: &[Lists<Notice>],
    inbox: Option<&Inbox>,
    pattern: Searched,
)
    requires { ArePublished notices.now (heard_in (option_copied inbox)) }
    ensures { Went (outlet (K.state sink.old) out.old) (outlet (K.state sink.new) out.new)
        (pattern_text names.now notices.now (heard_in (option_copied inbox.entry)) pattern) }
{
    let Searched {
        client,
        label,
        detector,
    } = pattern;
    put_head(out, sink, names, client, &label);
    match inbox {
        Some(inbox) => {
            let received = inbox.received();
            put_occurrences(out, sink, Heard { names, received }, notices, detector)
        }
        None => {}
    }
}
