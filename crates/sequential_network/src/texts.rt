//! Writes the texts of messages, which have none on their way, for reports.
ghost use Rattle.std.specs.Prelude.{◌≡◌, ◌++◌, ◌<◌, ℕ, length, IfOk, OnOk};
ghost use Rattle.base.specs.Sets.{Has};
ghost use Rattle.base_order.specs.Order.{picked};
ghost use Rattle.net_tables.specs.Known.{known_publications};
ghost use Rattle.filter_text.specs.MessageText.{message_text, signed};
ghost use Rattle.server_spec.specs.Control.{wired};
ghost use Rattle.server_message.specs.Message.{IsLoad, represented};
ghost use Rattle.server_message.specs.Parts.{IsChange};
ghost use Rattle.sequential_network.specs.Last.{texts_of};

use base::{Cover, NoMemory};
use base_pool::Items;
use filter_covering::{Ad, Sub};
use filter_text::{MessageText, SentText, write_advert, write_filter};
use net_tables::Tables;
use server_message::{Load, SetChange};
use std::alloc::Global;

/// Puts a text between braces behind a sign at the end.
fn push_signed(out: &mut Vec<u8>, sign: u8, text: &[u8]) -> Result<(), NoMemory>
    ensures { OnOk result (out.new.items ≡ out.old.items ++ signed sign text.now) }
{
    out.push(b' ')?;
    out.push(sign)?;
    out.push(b'{')?;
    out.extend_from_slice(text)?;
    out.push(b'}')?;
    Ok(())
}

/// An item whose changes go over links: a filter or an advertisement.
trait Changing: Cover {
    ghost use Rattle.std.specs.Prelude.{◌≡◌, List, IfOk};
    ghost use Rattle.filter_constraints.specs.Constraint.{ConstraintParts};
    ghost use Rattle.filter_text.specs.FilterText.{constraints_text};

    /// Its constraints.
    ghost constraints: { Self → List ConstraintParts };

    /// Its text.
    fn text(&self, alloc: Global) -> Result<Vec<u8>, NoMemory>
        ensures { IfOk result (λ text. text.items ≡ constraints_text (constraints self.now)) };
}

impl Changing for Sub {
    ghost constraints = { λ filter. filter };

    fn text(&self, alloc: Global) -> Result<Vec<u8>, NoMemory> {
        write_filter(alloc, &self.0)
    }
}

impl Changing for Ad {
    ghost constraints = { λ advert. advert };

    fn text(&self, alloc: Global) -> Result<Vec<u8>, NoMemory> {
        write_advert(alloc, &self.0)
    }
}

/// Puts the items with these numbers at the end, each behind the sign.
fn push_items<T: Changing>(
    alloc: Global,
    out: &mut Vec<u8>,
    sign: u8,
    items: &Items<T>,
    numbers: &[u32],
) -> Result<(), NoMemory>
    requires { (i : ℕ) → Has i numbers.now → i < length items.now }
    ensures { OnOk result (out.new.items ≡ out.old.items ++ texts_of T.constraints sign (picked items.now numbers.now)) }
{
    for number in numbers {
        let text = items.at(*number as usize).text(alloc)?;
        push_signed(out, sign, &text)?;
    }
    Ok(())
}

/// The text of a change of items, behind the word of their sort.
fn change_text<T: Changing>(
    alloc: Global,
    word: &[u8],
    items: &Items<T>,
    change: &SetChange,
) -> Result<SentText, NoMemory>
    requires { IsChange (length items.now) change.now }
    ensures { IfOk result (λ text. text ≡ word.now ++ (texts_of T.constraints 45 (picked items.now change.now.withdrawn)
        ++ texts_of T.constraints 43 (picked items.now change.now.added))) }
{
    let mut text = word.to_vec(alloc)?;
    push_items(alloc, &mut text, b'-', items, change.withdrawn())?;
    push_items(alloc, &mut text, b'+', items, change.added())?;
    Ok(SentText::written(text))
}

/// The text of the publication with a number, which is written where it is shown.
fn publication_text(alloc: Global, tables: &Tables<'_>, number: u32) -> Result<SentText, NoMemory>
    requires { number < length (known_publications 1 tables.now.clients) }
    ensures { IfOk result (λ text. text ≡ message_text (wired (represented tables.now (Load.Publication number)))) }
{
    tables.lemma_delivered(number);
    let publication = &tables.catalogue().publications()[number as usize];
    let notice = publication.notice.copy(alloc)?;
    let message = MessageText::Notice {
        id: publication.id,
        notice,
    };
    Ok(SentText::of_message(message))
}

/// The text of what a message carries in the run of these tables.
#[tactic(auto, unfolding(filter_text::specs::MessageText::message_text, filter_text::specs::MessageText::changes_text))]
pub(crate) fn text_of(alloc: Global, tables: &Tables<'_>, load: &Load) -> Result<SentText, NoMemory>
    requires { IsLoad tables.now load.now }
    ensures { IfOk result (λ text. text ≡ message_text (wired (represented tables.now load.now))) }
{
    match load {
        Load::Publication(number) => publication_text(alloc, tables, *number),
        Load::Filters(change) => change_text(alloc, b"subs", tables.filter_items(), change),
        Load::Adverts(change) => change_text(alloc, b"advs", tables.advert_items(), change),
    }
}
