//! Why a client gets a publication of a document, or doesn't.
ghost use Rattle.std.specs.Prelude.{◌≡◌, ◌++◌, IfOk};
ghost use Rattle.std.specs.Option.{option_copied};
ghost use Rattle.net_inbox.specs.Inbox.{in_order};
ghost use Rattle.net_model.specs.Sound.{IsSound};
ghost use Rattle.output_explain.specs.Text.{explanation_text};
ghost use Rattle.program_sequential.specs.Explanations.{deliveries_in, is_received, received_at, walk_line};
ghost use Rattle.program_sequential.specs.Promise.{is_id};
ghost use Rattle.program_sequential.specs.Explaining.{ExplainsInput, ExplainsNet, IsTold};
ghost use Rattle.program_sequential.specs.declared.subject.Subject.TheVariants.{Publication};

use crate::body::Body;
use crate::law::lemma_promise;
use crate::printed::Printed;
use crate::question::Question;
use crate::ran::walked;
use crate::reading::net;
use crate::unanswered::Unanswered;
use base::NoMemory;
use filter_text::{Delivery, Id};
use net_inbox::{Inbox, Received};
use net_journal::Ran;
use net_model::Net;
use output_explain::{Explanation, explain, explanation_text};
use sequential_network::Passed;
use std::alloc::Global;

// Whether a delivery is of a publication.
fn is_of(id: Id, delivery: &Delivery<'_>) -> bool
    ensures { result ≡ is_id id delivery.now.id }
{
    id.publisher == delivery.id.publisher && id.ordinal == delivery.id.ordinal
}

// Whether a publication is among what was received.
fn is_received(id: Id, received: Received<'_>) -> bool
    ensures { result ≡ is_received id (in_order received.entry) }
{
    for number in received.numbers {
        let delivery = received.deliveries.at(*number);
        if is_of(id, &delivery) {
            return true;
        }
    }
    false
}

// What the client of a number, from 1, received, where there is one.
fn inbox_at(received: &[Inbox], client: u32) -> Option<&Inbox>
    ensures { deliveries_in (option_copied result) ≡ received_at received.now client }
{
    let place = client.checked_sub(1)?;
    received.get(place as usize)
}

// Whether a publication is in an inbox, where there is one.
fn is_in(id: Id, inbox: Option<&Inbox>) -> bool
    ensures { result ≡ is_received id (deliveries_in (option_copied inbox.entry)) }
{
    match inbox {
        Some(inbox) => is_received(id, inbox.received()),
        None => false,
    }
}

// The line on the walk.
fn walk_line(delivered: bool) -> &'static [u8]
    ensures { result.now ≡ walk_line delivered }
{
    if delivered {
        b"walk delivers it\n"
    } else {
        b"walk does not deliver it\n"
    }
}

// The text of an explanation and of whether it was delivered.
fn told_text(
    alloc: Global,
    net: &Net,
    received: &[Inbox],
    explanation: &Explanation,
) -> Result<Vec<u8>, NoMemory>
    ensures { IfOk result (λ text. text.items ≡ explanation_text net.now.clients explanation.now
        ++ walk_line (is_received explanation.now.id (received_at received.now explanation.now.client))) }
{
    let delivered = is_in(explanation.id, inbox_at(received, explanation.client));
    let mut text = explanation_text(alloc, &net.clients, explanation)?;
    text.extend_from_slice(walk_line(delivered))?;
    Ok(text)
}

// What is printed of an explanation and of the walk.
fn told(alloc: Global, net: &Net, explanation: &Explanation) -> Result<Printed, NoMemory>
    requires sound { IsSound net.now }
    ensures { IfOk result (λ p. IsTold net.now explanation.now p.text p.journal) }
{
    let Ran {
        journal,
        refused: _,
        received,
    } = walked::<Passed>(alloc, net)?;
    let text = told_text(alloc, net, &received, explanation)?;
    Printed::make(alloc, Body::Nothing, text, journal)
}

// The answer to a question by a net.
fn explained(alloc: Global, net: &Net, question: &Question<'_>) -> Result<Printed, Unanswered>
    requires sound { IsSound net.now }
    ensures { ExplainsNet question.now net.now result }
{
    let answer = explain(
        alloc,
        net,
        question.client(),
        question.publisher(),
        question.ordinal(),
    );
    let explanation = match answer {
        Ok(explanation) => explanation,
        Err(fault) => return Err(Unanswered::from(fault)),
    };
    match told(alloc, net, &explanation) {
        Ok(printed) => Ok(printed),
        Err(NoMemory) => Err(Unanswered::NoMemory),
    }
}

/// The answer to a question about the document of an input, or why nothing is written.
pub fn of_question(
    alloc: Global,
    bytes: &[u8],
    question: &Question<'_>,
) -> Result<Printed, Unanswered>
    ensures { ExplainsInput (Publication question.now) bytes.now result }
{
    lemma_promise();
    let net = match net(alloc, bytes) {
        Ok(net) => net,
        Err(fault) => return Err(Unanswered::from(fault)),
    };
    explained(alloc, &net, question)
}
