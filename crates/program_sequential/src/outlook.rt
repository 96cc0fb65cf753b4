//! What comes to a client of all publications of a document, and the answer to each question of `explain`.
ghost use Rattle.std.specs.Prelude.{◌≡◌, ℕ, List, [], IfOk};
ghost use Rattle.net_model.specs.Sound.{IsSound};
ghost use Rattle.output_explain.specs.Asked.{IsNamed};
ghost use Rattle.output_explain.specs.Prospects.{AreProspects, prospects_text};
ghost use Rattle.program_sequential.specs.Showing.{printed_parts};
ghost use Rattle.program_sequential.specs.Explaining.{ExplainsInput, ListsNet};
ghost use Rattle.program_sequential.specs.declared.subject.Subject.TheVariants.{Client};

use crate::body::Body;
use crate::explanation::of_question;
use crate::printed::Printed;
use crate::reading::net;
use crate::subject::{ClientName, Subject};
use crate::unanswered::Unanswered;
use crate::unknown::Unknown;
use base::NoMemory;
use net_model::Net;
use output_explain::{Prospect, prospects, prospects_text};
use std::alloc::Global;

// What is printed of prospects.
fn printed(alloc: Global, net: &Net, list: &[Prospect]) -> Result<Printed, NoMemory>
    ensures { IfOk result (λ p. p ≡ printed_parts Body.Nothing (prospects_text net.now.clients list.now) []) }
{
    let text = prospects_text(alloc, &net.clients, list)?;
    Printed::alone(alloc, text)
}

// The answer that lists the prospects of a client.
fn shown(alloc: Global, net: &Net, list: &[Prospect]) -> Result<Printed, Unanswered>
    ensures { (name : List ℕ) (number : ℕ) → IsNamed net.now name number → AreProspects net.now number list.now → ListsNet name net.now result }
{
    match printed(alloc, net, list) {
        Ok(printed) => Ok(printed),
        Err(NoMemory) => Err(Unanswered::NoMemory),
    }
}

// What comes to the client of a name, by a net.
fn listed(alloc: Global, net: &Net, name: &[u8]) -> Result<Printed, Unanswered>
    requires { IsSound net.now }
    ensures { ListsNet name.now net.now result }
{
    match prospects(alloc, net, name) {
        Ok(Some(list)) => shown(alloc, net, &list),
        Ok(None) => Err(Unanswered::Unknown {
            kind: Unknown::Client,
        }),
        Err(NoMemory) => Err(Unanswered::NoMemory),
    }
}

// What comes to a client, of the document of an input.
fn of_client(alloc: Global, bytes: &[u8], client: &ClientName<'_>) -> Result<Printed, Unanswered>
    ensures { ExplainsInput (Client client.now) bytes.now result }
{
    let net = match net(alloc, bytes) {
        Ok(net) => net,
        Err(fault) => return Err(Unanswered::from(fault)),
    };
    listed(alloc, &net, client.bytes())
}

/// What is explained of the document of an input, or why nothing is written.
pub fn of_subject(alloc: Global, bytes: &[u8], subject: &Subject<'_>) -> Result<Printed, Unanswered>
    ensures { ExplainsInput subject.now bytes.now result }
{
    match subject {
        Subject::Publication(question) => of_question(alloc, bytes, question),
        Subject::Client(client) => of_client(alloc, bytes, client),
    }
}
