//! Why clients get the publications of some documents, or don't: each line of an explanation, each verdict and each refusal.
//! And what comes to clients of all publications: each chance.
ghost use Rattle.net_model.specs.Sound.{IsSound};

use crate::nets::shown;
use crate::sound::net;
use net_model::Net;
use output_explain::{ExplainFault, explain, explanation_text, prospects, prospects_text};
use std::alloc::Global;
use test_support::Failure;

/// A question: a client, a publisher, and the number of a publication among the publisher's.
type Question = (&'static str, &'static str, u32);

/// A document with what it is for, questions about it, and the names of those of whom all is told.
struct Row {
    purpose: &'static str,
    document: &'static str,
    questions: &'static [Question],
    clients: &'static [&'static str],
}

const ROWS: [Row; 4] = [
    Row {
        purpose: "Filters in force throughout, over two links",
        document: "siena 1\nsemantics subscription\nservers 3\nedge 1 2\nedge 2 3\nclient brigade 1\nclient room 2\nclient attic 3\n\
            script brigade\nsubscribe kind str = \"smoke\"; level int >= 3\nscript room\nsubscribe floor int any\nscript attic\n\
            barrier\npublish kind str \"smoke\"; level int 2\npublish kind str \"smoke\"; level int 5\n",
        questions: &[
            ("brigade", "attic", 1),
            ("brigade", "attic", 2),
            ("room", "attic", 2),
            ("attic", "attic", 1),
            ("cellar", "attic", 1),
            ("brigade", "cellar", 1),
            ("brigade", "attic", 3),
            ("brigade", "room", 1),
        ],
        clients: &["brigade", "attic", "cellar"],
    },
    Row {
        purpose: "Filters that come and go in the phase of the publication",
        document: "siena 1\nsemantics subscription\nservers 1\nclient early 1\nclient late 1\nclient both 1\nclient p 1\n\
            script early\nsubscribe x int > 3\nbarrier\nunsubscribe x int > 3\nscript late\nbarrier\nsubscribe x int > 5\n\
            script both\nbarrier\nsubscribe x int < 9\nunsubscribe x int < 9\nbarrier\nsubscribe x int any\n\
            script p\nbarrier\npublish x int 7\n",
        questions: &[("early", "p", 1), ("late", "p", 1), ("both", "p", 1)],
        clients: &["early", "late", "p"],
    },
    Row {
        purpose: "Advertisements: refused, in force throughout, and only when it is published",
        document: "siena 1\nsemantics advertisement\nservers 1\nclient s 1\nclient p 1\nscript s\nsubscribe x int any\nscript p\n\
            advertise x int < 5; y int any\nbarrier\npublish x int 4\npublish x int 9\nadvertise x int any\npublish x int 9\n",
        questions: &[("s", "p", 1), ("s", "p", 2), ("s", "p", 3)],
        clients: &["s"],
    },
    Row {
        purpose: "A filter in the phase of a publication, in a part of it, and in other phases alone",
        document: "siena 1\nsemantics subscription\nservers 2\nedge 1 2\nclient q 1\nclient s 1\nclient p 2\n\
            script q\npublish x int 8\nscript s\nsubscribe x int > 3\nbarrier\nbarrier\nunsubscribe x int > 3\nscript p\n\
            barrier\npublish x int 7\nbarrier\npublish x int 7\nbarrier\npublish x int 7\npublish x int 3\n",
        questions: &[],
        clients: &["s"],
    },
];

/// Prints the explanation that answers a question, or why there is none.
fn print_answer(
    rt: &impl Print,
    alloc: Global,
    net: &Net,
    question: Question,
) -> Result<(), Failure>
    requires { IsSound net.now }
{
    let (client, publisher, number) = question;
    println!(rt; "{client} {publisher} {number}")?;
    match explain(alloc, net, client.as_bytes(), publisher.as_bytes(), number) {
        Ok(answer) => {
            let text = explanation_text(alloc, &net.clients, &answer)?;
            print!(rt; "{}", shown(&text))?;
        }
        Err(ExplainFault::NoMemory) => return Err(Failure::NoMemory),
        Err(fault) => println!(rt; "{}", shown(fault.means()))?,
    }
    Ok(())
}

/// Prints what comes to a client, or that there is none.
fn print_prospects(
    rt: &impl Print,
    alloc: Global,
    net: &Net,
    client: &'static str,
) -> Result<(), Failure>
    requires { IsSound net.now }
{
    println!(rt; "{client}")?;
    match prospects(alloc, net, client.as_bytes())? {
        Some(list) => {
            let text = prospects_text(alloc, &net.clients, &list)?;
            print!(rt; "{}", shown(&text))?;
        }
        None => println!(rt; "nobody")?,
    }
    Ok(())
}

/// Prints the answers to the questions about a document.
fn print_row(rt: &impl Print, alloc: Global, row: &Row) -> Result<(), Failure> {
    println!(rt; "{}", row.purpose)?;
    let net = net(alloc, row.document.as_bytes())?;
    for question in row.questions {
        print_answer(rt, alloc, &net, *question)?;
    }
    for client in row.clients {
        print_prospects(rt, alloc, &net, client)?;
    }
    println!(rt)?;
    Ok(())
}

/// Prints the answers to all questions.
pub fn print_explanations(rt: &impl Print, alloc: Global) -> Result<(), Failure> {
    for row in &ROWS {
        print_row(rt, alloc, row)?;
    }
    Ok(())
}
