//! Audits outputs of the program itself, and outputs that were changed.
use crate::row::Row;
use crate::tried::outcome;
use crate::usage::USAGE_LINE;
use std::alloc::Global;
use test_support::Failure;

/// Inputs that are audited.
pub const AUDITS: [Row; 14] = [
    Row {
        name: "The output of a walk",
        words: "audit",
        document: "siena 1\nsemantics subscription\nservers 1\nclient c1 1\nclient c2 1\nscript c1\n\
            subscribe x int = 7\nbarrier\nscript c2\nbarrier\npublish x int 7\npublish x int 5\n\
            output\nclient c1\ndeliver c2 1 x int 7\nclient c2\ntrace 4\n\
            entry 1 1 command c1\nentry 2 1 version\nentry 3 1 command c2\nentry 4 1 command c2\n",
        fault: "",
        text: "audit yes entries 4 owed 1 deliveries 1\n",
    },
    Row {
        name: "An output without its delivery",
        words: "audit",
        document: "siena 1\nsemantics subscription\nservers 1\nclient c1 1\nclient c2 1\nscript c1\n\
            subscribe x int = 7\nbarrier\nscript c2\nbarrier\npublish x int 7\npublish x int 5\n\
            output\nclient c1\nclient c2\ntrace 4\n\
            entry 1 1 command c1\nentry 2 1 version\nentry 3 1 command c2\nentry 4 1 command c2\n",
        fault: "siena: audit: line 15: differs\n",
        text: "",
    },
    Row {
        name: "A trace without its version",
        words: "audit",
        document: "siena 1\nsemantics subscription\nservers 1\nclient c1 1\nclient c2 1\nscript c1\n\
            subscribe x int = 7\nbarrier\nscript c2\nbarrier\npublish x int 7\npublish x int 5\n\
            output\nclient c1\ndeliver c2 1 x int 7\nclient c2\ntrace 3\n\
            entry 1 1 command c1\nentry 3 1 command c2\nentry 4 1 command c2\n",
        fault: "siena: audit: line 19: badturn\n",
        text: "",
    },
    Row {
        name: "A document without an output",
        words: "audit",
        document: "siena 1\nsemantics subscription\nservers 1\nclient c1 1\nclient c2 1\nscript c1\n\
            subscribe x int = 7\nbarrier\nscript c2\nbarrier\npublish x int 7\npublish x int 5\n",
        fault: "siena: audit: line 13: form\n",
        text: "",
    },
    Row {
        name: "An output without its trace",
        words: "audit",
        document: "siena 1\nsemantics subscription\nservers 1\nclient c1 1\nclient c2 1\nscript c1\n\
            subscribe x int = 7\nbarrier\nscript c2\nbarrier\npublish x int 7\npublish x int 5\n\
            output\nclient c1\ndeliver c2 1 x int 7\nclient c2\n",
        fault: "siena: audit: line 17: form\n",
        text: "",
    },
    Row {
        name: "A count with a leading zero",
        words: "audit",
        document: "siena 1\nsemantics subscription\nservers 1\nclient c1 1\nclient c2 1\nscript c1\n\
            subscribe x int = 7\nbarrier\nscript c2\nbarrier\npublish x int 7\npublish x int 5\n\
            output\nclient c1\ndeliver c2 1 x int 7\nclient c2\ntrace 04\n\
            entry 1 1 command c1\nentry 2 1 version\nentry 3 1 command c2\nentry 4 1 command c2\n",
        fault: "siena: audit: line 17: form\n",
        text: "",
    },
    Row {
        name: "An output whose lines end with returns",
        words: "audit",
        document: "siena 1\nsemantics subscription\nservers 1\nclient c1 1\nclient c2 1\nscript c1\n\
            subscribe x int = 7\nbarrier\nscript c2\nbarrier\npublish x int 7\npublish x int 5\n\
            output\r\nclient c1\r\ndeliver c2 1 x int 7\r\nclient c2\r\ntrace 4\r\n\
            entry 1 1 command c1\r\n",
        fault: "siena: audit: line 17: form\n",
        text: "",
    },
    Row {
        name: "A run that is not at its end",
        words: "audit",
        document: "siena 1\nsemantics subscription\nservers 1\nclient c1 1\nclient c2 1\nscript c1\n\
            subscribe x int = 7\nbarrier\nscript c2\nbarrier\npublish x int 7\npublish x int 5\n\
            output\nclient c1\ndeliver c2 1 x int 7\nclient c2\ntrace 3\n\
            entry 1 1 command c1\nentry 2 1 version\nentry 3 1 command c2\n",
        fault: "siena: audit: line 21: open\n",
        text: "",
    },
    Row {
        name: "A trace that is longer than the run",
        words: "audit",
        document: "siena 1\nsemantics subscription\nservers 1\nclient c1 1\nclient c2 1\nscript c1\n\
            subscribe x int = 7\nbarrier\nscript c2\nbarrier\npublish x int 7\npublish x int 5\n\
            output\nclient c1\ndeliver c2 1 x int 7\nclient c2\ntrace 5\n\
            entry 1 1 command c1\nentry 2 1 version\nentry 3 1 command c2\nentry 4 1 command c2\nentry 5 1 command c2\n",
        fault: "siena: audit: line 22: badturn\n",
        text: "",
    },
    Row {
        name: "Another stamp",
        words: "audit",
        document: "siena 1\nsemantics subscription\nservers 1\nclient c1 1\nclient c2 1\nscript c1\n\
            subscribe x int = 7\nbarrier\nscript c2\nbarrier\npublish x int 7\npublish x int 5\n\
            output\nclient c1\ndeliver c2 1 x int 7\nclient c2\ntrace 4\n\
            entry 1 1 command c1\nentry 2 1 version\nentry 7 1 command c2\nentry 4 1 command c2\n",
        fault: "siena: audit: line 20: differs\n",
        text: "",
    },
    Row {
        name: "An output without its last newline",
        words: "audit",
        document: "siena 1\nsemantics subscription\nservers 1\nclient c1 1\nclient c2 1\nscript c1\n\
            subscribe x int = 7\nbarrier\nscript c2\nbarrier\npublish x int 7\npublish x int 5\n\
            output\nclient c1\ndeliver c2 1 x int 7\nclient c2\ntrace 4\n\
            entry 1 1 command c1\nentry 2 1 version\nentry 3 1 command c2\nentry 4 1 command c2",
        fault: "siena: audit: line 22: differs\n",
        text: "",
    },
    Row {
        name: "Two deliveries that are swapped",
        words: "audit",
        document: "siena 1\nsemantics subscription\nservers 1\nclient c1 1\nclient c2 1\nscript c1\n\
            subscribe x int any\nbarrier\nscript c2\nbarrier\npublish x int 7\npublish x int 5\n\
            output\nclient c1\ndeliver c2 2 x int 5\ndeliver c2 1 x int 7\nclient c2\ntrace 4\n\
            entry 1 1 command c1\nentry 2 1 version\nentry 3 1 command c2\nentry 4 1 command c2\n",
        fault: "siena: audit: line 15: differs\n",
        text: "",
    },
    Row {
        name: "A document at fault before its output",
        words: "audit",
        document: "siena 1\nsemantics subscription\noutput\ntrace 0\n",
        fault: "siena: line 3: ended: the document ends before its lines `siena`, `semantics` and `servers`\n",
        text: "",
    },
    Row {
        name: "An audit with a further word",
        words: "audit --trace",
        document: "siena 1\nsemantics subscription\nservers 1\nclient c1 1\nclient c2 1\nscript c1\n\
            subscribe x int = 7\nbarrier\nscript c2\nbarrier\npublish x int 7\npublish x int 5\n",
        fault: USAGE_LINE,
        text: "",
    },
];

/// How many of these audits are confirmed.
fn confirmed(alloc: Global, input: &[u8], confirmed: u32) -> Result<u32, Failure> {
    let came = outcome(alloc, "audit", input)?;
    Ok(if came.text.is_empty() {
        confirmed
    } else {
        confirmed.saturating_add(1)
    })
}

/// Prints how many inputs are confirmed that are the first of these up to each place of its output, and how many that have another byte at one place.
pub fn print_changed(rt: &impl Print, alloc: Global) -> Result<(), Failure> {
    let input = AUDITS[0].document.as_bytes();
    let mut cut = 0;
    let mut changed = 0;
    for (place, byte) in input.iter().enumerate() {
        if place >= 160 {
            let (front, back) = input.split_at(place);
            cut = confirmed(alloc, front, cut)?;
            let mut other = front.to_vec(alloc)?;
            other.push(*byte ^ 1)?;
            other.extend_from_slice(back.get(1..).unwrap_or(&[]))?;
            changed = confirmed(alloc, &other, changed)?;
        }
    }
    println!(rt;
        "confirmed: {cut} of the outputs that are cut, {changed} of those with another byte"
    )?;
    Ok(())
}
