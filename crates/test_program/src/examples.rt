//! The documents of the examples, as rows use them.

/// A document.
pub struct Document {
    /// What it is of.
    pub name: &'static str,
    /// Its text.
    pub text: &'static str,
}

/// The alarms of a building.
pub const ALARMS: &str =
    "# Alarms of a building. A fire brigade, a control room and a caretaker get what concerns them, and nothing else.\n\
    siena 1\nsemantics subscription\nservers 3\nedge 1 2\nedge 2 3\nclient brigade 1\nclient room 2\nclient caretaker 3\n\
    client attic 2\nclient cellar 3\n\nscript brigade\nsubscribe kind str = \"smoke\"; level int >= 3\n\nscript room\n\
    subscribe level int any\n\nscript caretaker\nsubscribe kind str = \"water\"; floor int <= 0\n\n\
    # What a sensor publishes after the barrier comes when all filters have settled.\nscript attic\nbarrier\n\
    publish kind str \"smoke\"; floor int 4; level int 2\npublish kind str \"smoke\"; floor int 4; level int 5\n\n\
    script cellar\nbarrier\npublish kind str \"water\"; floor int -1; level int 1\n\
    publish kind str \"battery\"; floor int 2; level int 1\n";

/// The market.
pub const MARKET: &str =
    "# A market. Under advertisement semantics a feed says first what it will publish, and filters travel towards it alone.\n\
    siena 1\nsemantics advertisement\nservers 4\nedge 1 2\nedge 2 3\nedge 2 4\nclient saver 1\nclient trader 3\n\
    client feed 4\n\nscript saver\nsubscribe symbol str prefix \"BOND\"; price int any\n\nscript trader\n\
    subscribe symbol str = \"ACME\"; price int < 5000\nbarrier\nbarrier\n\
    # A withdrawal takes all filters that this one covers.\nunsubscribe symbol str = \"ACME\"; price int any\n\n\
    script feed\nadvertise symbol str any; price int > 0\nbarrier\npublish symbol str \"ACME\"; price int 4250\n\
    publish symbol str \"ACME\"; price int 5100\npublish symbol str \"ACME\"; price int 0\n\
    publish symbol str \"BOND-10\"; price int 99\nbarrier\nbarrier\npublish symbol str \"ACME\"; price int 4000\n";

/// The machines that are watched.
pub const MACHINES: &str =
    "# Machines that are watched. In version 2 there are times, and the tree of servers may change: from phase 2 on server 3 is\n\
    # reached by server 1. The schedule at the end is for the word replay.\nsiena 2\nsemantics subscription\nservers 3\n\
    edge 1 2\nedge 2 3\nphase 2\nedge 1 2\nedge 1 3\nclient duty 1\nclient log 2\nclient web 3\n\nscript duty\n\
    subscribe host str prefix \"web\"; load int > 90\nbarrier\nsubscribe down bool = true; since time >= 1700000000\n\n\
    script log\nsubscribe host str any\n\nscript web\nsubscribe host str = \"web-1\"\n\
    publish host str \"web-1\"; load int 97\nbarrier\npublish host str \"web-1\"; load int 95\n\
    publish host str \"web-2\"; load int 12\nbarrier\npublish host str \"web-2\"; down bool true; since time 1700000300\n\n\
    # An order in which the first publication comes before the filter of the client duty is known to its server.\nschedule\n\
    command web\ncommand web\ncommand duty\nversion 3\n";

/// Those of the examples.
pub const EXAMPLES: [Document; 3] = [
    Document {
        name: "Alarms of a building",
        text: ALARMS,
    },
    Document {
        name: "A market",
        text: MARKET,
    },
    Document {
        name: "Machines that are watched",
        text: MACHINES,
    },
];
