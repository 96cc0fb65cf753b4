//! Runs by the schedule of a document, what flooding brings, and how much documents have.
use crate::row::Row;

/// Documents that are replayed.
pub const REPLAYS: [Row; 9] = [
    Row {
        name: "A message on its way",
        words: "replay",
        document: "siena 1\nsemantics subscription\nservers 3\nedge 1 2\nedge 2 3\nclient a 1\nclient b 1\nclient p 3\n\
            script a\nsubscribe x int any\nbarrier\nunsubscribe x int any\nscript b\nsubscribe x int > 5\n\
            script p\nbarrier\npublish x int 9\nschedule\ncommand a\ncommand b\nversion 1\ntake 2 1\nversion 2\n\
            take 3 2\nversion 3\ncommand a\ncommand p\n",
        fault: "",
        text: "client a\nclient b\ndeliver p 1 x int 9\nclient p\n",
    },
    Row {
        name: "A withdrawal that comes late",
        words: "replay",
        document: "siena 1\nsemantics subscription\nservers 3\nedge 1 2\nedge 2 3\nclient a 1\nclient b 1\nclient p 3\n\
            script a\nsubscribe x int any\nbarrier\nunsubscribe x int any\nscript b\nsubscribe x int > 5\n\
            script p\nbarrier\npublish x int 9\nschedule\ncommand a\ncommand b\nversion 1\ntake 2 1\nversion 2\n\
            take 3 2\nversion 3\ncommand p\ntake 2 3\ntake 1 2\ncommand a\n",
        fault: "",
        text: "client a\ndeliver p 1 x int 9\nclient b\ndeliver p 1 x int 9\nclient p\n",
    },
    Row {
        name: "A withdrawal that has travelled",
        words: "replay",
        document: "siena 1\nsemantics subscription\nservers 3\nedge 1 2\nedge 2 3\nclient a 1\nclient b 1\nclient p 3\n\
            script a\nsubscribe x int any\nbarrier\nunsubscribe x int any\nscript b\nsubscribe x int > 5\n\
            script p\nbarrier\npublish x int 9\nschedule\ncommand a\ncommand b\nversion 1\ntake 2 1\nversion 2\n\
            take 3 2\nversion 3\ncommand a\ntake 2 1\nversion 2\ncommand p\n",
        fault: "",
        text: "client a\nclient b\ndeliver p 1 x int 9\nclient p\n",
    },
    Row {
        name: "A turn that isn't permitted",
        words: "replay",
        document: "siena 1\nsemantics subscription\nservers 2\nedge 1 2\nschedule\ntake 2 1\n",
        fault: "siena: line 6: badturn: this turn is not permitted when it comes\n",
        text: "",
    },
    Row {
        name: "Nothing to take again, after turns that are permitted",
        words: "replay",
        document: "siena 1\nsemantics subscription\nservers 3\nedge 1 2\nedge 2 3\nclient a 1\nclient b 1\nclient p 3\n\
            script a\nsubscribe x int any\nbarrier\nunsubscribe x int any\nscript b\nsubscribe x int > 5\n\
            script p\nbarrier\npublish x int 9\nschedule\ncommand a\ncommand b\nversion 1\ntake 2 1\nversion 2\n\
            take 3 2\nversion 3\ntake 3 2\n",
        fault: "siena: line 26: badturn: this turn is not permitted when it comes\n",
        text: "",
    },
    Row {
        name: "A version with nothing staged",
        words: "replay",
        document: "siena 1\nsemantics subscription\nservers 2\nedge 1 2\nclient a 1\nclient p 2\nscript a\nsubscribe x int any\n\
            script p\nbarrier\npublish x int 1\nschedule\nversion 1\n",
        fault: "siena: line 13: badturn: this turn is not permitted when it comes\n",
        text: "",
    },
    Row {
        name: "A command of a later phase",
        words: "replay",
        document: "siena 1\nsemantics subscription\nservers 2\nedge 1 2\nclient a 1\nclient p 2\nscript a\nsubscribe x int any\n\
            script p\nbarrier\npublish x int 1\nschedule\ncommand p\n",
        fault: "siena: line 13: badturn: this turn is not permitted when it comes\n",
        text: "",
    },
    Row {
        name: "Deliveries in the order in which they come",
        words: "replay",
        document: "siena 1\nsemantics subscription\nservers 1\nclient a 1\nclient b 1\nclient p 1\nscript a\nsubscribe x int any\n\
            barrier\npublish x int 3\nscript p\nbarrier\npublish y int 1\npublish y int 1\npublish y int 1\npublish y int 1\n\
            publish y int 1\npublish y int 1\npublish y int 1\npublish y int 1\npublish x int 2\npublish x int 1\nschedule\n\
            command a\nversion 1\ncommand p\ncommand p\ncommand p\ncommand p\ncommand p\ncommand p\ncommand p\ncommand p\n\
            command p\ncommand p\ncommand a\n",
        fault: "",
        text: "client a\ndeliver p 9 x int 2\ndeliver p 10 x int 1\ndeliver a 1 x int 3\nclient b\nclient p\n",
    },
    Row {
        name: "The same by publisher and number, the ninth before the tenth",
        words: "replay --sorted",
        document: "siena 1\nsemantics subscription\nservers 1\nclient a 1\nclient b 1\nclient p 1\nscript a\nsubscribe x int any\n\
            barrier\npublish x int 3\nscript p\nbarrier\npublish y int 1\npublish y int 1\npublish y int 1\npublish y int 1\n\
            publish y int 1\npublish y int 1\npublish y int 1\npublish y int 1\npublish x int 2\npublish x int 1\nschedule\n\
            command a\nversion 1\ncommand p\ncommand p\ncommand p\ncommand p\ncommand p\ncommand p\ncommand p\ncommand p\n\
            command p\ncommand p\ncommand a\n",
        fault: "",
        text: "client a\ndeliver a 1 x int 3\ndeliver p 9 x int 2\ndeliver p 10 x int 1\nclient b\nclient p\n",
    },
];

/// What flooding owes and allows.
pub const FLOODS: [Row; 4] = [
    Row {
        name: "A filter that comes within the phase is owed nothing there",
        words: "flood",
        document: "siena 1\nsemantics subscription\nservers 1\nclient a 1\nscript a\nsubscribe x int any\n\
            publish x int 1\n",
        fault: "",
        text: "client a\nmay a 1 x int 1\n",
    },
    Row {
        name: "A filter that goes within the phase is owed nothing there",
        words: "flood",
        document: "siena 1\nsemantics subscription\nservers 3\nedge 1 2\nedge 2 3\nclient a 1\nclient b 1\nclient p 3\n\
            script a\nsubscribe x int any\nbarrier\nunsubscribe x int any\nscript b\nsubscribe x int > 5\n\
            script p\nbarrier\npublish x int 9\nschedule\ncommand a\ncommand b\nversion 1\ntake 2 1\nversion 2\n\
            take 3 2\nversion 3\ncommand a\ncommand p\n",
        fault: "",
        text: "client a\nmay p 1 x int 9\nclient b\ndeliver p 1 x int 9\nclient p\n",
    },
    Row {
        name: "A filter that comes back was not there throughout",
        words: "flood",
        document: "siena 1\nsemantics subscription\nservers 1\nclient a 1\nclient p 1\nscript a\nsubscribe x int > 5\n\
            subscribe x int = 1\nsubscribe x int any\nbarrier\nunsubscribe x int any\nsubscribe x int any\n\
            script p\nbarrier\npublish x int 8\n",
        fault: "",
        text: "client a\nmay p 1 x int 8\nclient p\n",
    },
    Row {
        name: "The market",
        words: "flood",
        document: "siena 1\nsemantics advertisement\nservers 3\nedge 1 2\nedge 2 3\nclient trader 1\nclient feed 3\n\
            script trader\nsubscribe symbol str = \"ACME\"; price int < 5000\nscript feed\n\
            advertise symbol str any; price int > 0\nbarrier\npublish symbol str \"ACME\"; price int 4250\n\
            publish symbol str \"ACME\"; price int 0\npublish symbol str \"OTHER\"; price int 12\n",
        fault: "",
        text: "client trader\ndeliver feed 1 price int 4250; symbol str \"ACME\"\nclient feed\n\
            refused 2 unadvertised\n",
    },
];

/// How much documents have.
pub const CHECKS: [Row; 5] = [
    Row {
        name: "A filter that comes within a phase",
        words: "check",
        document: "siena 1\nsemantics subscription\nservers 1\nclient a 1\nscript a\nsubscribe x int any\npublish x int 1\n",
        fault: "",
        text: "ok version 1 servers 1 clients 1 phases 1 commands 1 publications 1\n",
    },
    Row {
        name: "A filter that goes within a phase, with a schedule",
        words: "check",
        document: "siena 1\nsemantics subscription\nservers 3\nedge 1 2\nedge 2 3\nclient a 1\nclient b 1\nclient p 3\nscript a\n\
            subscribe x int any\nbarrier\nunsubscribe x int any\nscript b\nsubscribe x int > 5\nscript p\nbarrier\n\
            publish x int 9\nschedule\ncommand a\ncommand b\nversion 1\ntake 2 1\nversion 2\ntake 3 2\nversion 3\ncommand a\n\
            command p\n",
        fault: "",
        text: "ok version 1 servers 3 clients 3 phases 2 commands 3 publications 1\n",
    },
    Row {
        name: "A withdrawal and a filter that comes back",
        words: "check",
        document: "siena 1\nsemantics subscription\nservers 1\nclient a 1\nclient p 1\nscript a\nsubscribe x int > 5\n\
            subscribe x int = 1\nsubscribe x int any\nbarrier\nunsubscribe x int any\nsubscribe x int any\nscript p\nbarrier\n\
            publish x int 8\n",
        fault: "",
        text: "ok version 1 servers 1 clients 2 phases 2 commands 5 publications 1\n",
    },
    Row {
        name: "A feed and a trader",
        words: "check",
        document: "siena 1\nsemantics advertisement\nservers 3\nedge 1 2\nedge 2 3\nclient trader 1\nclient feed 3\nscript trader\n\
            subscribe symbol str = \"ACME\"; price int < 5000\nscript feed\nadvertise symbol str any; price int > 0\nbarrier\n\
            publish symbol str \"ACME\"; price int 4250\npublish symbol str \"ACME\"; price int 0\n\
            publish symbol str \"OTHER\"; price int 12\n",
        fault: "",
        text: "ok version 1 servers 3 clients 2 phases 2 commands 2 publications 3\n",
    },
    Row {
        name: "Three clients, of which one has a script",
        words: "check",
        document: "siena 1\nsemantics subscription\nservers 1\nclient a 1\nclient b 1\nclient p 1\nscript a\nsubscribe x int any\n\
            barrier\npublish x int 1\n",
        fault: "",
        text: "ok version 1 servers 1 clients 3 phases 2 commands 1 publications 1\n",
    },
];
