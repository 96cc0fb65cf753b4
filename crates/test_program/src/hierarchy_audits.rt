//! Rows of audits of outputs of hierarchies.
use crate::row::Row;
use crate::usage::USAGE_LINE;

/// The document in front of each output.
pub const DOCUMENT: &str =
    "siena 1\nsemantics subscription\nservers 2\nedge 1 2\nclient a 2\nclient p 2\n\
    script a\nsubscribe x int > 5\nscript p\nbarrier\npublish x int 9\n";

/// What is audited behind the document: outputs of its hierarchy, and two with the other kind of network.
pub const HIERARCHY_AUDITS: [Row; 8] = [
    Row {
        name: "The output of a hierarchy",
        words: "audit --hier",
        document: "output\nclient a\ndeliver p 1 x int 9\nclient p\ntrace 6\nentry 1 2 command a\nout 1 subs +{x int > 5}\nentry 2 1 take 2\n\
            entry 3 1 version\nentry 2 2 version\nentry 4 2 command p\nout 1 notice 2 1 x int 9\nentry 5 1 take 2\n",
        fault: "",
        text: "audit yes entries 6 owed 1 deliveries 1\n",
    },
    Row {
        name: "An output of a hierarchy without its delivery",
        words: "audit --hier",
        document: "output\nclient a\nclient p\ntrace 6\nentry 1 2 command a\nout 1 subs +{x int > 5}\nentry 2 1 take 2\n\
            entry 3 1 version\nentry 2 2 version\nentry 4 2 command p\nout 1 notice 2 1 x int 9\nentry 5 1 take 2\n",
        fault: "siena: audit: line 14: differs\n",
        text: "",
    },
    Row {
        name: "Another message in a hierarchy",
        words: "audit --hier",
        document: "output\nclient a\ndeliver p 1 x int 9\nclient p\ntrace 6\nentry 1 2 command a\nout 1 subs +{x int > 6}\nentry 2 1 take 2\n\
            entry 3 1 version\nentry 2 2 version\nentry 4 2 command p\nout 1 notice 2 1 x int 9\nentry 5 1 take 2\n",
        fault: "siena: audit: line 18: differs\n",
        text: "",
    },
    Row {
        name: "A hierarchy that is not at its end",
        words: "audit --hier",
        document: "output\nclient a\ndeliver p 1 x int 9\nclient p\ntrace 5\nentry 1 2 command a\nout 1 subs +{x int > 5}\nentry 2 1 take 2\n\
            entry 3 1 version\nentry 2 2 version\nentry 4 2 command p\nout 1 notice 2 1 x int 9\n",
        fault: "siena: audit: line 24: open\n",
        text: "",
    },
    Row {
        name: "A reception twice in a hierarchy",
        words: "audit --hier",
        document: "output\nclient a\ndeliver p 1 x int 9\nclient p\ntrace 7\nentry 1 2 command a\nout 1 subs +{x int > 5}\nentry 2 1 take 2\n\
            entry 3 1 version\nentry 2 2 version\nentry 4 2 command p\nout 1 notice 2 1 x int 9\nentry 5 1 take 2\nentry 6 1 take 2\n",
        fault: "siena: audit: line 25: badturn\n",
        text: "",
    },
    Row {
        name: "The output of a hierarchy as that of a walk",
        words: "audit",
        document: "output\nclient a\ndeliver p 1 x int 9\nclient p\ntrace 6\nentry 1 2 command a\nout 1 subs +{x int > 5}\nentry 2 1 take 2\n\
            entry 3 1 version\nentry 2 2 version\nentry 4 2 command p\nout 1 notice 2 1 x int 9\nentry 5 1 take 2\n",
        fault: "siena: audit: line 24: badturn\n",
        text: "",
    },
    Row {
        name: "The output of a walk as that of a hierarchy",
        words: "audit --hier",
        document: "output\nclient a\ndeliver p 1 x int 9\nclient p\ntrace 5\nentry 1 2 command a\nout 1 subs +{x int > 5}\nentry 2 1 take 2\n\
            entry 3 1 version\nentry 2 2 version\nentry 4 2 command p\n",
        fault: "siena: audit: line 23: differs\n",
        text: "",
    },
    Row {
        name: "An audit of a hierarchy with a further word",
        words: "audit --hier --hier",
        document: "",
        fault: USAGE_LINE,
        text: "",
    },
];
