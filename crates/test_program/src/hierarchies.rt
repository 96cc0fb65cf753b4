//! Rows of walks of hierarchies, with server 1 at the top.
use crate::row::Row;
use crate::usage::USAGE_LINE;

/// Documents with what the word `hier` writes of them.
pub const HIERARCHIES: [Row; 11] = [
    Row {
        name: "A filter goes to the master, and the notification too",
        words: "hier --trace",
        document: "siena 1\nsemantics subscription\nservers 2\nedge 1 2\nclient a 2\nclient p 2\nscript a\nsubscribe x int > 5\n\
            script p\nbarrier\npublish x int 9\n",
        fault: "",
        text: "client a\ndeliver p 1 x int 9\nclient p\ntrace 6\nentry 1 2 command a\nout 1 subs +{x int > 5}\nentry 2 1 take 2\n\
            entry 3 1 version\nentry 2 2 version\nentry 4 2 command p\nout 1 notice 2 1 x int 9\nentry 5 1 take 2\n",
    },
    Row {
        name: "A hierarchy without clients, whose schedule is passed over",
        words: "hier",
        document: "siena 1\nsemantics subscription\nservers 2\nedge 1 2\nschedule\ntake 2 1\n",
        fault: "",
        text: "",
    },
    Row {
        name: "What nobody wants goes up to the top, and no filter goes down",
        words: "hier --trace",
        document: "siena 1\nsemantics subscription\nservers 3\nedge 1 2\nedge 2 3\nclient a 1\nclient p 3\nscript a\n\
            subscribe x int = 1\nscript p\nbarrier\npublish x int 9\n",
        fault: "",
        text: "client a\nclient p\ntrace 5\nentry 1 1 command a\nentry 2 1 version\nentry 3 3 command p\nout 2 notice 2 1 x int 9\n\
            entry 4 2 take 3\nout 1 notice 2 1 x int 9\nentry 5 1 take 2\n",
    },
    Row {
        name: "A notification goes down where a filter matches, and not back",
        words: "hier --sorted",
        document: "siena 1\nsemantics subscription\nservers 4\nedge 1 2\nedge 2 3\nedge 1 4\nclient a 3\nclient b 4\nclient p 3\n\
            script a\nsubscribe x int > 5\nscript b\nsubscribe x int < 5\nscript p\nbarrier\npublish x int 9\npublish x int 1\n\
            publish x int 5\n",
        fault: "",
        text: "client a\ndeliver p 1 x int 9\nclient b\ndeliver p 2 x int 1\nclient p\n",
    },
    Row {
        name: "A withdrawal and what it had covered go up in one message",
        words: "hier --trace",
        document: "siena 1\nsemantics subscription\nservers 2\nedge 1 2\nclient a 2\nclient b 2\nscript a\nsubscribe x int any\n\
            barrier\nunsubscribe x int any\nscript b\nsubscribe x int > 5\n",
        fault: "",
        text: "client a\nclient b\ntrace 9\nentry 1 2 command a\nout 1 subs +{x int any}\nentry 2 2 command b\nentry 2 1 take 2\n\
            entry 3 1 version\nentry 3 2 version\nentry 4 2 command a\nout 1 subs -{x int any} +{x int > 5}\nentry 5 1 take 2\n\
            entry 6 1 version\nentry 5 2 version\n",
    },
    Row {
        name: "Advertisements travel nowhere, and decide what is refused",
        words: "hier --trace",
        document: "siena 1\nsemantics advertisement\nservers 2\nedge 1 2\nclient s 1\nclient p 2\nscript s\nsubscribe x int any\n\
            script p\npublish y int 1\nadvertise x int any\nbarrier\npublish x int 1\n",
        fault: "",
        text: "client s\ndeliver p 2 x int 1\nclient p\nrefused 1 unadvertised\ntrace 6\nentry 1 1 command s\nentry 1 2 command p\n\
            entry 2 2 command p\nentry 2 1 version\nentry 3 2 command p\nout 1 notice 2 2 x int 1\nentry 4 1 take 2\n",
    },
    Row {
        name: "All phases go by the first tree",
        words: "hier --trace --sorted",
        document: "siena 2\nsemantics subscription\nservers 3\nedge 1 2\nedge 2 3\nphase 2\nedge 1 3\nedge 3 2\nclient a 1\nclient b 3\n\
            script a\nsubscribe x int any\nscript b\nbarrier\npublish x int 1\nbarrier\npublish x int 2\n",
        fault: "",
        text: "client a\ndeliver b 1 x int 1\ndeliver b 2 x int 2\nclient b\ntrace 8\nentry 1 1 command a\nentry 2 1 version\n\
            entry 3 3 command b\nout 2 notice 2 1 x int 1\nentry 4 2 take 3\nout 1 notice 2 1 x int 1\nentry 5 1 take 2\n\
            entry 6 3 command b\nout 2 notice 2 2 x int 2\nentry 7 2 take 3\nout 1 notice 2 2 x int 2\nentry 8 1 take 2\n",
    },
    Row {
        name: "One server is its own top",
        words: "hier --sorted",
        document: "siena 1\nsemantics subscription\nservers 1\nclient a 1\nscript a\nsubscribe x int any\npublish x int 1\n\
            unsubscribe x int any\npublish x int 2\n",
        fault: "",
        text: "client a\n",
    },
    Row {
        name: "A hierarchy of a document at fault",
        words: "hier",
        document: "siena 1\nsemantics subscription\nservers 2\n",
        fault: "siena: line 4: apart: the edges of this tree don't join all servers\n",
        text: "",
    },
    Row {
        name: "A hierarchy with an option twice",
        words: "hier --sorted --sorted",
        document: "siena 1\nsemantics subscription\nservers 1\n",
        fault: USAGE_LINE,
        text: "",
    },
    Row {
        name: "A hierarchy with another word",
        words: "hier --dot",
        document: "siena 1\nsemantics subscription\nservers 1\n",
        fault: USAGE_LINE,
        text: "",
    },
];
