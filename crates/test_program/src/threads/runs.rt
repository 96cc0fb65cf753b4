//! Rows of documents whose outcome is the same in every run.
use crate::row::Row;

/// Documents that are run.
pub const RUNS: [Row; 6] = [
    Row {
        name: "One server, a filter, two publications",
        words: "run",
        document: "siena 1\nsemantics subscription\nservers 1\nclient c1 1\nclient c2 1\nscript c1\n\
            subscribe x int = 7\nbarrier\nscript c2\nbarrier\npublish x int 7\npublish x int 5\n",
        fault: "",
        text: "client c1\ndeliver c2 1 x int 7\nclient c2\n",
    },
    Row {
        name: "An empty script",
        words: "run --sorted",
        document: "siena 1\nsemantics subscription\nservers 1\nclient a 1\nscript a\n",
        fault: "",
        text: "client a\n",
    },
    Row {
        name: "A market",
        words: "run",
        document: "siena 1\nsemantics advertisement\nservers 3\nedge 1 2\nedge 2 3\nclient trader 1\nclient feed 3\n\
            script trader\nsubscribe symbol str = \"ACME\"; price int < 5000\nscript feed\n\
            advertise symbol str any; price int > 0\nbarrier\npublish symbol str \"ACME\"; price int 4250\n\
            publish symbol str \"ACME\"; price int 0\npublish symbol str \"OTHER\"; price int 12\n",
        fault: "",
        text: "client trader\ndeliver feed 1 price int 4250; symbol str \"ACME\"\nclient feed\n\
            refused 2 unadvertised\n",
    },
    Row {
        name: "A tree that changes",
        words: "run",
        document: "siena 2\nsemantics subscription\nservers 3\nedge 1 2\nedge 2 3\nphase 1\nedge 1 2\nedge 1 3\n\
            client a 1\nclient p 3\nscript a\nsubscribe x int any\nscript p\nbarrier\npublish x int 1\n",
        fault: "",
        text: "client a\ndeliver p 1 x int 1\nclient p\n",
    },
    Row {
        name: "A phase after another, with its trace",
        words: "run --trace",
        document: "siena 1\nsemantics subscription\nservers 2\nedge 1 2\nclient a 1\nclient p 2\nscript a\nsubscribe x int = 7\n\
            script p\nbarrier\npublish x int 7\n",
        fault: "",
        text: "client a\ndeliver p 1 x int 7\nclient p\ntrace 6\nentry 1 1 command a\nout 2 subs +{x int = 7}\n\
            entry 2 1 version\nentry 2 2 take 1\nentry 3 2 version\nentry 4 2 command p\nout 1 notice 2 1 x int 7\n\
            entry 5 1 take 2\n",
    },
    Row {
        name: "What is published after a change of tree takes the new link",
        words: "run --trace",
        document: "siena 2\nsemantics subscription\nservers 3\nedge 1 2\nedge 2 3\nphase 1\nedge 1 2\nedge 1 3\n\
            client a 1\nclient p 3\nscript a\nsubscribe x int any\nscript p\nbarrier\npublish x int 1\n",
        fault: "",
        text: "client a\ndeliver p 1 x int 1\nclient p\ntrace 8\nentry 1 1 command a\nout 2 subs +{x int any}\n\
            entry 2 1 version\nentry 2 2 take 1\nout 3 subs +{x int any}\nentry 3 2 version\nentry 3 3 take 2\n\
            entry 4 3 version\nentry 5 3 command p\nout 1 notice 2 1 x int 1\nentry 6 1 take 3\n",
    },
];
