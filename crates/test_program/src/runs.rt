//! Rows of runs by the walk schedule.
use crate::row::Row;

/// Documents that are walked.
pub const RUNS: [Row; 20] = [
    Row {
        name: "One server, a filter, two publications",
        words: "walk",
        document: "siena 1\nsemantics subscription\nservers 1\nclient c1 1\nclient c2 1\nscript c1\n\
            subscribe x int = 7\nbarrier\nscript c2\nbarrier\npublish x int 7\npublish x int 5\n",
        fault: "",
        text: "client c1\ndeliver c2 1 x int 7\nclient c2\n",
    },
    Row {
        name: "The same with its trace",
        words: "walk --trace",
        document: "siena 1\nsemantics subscription\nservers 1\nclient c1 1\nclient c2 1\nscript c1\n\
            subscribe x int = 7\nbarrier\nscript c2\nbarrier\npublish x int 7\npublish x int 5\n",
        fault: "",
        text: "client c1\ndeliver c2 1 x int 7\nclient c2\ntrace 4\nentry 1 1 command c1\nentry 2 1 version\n\
            entry 3 1 command c2\nentry 4 1 command c2\n",
    },
    Row {
        name: "An empty script",
        words: "walk",
        document: "siena 1\nsemantics subscription\nservers 1\nclient a 1\nscript a\n",
        fault: "",
        text: "client a\n",
    },
    Row {
        name: "A version that comes after the publication",
        words: "walk",
        document: "siena 1\nsemantics subscription\nservers 1\nclient a 1\nscript a\nsubscribe x int any\n\
            publish x int 1\n",
        fault: "",
        text: "client a\n",
    },
    Row {
        name: "The narrow filter travels nowhere",
        words: "walk --trace",
        document: "siena 1\nsemantics subscription\nservers 3\nedge 1 2\nedge 2 3\nclient a 1\nclient b 1\nclient p 3\n\
            script a\nsubscribe x int any\nscript b\nsubscribe x int > 5\n",
        fault: "",
        text: "client a\nclient b\nclient p\ntrace 7\nentry 1 1 command a\nout 2 subs +{x int any}\n\
            entry 2 1 command b\nentry 3 1 version\nentry 2 2 take 1\nout 3 subs +{x int any}\n\
            entry 3 2 version\nentry 3 3 take 2\nentry 4 3 version\n",
    },
    Row {
        name: "A withdrawal and what it had covered, in one message",
        words: "walk --trace",
        document: "siena 1\nsemantics subscription\nservers 2\nedge 1 2\nclient a 1\nclient b 1\nscript a\n\
            subscribe x int > 1\nbarrier\nunsubscribe x int > 1\nscript b\nsubscribe x int >= 2\n",
        fault: "",
        text: "client a\nclient b\ntrace 9\nentry 1 1 command a\nout 2 subs +{x int > 1}\nentry 2 1 command b\n\
            entry 3 1 version\nentry 2 2 take 1\nentry 3 2 version\nentry 4 1 command a\n\
            out 2 subs -{x int > 1} +{x int >= 2}\nentry 5 1 version\nentry 5 2 take 1\nentry 6 2 version\n",
    },
    Row {
        name: "A filter goes where an advertisement overlaps it",
        words: "walk --trace",
        document: "siena 1\nsemantics advertisement\nservers 2\nedge 1 2\nclient p 1\nclient s 2\nscript p\n\
            advertise x int < 3\nscript s\nbarrier\nsubscribe x int > 5\nbarrier\nsubscribe x int < 9\n",
        fault: "",
        text: "client p\nclient s\ntrace 8\nentry 1 1 command p\nout 2 advs +{x int < 3}\nentry 2 2 take 1\n\
            entry 3 2 command s\nentry 4 2 version\nentry 5 2 command s\nout 1 subs +{x int < 9}\n\
            entry 6 1 take 2\nentry 7 1 version\nentry 6 2 version\n",
    },
    Row {
        name: "A publish without an advertisement is refused",
        words: "walk",
        document: "siena 1\nsemantics advertisement\nservers 1\nclient p 1\nscript p\npublish x int 1\n\
            advertise x int any\npublish x int 1\n",
        fault: "",
        text: "client p\nrefused 1 unadvertised\n",
    },
    Row {
        name: "The same notice twice",
        words: "walk",
        document: "siena 1\nsemantics subscription\nservers 1\nclient s 1\nclient p 1\nscript s\nsubscribe x int any\n\
            script p\nbarrier\npublish x int 1\npublish x int 1\n",
        fault: "",
        text: "client s\ndeliver p 1 x int 1\ndeliver p 2 x int 1\nclient p\n",
    },
    Row {
        name: "A publisher gets its own",
        words: "walk",
        document: "siena 1\nsemantics subscription\nservers 1\nclient a 1\nscript a\nsubscribe x int any\nbarrier\n\
            publish x int 4\n",
        fault: "",
        text: "client a\ndeliver a 1 x int 4\n",
    },
    Row {
        name: "Filters that nothing matches",
        words: "walk",
        document: "siena 1\nsemantics subscription\nservers 1\nclient a 1\nscript a\n\
            subscribe x int < -9223372036854775808\nsubscribe x int > 9223372036854775807\nbarrier\n\
            publish x int -9223372036854775808\npublish x int 9223372036854775807\n",
        fault: "",
        text: "client a\n",
    },
    Row {
        name: "Escapes in a text",
        words: "walk",
        document: "siena 1\nsemantics subscription\nservers 1\nclient a 1\nscript a\nsubscribe t str any\nbarrier\n\
            publish t str \"q\\\"b\\\\n\\né\"\n",
        fault: "",
        text: "client a\ndeliver a 1 t str \"q\\\"b\\\\n\\né\"\n",
    },
    Row {
        name: "A withdrawal takes what it covers, and then all is there again",
        words: "walk",
        document: "siena 1\nsemantics subscription\nservers 1\nclient a 1\nclient p 1\nscript a\nsubscribe x int > 5\n\
            subscribe x int = 1\nsubscribe x int any\nbarrier\nunsubscribe x int any\nsubscribe x int any\n\
            script p\nbarrier\npublish x int 8\n",
        fault: "",
        text: "client a\ndeliver p 1 x int 8\nclient p\n",
    },
    Row {
        name: "Only what is greater, and only an integer",
        words: "walk",
        document: "siena 1\nsemantics subscription\nservers 1\nclient a 1\nclient p 1\nscript a\nsubscribe x int > 5\n\
            script p\nbarrier\npublish x int 5\npublish x int 6\npublish x bool true\n",
        fault: "",
        text: "client a\ndeliver p 2 x int 6\nclient p\n",
    },
    Row {
        name: "The lenient form of commands",
        words: "walk",
        document: "siena 1\nsemantics subscription\nservers 1\nclient a 1\nscript a\nsubscribe b int>=7\nbarrier\n\
            publish  b int +07 ;a bool true\n",
        fault: "",
        text: "client a\ndeliver a 1 a bool true; b int 7\n",
    },
    Row {
        name: "A market",
        words: "walk",
        document: "siena 1\nsemantics advertisement\nservers 3\nedge 1 2\nedge 2 3\nclient trader 1\nclient feed 3\n\
            script trader\nsubscribe symbol str = \"ACME\"; price int < 5000\nscript feed\n\
            advertise symbol str any; price int > 0\nbarrier\npublish symbol str \"ACME\"; price int 4250\n\
            publish symbol str \"ACME\"; price int 0\npublish symbol str \"OTHER\"; price int 12\n",
        fault: "",
        text: "client trader\ndeliver feed 1 price int 4250; symbol str \"ACME\"\nclient feed\n\
            refused 2 unadvertised\n",
    },
    Row {
        name: "Two servers",
        words: "walk",
        document: "siena 1\nsemantics subscription\nservers 2\nedge 1 2\nclient a 1\nclient p 2\nscript a\n\
            subscribe x int = 7\nscript p\nbarrier\npublish x int 7\n",
        fault: "",
        text: "client a\ndeliver p 1 x int 7\nclient p\n",
    },
    Row {
        name: "Times",
        words: "walk",
        document: "siena 2\nsemantics subscription\nservers 1\nclient a 1\nscript a\n\
            subscribe t time >= 100; t time < 200\nbarrier\npublish t time 199\npublish t time 200\n\
            publish t int 150\n",
        fault: "",
        text: "client a\ndeliver a 1 t time 199\n",
    },
    Row {
        name: "A tree that changes",
        words: "walk --trace",
        document: "siena 2\nsemantics subscription\nservers 3\nedge 1 2\nedge 2 3\nphase 1\nedge 1 2\nedge 1 3\n\
            client a 1\nclient p 3\nscript a\nsubscribe x int any\nscript p\nbarrier\npublish x int 1\n",
        fault: "",
        text: "client a\ndeliver p 1 x int 1\nclient p\ntrace 8\nentry 1 1 command a\nout 2 subs +{x int any}\n\
            entry 2 1 version\nentry 2 2 take 1\nout 3 subs +{x int any}\nentry 3 2 version\nentry 3 3 take 2\n\
            entry 4 3 version\nentry 5 3 command p\nout 1 notice 2 1 x int 1\nentry 6 1 take 3\n",
    },
    Row {
        name: "A walk passes the schedule over",
        words: "walk",
        document: "siena 1\nsemantics subscription\nservers 2\nedge 1 2\nschedule\ntake 2 1\n",
        fault: "",
        text: "",
    },
];
