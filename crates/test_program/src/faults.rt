//! Rows of documents that are refused.
use crate::row::Row;

/// Documents with the line and the kind of their first fault.
pub const FAULTS: [Row; 27] = [
    Row {
        name: "An empty pattern",
        words: "walk",
        document: "siena 1\nsemantics subscription\nservers 1\nclient a 1\nscript a\nsubscribe s str contains \"\"\n",
        fault: "siena: line 6: operand: prefix, suffix and contains have an operand of at least 1 byte\n",
        text: "",
    },
    Row {
        name: "A raw newline in a text",
        words: "walk",
        document: "siena 1\nsemantics subscription\nservers 1\nclient a 1\nscript a\nsubscribe t str any\nbarrier\n\
            publish t str \"q\n\\\"b\\\\n\\né\"\n",
        fault: "siena: line 8: syntax: the command is not of its form, as `subscribe NAME KIND OPERATOR VALUE; ..` or `publish NAME KIND VALUE; ..`\n",
        text: "",
    },
    Row {
        name: "Edges in a ring",
        words: "check",
        document: "siena 1\nsemantics subscription\nservers 3\nedge 1 2\nedge 2 3\nedge 3 1\n",
        fault: "siena: line 6: loop: earlier edges of this tree lead from one of these servers to the other, or the two are equal\n",
        text: "",
    },
    Row {
        name: "A client before the last edge",
        words: "check",
        document: "siena 1\nsemantics subscription\nservers 3\nedge 1 2\nclient a 1\n",
        fault: "siena: line 5: apart: the edges of this tree don't join all servers\n",
        text: "",
    },
    Row {
        name: "A missing edge",
        words: "check",
        document: "siena 1\nsemantics subscription\nservers 3\nedge 1 2\n",
        fault: "siena: line 5: apart: the edges of this tree don't join all servers\n",
        text: "",
    },
    Row {
        name: "Too many servers",
        words: "check",
        document: "siena 1\nsemantics subscription\nservers 65\n",
        fault: "siena: line 3: range: servers are 1 to 64, a server is one of these, `take` names neighbours, and phases rise from 1 to 4095\n",
        text: "",
    },
    Row {
        name: "No server",
        words: "check",
        document: "siena 1\nsemantics subscription\nservers 0\n",
        fault: "siena: line 3: range: servers are 1 to 64, a server is one of these, `take` names neighbours, and phases rise from 1 to 4095\n",
        text: "",
    },
    Row {
        name: "Nothing",
        words: "check",
        document: "",
        fault: "siena: line 1: ended: the document ends before its lines `siena`, `semantics` and `servers`\n",
        text: "",
    },
    Row {
        name: "A name twice",
        words: "walk",
        document: "siena 1\nsemantics subscription\nservers 1\nclient a 1\nscript a\npublish x int 1; x int 2\n",
        fault: "siena: line 6: repeat: a notification has one name twice\n",
        text: "",
    },
    Row {
        name: "A first line that says too little",
        words: "check",
        document: "siena\n",
        fault: "siena: line 1: header: the first line is `siena 1` or `siena 2`\n",
        text: "",
    },
    Row {
        name: "A first line without its end",
        words: "check",
        document: "siena 1",
        fault: "siena: line 2: ended: the document ends before its lines `siena`, `semantics` and `servers`\n",
        text: "",
    },
    Row {
        name: "An edge to itself",
        words: "check",
        document: "siena 1\nsemantics subscription\nservers 1\nedge 1 1\n",
        fault: "siena: line 4: loop: earlier edges of this tree lead from one of these servers to the other, or the two are equal\n",
        text: "",
    },
    Row {
        name: "A server that isn't there",
        words: "check",
        document: "siena 1\nsemantics subscription\nservers 1\nclient a 2\n",
        fault: "siena: line 4: range: servers are 1 to 64, a server is one of these, `take` names neighbours, and phases rise from 1 to 4095\n",
        text: "",
    },
    Row {
        name: "A script of nobody",
        words: "check",
        document: "siena 1\nsemantics subscription\nservers 1\nclient a 1\nscript b\n",
        fault: "siena: line 5: name: this client is given twice, has a script already, or is none of the document's\n",
        text: "",
    },
    Row {
        name: "A number beyond 64 bits",
        words: "check",
        document: "siena 1\nsemantics subscription\nservers 1\nclient a 1\nscript a\n\
            subscribe x int = 99999999999999999999\n",
        fault: "siena: line 6: value: an int is from -9223372036854775808 to 9223372036854775807, a time at most \
            18446744073709551615, a str at most 1024 bytes\n",
        text: "",
    },
    Row {
        name: "A part that is missing",
        words: "check",
        document: "siena 1\nsemantics subscription\nservers 1\nclient a 1\nscript a\npublish x int 1;\n",
        fault: "siena: line 6: syntax: the command is not of its form, as `subscribe NAME KIND OPERATOR VALUE; ..` or `publish NAME KIND VALUE; ..`\n",
        text: "",
    },
    Row {
        name: "A client in the schedule",
        words: "check",
        document: "siena 1\nsemantics subscription\nservers 1\nschedule\nclient a 1\n",
        fault: "siena: line 5: order: such a line doesn't belong here; the order is siena, semantics, servers, edge, phase, client, script, schedule\n",
        text: "",
    },
    Row {
        name: "A server that is no neighbour of itself",
        words: "check",
        document: "siena 1\nsemantics subscription\nservers 1\nschedule\ntake 1 1\n",
        fault: "siena: line 5: range: servers are 1 to 64, a server is one of these, `take` names neighbours, and phases rise from 1 to 4095\n",
        text: "",
    },
    Row {
        name: "Times in version 1",
        words: "walk",
        document: "siena 1\nsemantics subscription\nservers 1\nclient a 1\nscript a\n\
            subscribe t time >= 100; t time < 200\nbarrier\npublish t time 199\npublish t time 200\n\
            publish t int 150\n",
        fault: "siena: line 6: syntax: the command is not of its form, as `subscribe NAME KIND OPERATOR VALUE; ..` or `publish NAME KIND VALUE; ..`\n",
        text: "",
    },
    Row {
        name: "A version 3",
        words: "walk",
        document: "siena 3\nsemantics subscription\nservers 1\nclient a 1\nscript a\n\
            subscribe t time >= 100; t time < 200\nbarrier\npublish t time 199\npublish t time 200\n\
            publish t int 150\n",
        fault: "siena: line 1: header: the first line is `siena 1` or `siena 2`\n",
        text: "",
    },
    Row {
        name: "A time beyond 64 bits",
        words: "walk",
        document: "siena 2\nsemantics subscription\nservers 1\nclient a 1\nscript a\n\
            subscribe t time >= 100; t time < 200\nbarrier\npublish t time 18446744073709551616\n",
        fault: "siena: line 8: value: an int is from -9223372036854775808 to 9223372036854775807, a time at most \
            18446744073709551615, a str at most 1024 bytes\n",
        text: "",
    },
    Row {
        name: "A time below 0",
        words: "walk",
        document: "siena 2\nsemantics subscription\nservers 1\nclient a 1\nscript a\n\
            subscribe t time >= 100; t time < 200\nbarrier\npublish t time -1\n",
        fault: "siena: line 8: syntax: the command is not of its form, as `subscribe NAME KIND OPERATOR VALUE; ..` or `publish NAME KIND VALUE; ..`\n",
        text: "",
    },
    Row {
        name: "A later tree that is apart",
        words: "check",
        document: "siena 2\nsemantics subscription\nservers 3\nedge 1 2\nedge 2 3\nphase 1\nedge 1 2\nclient a 1\n",
        fault: "siena: line 8: apart: the edges of this tree don't join all servers\n",
        text: "",
    },
    Row {
        name: "An edge of a later tree twice",
        words: "check",
        document: "siena 2\nsemantics subscription\nservers 3\nedge 1 2\nedge 2 3\nphase 1\nedge 1 2\nedge 1 2\n",
        fault: "siena: line 8: twice: an earlier edge of this tree joins these two servers\n",
        text: "",
    },
    Row {
        name: "A later tree in version 1",
        words: "check",
        document: "siena 1\nsemantics subscription\nservers 3\nedge 1 2\nedge 2 3\nphase 1\n",
        fault: "siena: line 6: order: such a line doesn't belong here; the order is siena, semantics, servers, edge, phase, client, script, schedule\n",
        text: "",
    },
    Row {
        name: "An edge with one end",
        words: "check",
        document: "siena 1\nsemantics subscription\nservers 2\nedge 1\n",
        fault: "siena: line 4: words: the words behind the first are not those of such a line\n",
        text: "",
    },
    Row {
        name: "A filter of 17 constraints",
        words: "check",
        document: "siena 1\nsemantics subscription\nservers 1\nclient a 1\nscript a\nsubscribe xa int any; xb int any; xc int any; \
            xd int any; xe int any; xf int any; xg int any; xh int any; xi int any; xj int any; xk int any; xl int any; \
            xm int any; xn int any; xo int any; xp int any; xq int any\n",
        fault: "siena: line 6: count: more than 1024 clients, 4095 barriers of a script, \
            16 constraints of a filter, 64 of an advertisement, or 64 attributes\n",
        text: "",
    },
];
