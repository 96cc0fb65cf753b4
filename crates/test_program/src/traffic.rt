//! Rows of what links carry, beside plain flooding.
use crate::row::Row;
use crate::usage::USAGE_LINE;

/// Documents with what the word `traffic` writes of them.
pub const TRAFFIC: [Row; 9] = [
    Row {
        name: "Two publications, of which one is wanted beyond the link",
        words: "traffic",
        document: "siena 1\nsemantics subscription\nservers 2\nedge 1 2\nclient a 1\nclient b 2\nscript a\nsubscribe x int = 1\n\
            script b\nbarrier\npublish x int 1\npublish x int 2\n",
        fault: "",
        text: "link 1 2 notices 0 flood 0 messages 1\nlink 2 1 notices 1 flood 2 messages 0\n\
            traffic notices 1 flood 2 messages 1\n",
    },
    Row {
        name: "The same as a graph",
        words: "traffic --dot",
        document: "siena 1\nsemantics subscription\nservers 2\nedge 1 2\nclient a 1\nclient b 2\nscript a\nsubscribe x int = 1\n\
            script b\nbarrier\npublish x int 1\npublish x int 2\n",
        fault: "",
        text: "digraph traffic {\n  1 [shape=circle];\n  2 [shape=circle];\n  c1 [shape=box, label=\"a\"];\n  c1 -> 1 [dir=none];\n\
            \x20 c2 [shape=box, label=\"b\"];\n  c2 -> 2 [dir=none];\n  1 -> 2 [label=\"0 of 0, 1\", penwidth=1];\n\
            \x20 2 -> 1 [label=\"1 of 2, 0\", penwidth=5];\n}\n",
    },
    Row {
        name: "Every client takes everything, as flooding",
        words: "traffic",
        document: "siena 1\nsemantics subscription\nservers 3\nedge 1 2\nedge 2 3\nclient a 1\nclient b 2\nclient c 3\nscript a\n\
            subscribe x int any\nbarrier\npublish x int 1\nscript b\nsubscribe x int any\nbarrier\npublish x int 2\npublish x int 3\n\
            script c\nsubscribe x int any\nbarrier\npublish x int 4\n",
        fault: "",
        text: "link 1 2 notices 1 flood 1 messages 1\nlink 2 1 notices 3 flood 3 messages 1\nlink 2 3 notices 3 flood 3 messages 1\n\
            link 3 2 notices 1 flood 1 messages 1\ntraffic notices 8 flood 8 messages 4\n",
    },
    Row {
        name: "What is refused floods nothing, and advertisements are messages",
        words: "traffic",
        document: "siena 1\nsemantics advertisement\nservers 3\nedge 1 2\nedge 1 3\nclient p 2\nclient s 3\nscript p\npublish x int 1\n\
            advertise x int any\nbarrier\nbarrier\npublish x int 1\npublish y int 1\nscript s\nbarrier\nsubscribe x int = 1\n",
        fault: "",
        text: "link 1 2 notices 0 flood 0 messages 1\nlink 2 1 notices 1 flood 1 messages 1\nlink 1 3 notices 1 flood 1 messages 1\n\
            link 3 1 notices 0 flood 0 messages 1\ntraffic notices 2 flood 2 messages 4\n",
    },
    Row {
        name: "Links of two trees, each flooded in its phases",
        words: "traffic",
        document: "siena 2\nsemantics subscription\nservers 3\nedge 1 2\nedge 2 3\nphase 2\nedge 1 3\nedge 3 2\nclient a 1\nclient b 3\n\
            script a\nsubscribe x int any\nscript b\nbarrier\npublish x int 1\nbarrier\npublish x int 2\n",
        fault: "",
        text: "link 1 2 notices 0 flood 0 messages 1\nlink 2 1 notices 1 flood 1 messages 0\nlink 1 3 notices 0 flood 0 messages 0\n\
            link 3 1 notices 1 flood 1 messages 0\nlink 2 3 notices 0 flood 0 messages 1\nlink 3 2 notices 1 flood 2 messages 0\n\
            traffic notices 3 flood 4 messages 2\n",
    },
    Row {
        name: "The alarms of a building",
        words: "traffic",
        document: ALARM,
        fault: "",
        text: "link 1 2 notices 0 flood 0 messages 1\nlink 2 1 notices 1 flood 4 messages 2\nlink 2 3 notices 0 flood 2 messages 1\n\
            link 3 2 notices 2 flood 2 messages 1\ntraffic notices 3 flood 8 messages 5\n",
    },
    Row {
        name: "The alarms as a graph",
        words: "traffic --dot",
        document: ALARM,
        fault: "",
        text: "digraph traffic {\n  1 [shape=circle];\n  2 [shape=circle];\n  3 [shape=circle];\n\
            \x20 c1 [shape=box, label=\"brigade\"];\n  c1 -> 1 [dir=none];\n  c2 [shape=box, label=\"room\"];\n  c2 -> 2 [dir=none];\n\
            \x20 c3 [shape=box, label=\"caretaker\"];\n  c3 -> 3 [dir=none];\n  c4 [shape=box, label=\"attic\"];\n  c4 -> 2 [dir=none];\n\
            \x20 c5 [shape=box, label=\"cellar\"];\n  c5 -> 3 [dir=none];\n  1 -> 2 [label=\"0 of 0, 1\", penwidth=1];\n\
            \x20 2 -> 1 [label=\"1 of 4, 2\", penwidth=3];\n  2 -> 3 [label=\"0 of 2, 1\", penwidth=1];\n\
            \x20 3 -> 2 [label=\"2 of 2, 1\", penwidth=9];\n}\n",
    },
    Row {
        name: "Traffic of a document at fault",
        words: "traffic",
        document: "siena 1\nsemantics subscription\nservers 2\n",
        fault: "siena: line 4: apart: the edges of this tree don't join all servers\n",
        text: "",
    },
    Row {
        name: "Traffic with a further word",
        words: "traffic --dot --dot",
        document: "siena 1\nsemantics subscription\nservers 1\n",
        fault: USAGE_LINE,
        text: "",
    },
];

const ALARM: &str =
    "siena 1\nsemantics subscription\nservers 3\nedge 1 2\nedge 2 3\nclient brigade 1\nclient room 2\n\
    client caretaker 3\nclient attic 2\nclient cellar 3\n\nscript brigade\nsubscribe kind str = \"smoke\"; level int >= 3\n\n\
    script room\nsubscribe level int any\n\nscript caretaker\nsubscribe kind str = \"water\"; floor int <= 0\n\nscript attic\n\
    barrier\npublish kind str \"smoke\"; floor int 4; level int 2\npublish kind str \"smoke\"; floor int 4; level int 5\n\n\
    script cellar\nbarrier\npublish kind str \"water\"; floor int -1; level int 1\n\
    publish kind str \"battery\"; floor int 2; level int 1\n";
