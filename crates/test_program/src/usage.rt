//! Rows of words that the program doesn't know.
use crate::row::Row;

/// The line that names the words.
pub const USAGE_LINE: &str =
    "siena: usage: walk, run, replay or hier [--sorted] [--trace]; flood; traffic [--dot]; patterns; \
    explain CLIENT [PUBLISHER NUMBER]; audit [--hier]; check; format; gen --seed N [--summary]; help; version\n";

/// Words over a document that is good, or over none.
pub const USAGE: [Row; 14] = [
    Row {
        name: "An option twice",
        words: "walk --sorted --sorted",
        document: "siena 1\nsemantics subscription\nservers 1\nclient c1 1\nclient c2 1\nscript c1\n\
            subscribe x int = 7\nbarrier\nscript c2\nbarrier\npublish x int 7\npublish x int 5\n",
        fault: USAGE_LINE,
        text: "",
    },
    Row {
        name: "An unknown word",
        words: "fly",
        document: "siena 1\nsemantics subscription\nservers 1\nclient c1 1\nclient c2 1\nscript c1\n\
            subscribe x int = 7\nbarrier\nscript c2\nbarrier\npublish x int 7\npublish x int 5\n",
        fault: USAGE_LINE,
        text: "",
    },
    Row {
        name: "No seed",
        words: "gen",
        document: "siena 1\nsemantics subscription\nservers 1\nclient c1 1\nclient c2 1\nscript c1\n\
            subscribe x int = 7\nbarrier\nscript c2\nbarrier\npublish x int 7\npublish x int 5\n",
        fault: USAGE_LINE,
        text: "",
    },
    Row {
        name: "A seed that is no number",
        words: "gen --seed x",
        document: "siena 1\nsemantics subscription\nservers 1\nclient c1 1\nclient c2 1\nscript c1\n\
            subscribe x int = 7\nbarrier\nscript c2\nbarrier\npublish x int 7\npublish x int 5\n",
        fault: USAGE_LINE,
        text: "",
    },
    Row {
        name: "No words",
        words: "",
        document: "siena 1\nsemantics subscription\nservers 1\nclient c1 1\nclient c2 1\nscript c1\n\
            subscribe x int = 7\nbarrier\nscript c2\nbarrier\npublish x int 7\npublish x int 5\n",
        fault: USAGE_LINE,
        text: "",
    },
    Row {
        name: "An option of another word",
        words: "flood --sorted",
        document: "siena 1\nsemantics subscription\nservers 1\nclient c1 1\nclient c2 1\nscript c1\n\
            subscribe x int = 7\nbarrier\nscript c2\nbarrier\npublish x int 7\npublish x int 5\n",
        fault: USAGE_LINE,
        text: "",
    },
    Row {
        name: "A seed beyond 64 bits",
        words: "gen --seed 18446744073709551616",
        document: "siena 1\nsemantics subscription\nservers 1\nclient c1 1\nclient c2 1\nscript c1\n\
            subscribe x int = 7\nbarrier\nscript c2\nbarrier\npublish x int 7\npublish x int 5\n",
        fault: USAGE_LINE,
        text: "",
    },
    Row {
        name: "A seed of 21 digits",
        words: "gen --seed 000000000000000000001",
        document: "siena 1\nsemantics subscription\nservers 1\nclient c1 1\nclient c2 1\nscript c1\n\
            subscribe x int = 7\nbarrier\nscript c2\nbarrier\npublish x int 7\npublish x int 5\n",
        fault: USAGE_LINE,
        text: "",
    },
    Row {
        name: "Two seeds",
        words: "gen --seed 1 --seed=1",
        document: "siena 1\nsemantics subscription\nservers 1\nclient c1 1\nclient c2 1\nscript c1\n\
            subscribe x int = 7\nbarrier\nscript c2\nbarrier\npublish x int 7\npublish x int 5\n",
        fault: USAGE_LINE,
        text: "",
    },
    Row {
        name: "A summary twice",
        words: "gen --summary --seed 1 --summary",
        document: "siena 1\nsemantics subscription\nservers 1\nclient c1 1\nclient c2 1\nscript c1\n\
            subscribe x int = 7\nbarrier\nscript c2\nbarrier\npublish x int 7\npublish x int 5\n",
        fault: USAGE_LINE,
        text: "",
    },
    Row {
        name: "A seed that is missing",
        words: "gen --seed --summary",
        document: "siena 1\nsemantics subscription\nservers 1\nclient c1 1\nclient c2 1\nscript c1\n\
            subscribe x int = 7\nbarrier\nscript c2\nbarrier\npublish x int 7\npublish x int 5\n",
        fault: USAGE_LINE,
        text: "",
    },
    Row {
        name: "Help with a further word",
        words: "--help walk",
        document: "",
        fault: USAGE_LINE,
        text: "",
    },
    Row {
        name: "A version with an option",
        words: "version --sorted",
        document: "",
        fault: USAGE_LINE,
        text: "",
    },
    Row {
        name: "A help that is not spelled so",
        words: "-h",
        document: "",
        fault: USAGE_LINE,
        text: "",
    },
];
