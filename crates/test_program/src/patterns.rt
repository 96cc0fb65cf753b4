//! Rows of documents with patterns, and where these occur.
use crate::row::Row;
use crate::usage::USAGE_LINE;

/// Documents with patterns.
pub const PATTERNS: [Row; 15] = [
    Row {
        name: "A pattern that occurs twice",
        words: "patterns",
        document: "siena 1\nsemantics subscription\nservers 1\nclient a 1\nscript a\nsubscribe x int any\nbarrier\n\
            publish x int 1\npublish x int 2\npublish x int 1\npublish x int 3\npublish x int 2\npatterns\n\
            pattern a up\nstep x int = 1\nstep x int = 2\n",
        fault: "",
        text: "pattern a up\nfound a 1 a 2\nfound a 3 a 5\n",
    },
    Row {
        name: "A pattern of one step",
        words: "patterns",
        document: "siena 1\nsemantics subscription\nservers 1\nclient a 1\nscript a\nsubscribe x int any\nbarrier\n\
            publish x int 1\npublish x int 2\npublish x int 1\npublish x int 3\npublish x int 2\npatterns\n\
            pattern a up\nstep x int = 1\n",
        fault: "siena: line 16: short: a pattern has 2 to 8 steps, and this one has fewer than 2\n",
        text: "",
    },
    Row {
        name: "A step that breaks off",
        words: "patterns",
        document: "siena 1\nsemantics subscription\nservers 1\nclient a 1\nscript a\nsubscribe x int any\nbarrier\n\
            publish x int 1\npublish x int 2\npublish x int 1\npublish x int 3\npublish x int 2\npatterns\n\
            pattern a up\nstep x int = 1\nstep x int >\n",
        fault: "siena: line 16: syntax: the step is not of the form of a subscription, as `step NAME KIND OPERATOR VALUE; ..`\n",
        text: "",
    },
    Row {
        name: "No line of patterns",
        words: "patterns",
        document: "siena 1\nsemantics subscription\nservers 1\nclient a 1\nscript a\nsubscribe x int any\nbarrier\n\
            publish x int 1\npublish x int 2\npublish x int 1\npublish x int 3\npublish x int 2\n",
        fault: "",
        text: "",
    },
    Row {
        name: "A document at fault before its patterns",
        words: "patterns",
        document: "siena 1\nsemantics subscription\nservers 1\nclient a 1\nscript a\npublish x int\npatterns\nstep\n",
        fault: "siena: line 6: syntax: the command is not of its form, as `subscribe NAME KIND OPERATOR VALUE; ..` or `publish NAME KIND VALUE; ..`\n",
        text: "",
    },
    Row {
        name: "A document that ends at its patterns",
        words: "patterns",
        document: "siena 1\nsemantics subscription\npatterns\npattern a up\n",
        fault: "siena: line 3: ended: the document ends before its lines `siena`, `semantics` and `servers`\n",
        text: "",
    },
    Row {
        name: "A client without deliveries, and one with those of two publishers",
        words: "patterns",
        document: "siena 1\nsemantics subscription\nservers 2\nedge 1 2\nclient a 1\nclient b 2\nclient c 2\nscript a\n\
            subscribe x int > 0\nscript b\nbarrier\npublish x int 5\npublish x int 0\npublish x int 7\nscript c\nbarrier\n\
            barrier\npublish x int 6\npublish x int 8\npatterns\npattern c none\nstep x int any\nstep x int any\n\
            pattern a rise\nstep x int = 5\nstep x int = 6\npattern a two\nstep x int > 5\nstep x int > 5\n",
        fault: "",
        text: "pattern c none\npattern a rise\nfound b 1 c 1\npattern a two\nfound b 3 c 1\n",
    },
    Row {
        name: "Patterns with a further word",
        words: "patterns --sorted",
        document: "siena 1\nsemantics subscription\nservers 1\n",
        fault: USAGE_LINE,
        text: "",
    },
    Row {
        name: "A walk of a document with patterns",
        words: "walk",
        document: "siena 1\nsemantics subscription\nservers 1\npatterns\n",
        fault: "siena: line 4: order: such a line doesn't belong here; the order is siena, semantics, servers, edge, phase, client, script, schedule\n",
        text: "",
    },
    Row {
        name: "A label twice",
        words: "patterns",
        document: "siena 1\nsemantics subscription\nservers 1\nclient a 1\npatterns\npattern a up\nstep x int any\n\
            step x int any\npattern a up\n",
        fault: "siena: line 9: name: no client has this name, or it has a pattern of this label\n",
        text: "",
    },
    Row {
        name: "A step before any pattern",
        words: "patterns",
        document: "siena 1\nsemantics subscription\nservers 1\nclient a 1\npatterns\nstep x int any\n",
        fault: "siena: line 6: order: behind `patterns` stand lines `pattern CLIENT LABEL`, and behind each the steps of this pattern\n",
        text: "",
    },
    Row {
        name: "A pattern without a label",
        words: "patterns",
        document: "siena 1\nsemantics subscription\nservers 1\nclient a 1\npatterns\npattern a\n",
        fault: "siena: line 6: words: behind `pattern` stand two names, of a client and of the pattern\n",
        text: "",
    },
    Row {
        name: "A ninth step",
        words: "patterns",
        document: "siena 1\nsemantics subscription\nservers 1\nclient a 1\npatterns\npattern a up\n\
            step x int any\nstep x int any\nstep x int any\nstep x int any\nstep x int any\n\
            step x int any\nstep x int any\nstep x int any\nstep x int any\n",
        fault: "siena: line 15: count: more than 1024 patterns, 8 steps of a pattern, or 16 constraints of a step\n",
        text: "",
    },
    Row {
        name: "A step beyond 64 bits",
        words: "patterns",
        document: "siena 1\nsemantics subscription\nservers 1\nclient a 1\npatterns\npattern a up\nstep x int = 99999999999999999999\n",
        fault: "siena: line 7: value: an int is from -9223372036854775808 to 9223372036854775807, a time at most \
            18446744073709551615, a str at most 1024 bytes\n",
        text: "",
    },
    Row {
        name: "A step with an empty operand",
        words: "patterns",
        document: "siena 1\nsemantics subscription\nservers 1\nclient a 1\npatterns\npattern a up\nstep s str prefix \"\"\n",
        fault: "siena: line 7: operand: prefix, suffix and contains have an operand of at least 1 byte\n",
        text: "",
    },
];
