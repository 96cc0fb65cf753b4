//! Rows of documents in their canonical form.
use crate::row::Row;
use crate::usage::USAGE_LINE;

/// Documents with what the word `format` writes of them.
pub const FORMATS: [Row; 5] = [
    Row {
        name: "A document in another spelling",
        words: "format",
        document: "# a comment\n\n siena  2 \r\nsemantics\tadvertisement\nservers 3\nedge 3 2\nedge 2 1\nphase 2\n\
            edge 1 3\nedge 3 2\nclient b 3\nclient a 01\nscript a\npublish z bool true;a str \"x\ty\"\nbarrier\n\
            subscribe x int>+5;x int>5 ; a str any\nscript b\nadvertise t time any\nbarrier\nbarrier\nschedule\n\
            command a\n\ntake 2 1\nversion 3",
        fault: "",
        text: "siena 2\nsemantics advertisement\nservers 3\nedge 1 2\nedge 2 3\nphase 2\nedge 1 3\nedge 2 3\n\
            client b 3\nclient a 1\nscript b\nadvertise t time any\nbarrier\nbarrier\nscript a\n\
            publish a str \"x\\ty\"; z bool true\nbarrier\nsubscribe a str any; x int > 5\nschedule\ncommand a\n\
            take 2 1\nversion 3\n",
    },
    Row {
        name: "The canonical form itself",
        words: "format",
        document: "siena 2\nsemantics advertisement\nservers 3\nedge 1 2\nedge 2 3\nphase 2\nedge 1 3\nedge 2 3\n\
            client b 3\nclient a 1\nscript b\nadvertise t time any\nbarrier\nbarrier\nscript a\n\
            publish a str \"x\\ty\"; z bool true\nbarrier\nsubscribe a str any; x int > 5\nschedule\ncommand a\n\
            take 2 1\nversion 3\n",
        fault: "",
        text: "siena 2\nsemantics advertisement\nservers 3\nedge 1 2\nedge 2 3\nphase 2\nedge 1 3\nedge 2 3\n\
            client b 3\nclient a 1\nscript b\nadvertise t time any\nbarrier\nbarrier\nscript a\n\
            publish a str \"x\\ty\"; z bool true\nbarrier\nsubscribe a str any; x int > 5\nschedule\ncommand a\n\
            take 2 1\nversion 3\n",
    },
    Row {
        name: "Scripts without commands, and a schedule without turns",
        words: "format",
        document: "siena 1\nsemantics subscription\nservers 1\nclient a 1\nclient b 1\nscript b\nscript a\n\
            unsubscribe x int = -03\nschedule\n",
        fault: "",
        text: "siena 1\nsemantics subscription\nservers 1\nclient a 1\nclient b 1\nscript a\nunsubscribe x int = -3\n",
    },
    Row {
        name: "A document at fault, not formatted",
        words: "format",
        document: "siena 1\nsemantics subscription\nservers 2\n",
        fault: "siena: line 4: apart: the edges of this tree don't join all servers\n",
        text: "",
    },
    Row {
        name: "A format with a further word",
        words: "format --sorted",
        document: "siena 1\nsemantics subscription\nservers 1\n",
        fault: USAGE_LINE,
        text: "",
    },
];
