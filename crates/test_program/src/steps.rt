//! Runs step by step: the schedule of a document, and behind it the walk, with what each turn sends.
use crate::row::Row;

/// Documents that are replayed with their traces.
pub const STEPS: [Row; 16] = [
    Row {
        name: "A publication goes by the filters that are in force",
        words: "replay --trace",
        document: "siena 1\nsemantics subscription\nservers 1\nclient c1 1\nclient c2 1\nscript c1\nsubscribe x int = 7\nbarrier\n\
            script c2\nbarrier\npublish x int 7\npublish x int 5\nschedule\ncommand c1\nversion 1\ncommand c2\ncommand c2\n",
        fault: "",
        text: "client c1\ndeliver c2 1 x int 7\nclient c2\ntrace 4\nentry 1 1 command c1\nentry 2 1 version\nentry 3 1 command c2\n\
            entry 4 1 command c2\n",
    },
    Row {
        name: "The narrow filter goes nowhere, step by step",
        words: "replay --trace",
        document: "siena 1\nsemantics subscription\nservers 3\nedge 1 2\nedge 2 3\nclient a 1\nclient b 1\nclient p 3\nscript a\n\
            subscribe x int any\nscript b\nsubscribe x int > 5\nschedule\ncommand a\ncommand b\nversion 1\ntake 2 1\nversion 2\n\
            take 3 2\nversion 3\n",
        fault: "",
        text: "client a\nclient b\nclient p\ntrace 7\nentry 1 1 command a\nout 2 subs +{x int any}\nentry 2 1 command b\n\
            entry 3 1 version\nentry 2 2 take 1\nout 3 subs +{x int any}\nentry 3 2 version\nentry 3 3 take 2\nentry 4 3 version\n",
    },
    Row {
        name: "A notice that meets a withdrawal goes by the older version of the server between",
        words: "replay --trace",
        document: "siena 1\nsemantics subscription\nservers 3\nedge 1 2\nedge 2 3\nclient a 1\nclient b 1\nclient p 3\nscript a\n\
            subscribe x int any\nbarrier\nunsubscribe x int any\nscript b\nsubscribe x int > 5\nscript p\nbarrier\n\
            publish x int 9\nschedule\ncommand a\ncommand b\nversion 1\ntake 2 1\nversion 2\ntake 3 2\nversion 3\ncommand a\n\
            command p\nversion 1\ntake 2 1\ntake 2 3\nversion 2\ntake 1 2\ntake 3 2\nversion 3\n",
        fault: "",
        text: "client a\nclient b\ndeliver p 1 x int 9\nclient p\ntrace 16\nentry 1 1 command a\nout 2 subs +{x int any}\n\
            entry 2 1 command b\nentry 3 1 version\nentry 2 2 take 1\nout 3 subs +{x int any}\nentry 3 2 version\n\
            entry 3 3 take 2\nentry 4 3 version\nentry 5 1 command a\nout 2 subs -{x int any} +{x int > 5}\nentry 5 3 command p\n\
            out 2 notice 3 1 x int 9\nentry 6 1 version\nentry 6 2 take 1\nout 3 subs -{x int any} +{x int > 5}\n\
            entry 7 2 take 3\nout 1 notice 3 1 x int 9\nentry 8 2 version\nentry 8 1 take 2\nentry 7 3 take 2\nentry 8 3 version\n",
    },
    Row {
        name: "The notice comes before the withdrawal",
        words: "replay --trace",
        document: "siena 1\nsemantics subscription\nservers 3\nedge 1 2\nedge 2 3\nclient a 1\nclient b 1\nclient p 3\nscript a\n\
            subscribe x int any\nbarrier\nunsubscribe x int any\nscript b\nsubscribe x int > 5\nscript p\nbarrier\n\
            publish x int 9\nschedule\ncommand a\ncommand b\nversion 1\ntake 2 1\nversion 2\ntake 3 2\nversion 3\ncommand p\n\
            take 2 3\ntake 1 2\ncommand a\n",
        fault: "",
        text: "client a\ndeliver p 1 x int 9\nclient b\ndeliver p 1 x int 9\nclient p\ntrace 16\nentry 1 1 command a\n\
            out 2 subs +{x int any}\nentry 2 1 command b\nentry 3 1 version\nentry 2 2 take 1\nout 3 subs +{x int any}\n\
            entry 3 2 version\nentry 3 3 take 2\nentry 4 3 version\nentry 5 3 command p\nout 2 notice 3 1 x int 9\n\
            entry 6 2 take 3\nout 1 notice 3 1 x int 9\nentry 7 1 take 2\nentry 8 1 command a\n\
            out 2 subs -{x int any} +{x int > 5}\nentry 9 1 version\nentry 9 2 take 1\nout 3 subs -{x int any} +{x int > 5}\n\
            entry 10 2 version\nentry 10 3 take 2\nentry 11 3 version\n",
    },
    Row {
        name: "The withdrawal comes before the notice",
        words: "replay --trace",
        document: "siena 1\nsemantics subscription\nservers 3\nedge 1 2\nedge 2 3\nclient a 1\nclient b 1\nclient p 3\nscript a\n\
            subscribe x int any\nbarrier\nunsubscribe x int any\nscript b\nsubscribe x int > 5\nscript p\nbarrier\n\
            publish x int 9\nschedule\ncommand a\ncommand b\nversion 1\ntake 2 1\nversion 2\ntake 3 2\nversion 3\ncommand a\n\
            take 2 1\nversion 2\ncommand p\nversion 1\ntake 2 3\ntake 1 2\n",
        fault: "",
        text: "client a\nclient b\ndeliver p 1 x int 9\nclient p\ntrace 16\nentry 1 1 command a\nout 2 subs +{x int any}\n\
            entry 2 1 command b\nentry 3 1 version\nentry 2 2 take 1\nout 3 subs +{x int any}\nentry 3 2 version\n\
            entry 3 3 take 2\nentry 4 3 version\nentry 5 1 command a\nout 2 subs -{x int any} +{x int > 5}\nentry 6 2 take 1\n\
            out 3 subs -{x int any} +{x int > 5}\nentry 7 2 version\nentry 5 3 command p\nout 2 notice 3 1 x int 9\n\
            entry 6 1 version\nentry 8 2 take 3\nout 1 notice 3 1 x int 9\nentry 9 1 take 2\nentry 7 3 take 2\nentry 8 3 version\n",
    },
    Row {
        name: "A withdrawal uncovers an equal filter in other words, in one message",
        words: "replay --trace",
        document: "siena 1\nsemantics subscription\nservers 2\nedge 1 2\nclient a 1\nclient b 1\nscript a\nsubscribe x int > 1\nbarrier\n\
            unsubscribe x int > 1\nscript b\nsubscribe x int >= 2\nschedule\ncommand a\ncommand b\nversion 1\ntake 2 1\n\
            version 2\ncommand a\nversion 1\ntake 2 1\nversion 2\n",
        fault: "",
        text: "client a\nclient b\ntrace 9\nentry 1 1 command a\nout 2 subs +{x int > 1}\nentry 2 1 command b\nentry 3 1 version\n\
            entry 2 2 take 1\nentry 3 2 version\nentry 4 1 command a\nout 2 subs -{x int > 1} +{x int >= 2}\nentry 5 1 version\n\
            entry 5 2 take 1\nentry 6 2 version\n",
    },
    Row {
        name: "A filter goes where it is offered something",
        words: "replay --trace",
        document: "siena 1\nsemantics advertisement\nservers 2\nedge 1 2\nclient p 1\nclient s 2\nscript p\nadvertise x int < 3\n\
            script s\nbarrier\nsubscribe x int > 5\nbarrier\nsubscribe x int < 9\nschedule\ncommand p\ntake 2 1\ncommand s\n\
            version 2\ncommand s\ntake 1 2\nversion 1\nversion 2\n",
        fault: "",
        text: "client p\nclient s\ntrace 8\nentry 1 1 command p\nout 2 advs +{x int < 3}\nentry 2 2 take 1\nentry 3 2 command s\n\
            entry 4 2 version\nentry 5 2 command s\nout 1 subs +{x int < 9}\nentry 6 1 take 2\nentry 7 1 version\n\
            entry 6 2 version\n",
    },
    Row {
        name: "What no advertisement allows is refused",
        words: "replay --trace",
        document: "siena 1\nsemantics advertisement\nservers 1\nclient p 1\nscript p\npublish x int 1\nadvertise x int any\n\
            publish x int 1\nschedule\ncommand p\ncommand p\ncommand p\n",
        fault: "",
        text: "client p\nrefused 1 unadvertised\ntrace 3\nentry 1 1 command p\nentry 2 1 command p\nentry 3 1 command p\n",
    },
    Row {
        name: "Two publications with one notice are two",
        words: "replay --trace",
        document: "siena 1\nsemantics subscription\nservers 1\nclient s 1\nclient p 1\nscript s\nsubscribe x int any\nscript p\nbarrier\n\
            publish x int 1\npublish x int 1\nschedule\ncommand s\nversion 1\ncommand p\ncommand p\n",
        fault: "",
        text: "client s\ndeliver p 1 x int 1\ndeliver p 2 x int 1\nclient p\ntrace 4\nentry 1 1 command s\nentry 2 1 version\n\
            entry 3 1 command p\nentry 4 1 command p\n",
    },
    Row {
        name: "A client receives what it publishes itself",
        words: "replay --trace",
        document: "siena 1\nsemantics subscription\nservers 1\nclient a 1\nscript a\nsubscribe x int any\nbarrier\npublish x int 4\n\
            schedule\ncommand a\nversion 1\ncommand a\n",
        fault: "",
        text: "client a\ndeliver a 1 x int 4\ntrace 3\nentry 1 1 command a\nentry 2 1 version\nentry 3 1 command a\n",
    },
    Row {
        name: "Until the next version notices go by the last",
        words: "replay --trace",
        document: "siena 1\nsemantics subscription\nservers 1\nclient a 1\nclient p 1\nscript a\nsubscribe x int > 5\n\
            subscribe x int = 1\nsubscribe x int any\nbarrier\nunsubscribe x int any\nsubscribe x int any\nscript p\nbarrier\n\
            publish x int 8\nschedule\ncommand a\ncommand a\ncommand a\nversion 1\ncommand a\ncommand a\ncommand p\n",
        fault: "",
        text: "client a\ndeliver p 1 x int 8\nclient p\ntrace 8\nentry 1 1 command a\nentry 2 1 command a\nentry 3 1 command a\n\
            entry 4 1 version\nentry 5 1 command a\nentry 6 1 command a\nentry 7 1 command p\nentry 8 1 version\n",
    },
    Row {
        name: "Of a chain only the widest is told, and after its withdrawal the next",
        words: "replay --trace",
        document: "siena 1\nsemantics subscription\nservers 2\nedge 1 2\nclient a 1\nclient b 1\nscript a\nsubscribe x int > 0\n\
            unsubscribe x int > 0\nscript b\nsubscribe x int > 1\nsubscribe x int > 2\nsubscribe x int > 3\nschedule\ncommand b\n\
            command b\ncommand b\ncommand a\ncommand a\n",
        fault: "",
        text: "client a\nclient b\ntrace 12\nentry 1 1 command b\nout 2 subs +{x int > 1}\nentry 2 1 command b\nentry 3 1 command b\n\
            entry 4 1 command a\nout 2 subs -{x int > 1} +{x int > 0}\nentry 5 1 command a\nout 2 subs -{x int > 0} +{x int > 1}\n\
            entry 6 1 version\nentry 2 2 take 1\nentry 3 2 version\nentry 5 2 take 1\nentry 6 2 version\nentry 7 2 take 1\n\
            entry 8 2 version\n",
    },
    Row {
        name: "Three filters come and go",
        words: "replay --trace",
        document: "siena 1\nsemantics subscription\nservers 2\nedge 1 2\nclient a 1\nscript a\nsubscribe x int = 1\nsubscribe x int = 2\n\
            subscribe y bool any\nunsubscribe x int < 2\nunsubscribe x int = 2\nunsubscribe y bool any\nschedule\ncommand a\n\
            command a\ncommand a\ncommand a\ncommand a\ncommand a\n",
        fault: "",
        text: "client a\ntrace 19\nentry 1 1 command a\nout 2 subs +{x int = 1}\nentry 2 1 command a\nout 2 subs +{x int = 2}\n\
            entry 3 1 command a\nout 2 subs +{y bool any}\nentry 4 1 command a\nout 2 subs -{x int = 1}\nentry 5 1 command a\n\
            out 2 subs -{x int = 2}\nentry 6 1 command a\nout 2 subs -{y bool any}\nentry 7 1 version\nentry 2 2 take 1\n\
            entry 3 2 version\nentry 4 2 take 1\nentry 5 2 version\nentry 6 2 take 1\nentry 7 2 version\nentry 8 2 take 1\n\
            entry 9 2 version\nentry 10 2 take 1\nentry 11 2 version\nentry 12 2 take 1\nentry 13 2 version\n",
    },
    Row {
        name: "What one client takes back another one still holds",
        words: "replay --trace",
        document: "siena 1\nsemantics subscription\nservers 2\nedge 1 2\nclient a 1\nclient b 1\nscript a\nsubscribe x int any\n\
            unsubscribe x int any\nscript b\nsubscribe x int any\nschedule\ncommand a\ncommand b\ncommand a\n",
        fault: "",
        text: "client a\nclient b\ntrace 6\nentry 1 1 command a\nout 2 subs +{x int any}\nentry 2 1 command b\nentry 3 1 command a\n\
            entry 4 1 version\nentry 2 2 take 1\nentry 3 2 version\n",
    },
    Row {
        name: "A publish waits for one advertisement that allows all of it",
        words: "replay --trace",
        document: "siena 1\nsemantics advertisement\nservers 1\nclient p 1\nscript p\npublish x int 1\nadvertise x int any\n\
            publish x int 1\nadvertise y int any\npublish x int 1; y int 1\nunadvertise x int any; y int any\npublish x int 1\n\
            schedule\ncommand p\ncommand p\ncommand p\ncommand p\ncommand p\ncommand p\ncommand p\n",
        fault: "",
        text: "client p\nrefused 1 unadvertised\nrefused 3 unadvertised\nrefused 4 unadvertised\ntrace 7\nentry 1 1 command p\n\
            entry 2 1 command p\nentry 3 1 command p\nentry 4 1 command p\nentry 5 1 command p\nentry 6 1 command p\n\
            entry 7 1 command p\n",
    },
    Row {
        name: "Without advertisement semantics no publish is refused",
        words: "replay --trace",
        document: "siena 1\nsemantics subscription\nservers 1\nclient p 1\nscript p\npublish x int 1\nadvertise y int < 3\n\
            subscribe x int any\npublish x int 2\nschedule\ncommand p\ncommand p\ncommand p\ncommand p\n",
        fault: "",
        text: "client p\ntrace 5\nentry 1 1 command p\nentry 2 1 command p\nentry 3 1 command p\nentry 4 1 command p\n\
            entry 5 1 version\n",
    },
];
