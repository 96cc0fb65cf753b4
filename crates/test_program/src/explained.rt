//! Rows of explanations: each of their lines, each verdict and each reason, and what isn't there.
use crate::examples::{ALARMS, MACHINES, MARKET};
use crate::row::Row;
use crate::usage::USAGE_LINE;

/// Smoke over two links.
const SMOKE: &str =
    "siena 1\nsemantics subscription\nservers 3\nedge 1 2\nedge 2 3\nclient brigade 1\nclient room 2\nclient attic 3\n\
    script brigade\nsubscribe kind str = \"smoke\"; level int >= 3\nscript room\nsubscribe floor int any\nscript attic\n\
    barrier\npublish kind str \"smoke\"; level int 2\npublish kind str \"smoke\"; level int 5\n";

/// Filters that come and go in the phase of the publication.
const COMING: &str =
    "siena 1\nsemantics subscription\nservers 1\nclient early 1\nclient late 1\nclient both 1\nclient p 1\n\
    script early\nsubscribe x int > 3\nbarrier\nunsubscribe x int > 3\nscript late\nbarrier\nsubscribe x int > 5\n\
    script both\nbarrier\nsubscribe x int < 9\nunsubscribe x int < 9\nbarrier\nsubscribe x int any\n\
    script p\nbarrier\npublish x int 7\n";

/// Advertisements that allow it or not, throughout the phase or in a part of it.
const ADVERTISED: &str =
    "siena 1\nsemantics advertisement\nservers 1\nclient s 1\nclient t 1\nclient p 1\nscript s\nsubscribe x int any\nscript t\nbarrier\n\
    subscribe x int any\nscript p\nadvertise x int < 5; y int any\nbarrier\npublish x int 4\npublish x int 9\n\
    advertise x int any\npublish x int 9\n";

/// A filter in the phase of a publication, in a part of it, and in other phases alone.
const PASSING: &str =
    "siena 1\nsemantics subscription\nservers 2\nedge 1 2\nclient q 1\nclient s 1\nclient p 2\nscript q\npublish x int 8\n\
    script s\nsubscribe x int > 3\nbarrier\nbarrier\nunsubscribe x int > 3\nscript p\nbarrier\npublish x int 7\nbarrier\n\
    publish x int 7\nbarrier\npublish x int 7\npublish x int 3\n";

/// Explanations of a publication for a client.
pub const EXPLAINED: [Row; 24] = [
    Row {
        name: "A filter that matches throughout the phase",
        words: "explain brigade attic 2",
        document: SMOKE,
        fault: "",
        text: "publication attic 2 kind str \"smoke\"; level int 5\nclient brigade\nphase 1\npath 3 2 1\n\
            filter kind str = \"smoke\"; level int >= 3\nmatches\nin force throughout the phase\n\
            owed: delivered exactly once in every run\nwalk delivers it\n",
    },
    Row {
        name: "A constraint that is not satisfied",
        words: "explain brigade attic 1",
        document: SMOKE,
        fault: "",
        text: "publication attic 1 kind str \"smoke\"; level int 2\nclient brigade\nphase 1\npath 3 2 1\n\
            filter kind str = \"smoke\"; level int >= 3\nunsatisfied level int >= 3 by level int 2\n\
            in force throughout the phase\nnever: no filter that matches is in force in the phase\n\
            walk does not deliver it\n",
    },
    Row {
        name: "An attribute that is not there",
        words: "explain room attic 2",
        document: SMOKE,
        fault: "",
        text: "publication attic 2 kind str \"smoke\"; level int 5\nclient room\nphase 1\npath 3 2\nfilter floor int any\n\
            unsatisfied floor int any as there is no such attribute\nin force throughout the phase\n\
            never: no filter that matches is in force in the phase\nwalk does not deliver it\n",
    },
    Row {
        name: "A client without filters",
        words: "explain attic attic 1",
        document: SMOKE,
        fault: "",
        text: "publication attic 1 kind str \"smoke\"; level int 2\nclient attic\nphase 1\npath 3\n\
            never: no filter that matches is in force in the phase\nwalk does not deliver it\n",
    },
    Row {
        name: "A client that is not there",
        words: "explain cellar attic 1",
        document: SMOKE,
        fault: "siena: explain: client: no client of the document has the first name\n",
        text: "",
    },
    Row {
        name: "A publisher that is not there",
        words: "explain brigade cellar 1",
        document: SMOKE,
        fault: "siena: explain: publisher: no client of the document has the second name\n",
        text: "",
    },
    Row {
        name: "Neither client there",
        words: "explain cellar cellar 9",
        document: SMOKE,
        fault: "siena: explain: client: no client of the document has the first name\n",
        text: "",
    },
    Row {
        name: "A publication that is not there",
        words: "explain brigade attic 3",
        document: SMOKE,
        fault: "siena: explain: number: the publisher has no publish command of this number\n",
        text: "",
    },
    Row {
        name: "A publication 0",
        words: "explain brigade attic 0",
        document: SMOKE,
        fault: "siena: explain: number: the publisher has no publish command of this number\n",
        text: "",
    },
    Row {
        name: "A publisher that publishes nothing",
        words: "explain brigade room 1",
        document: SMOKE,
        fault: "siena: explain: number: the publisher has no publish command of this number\n",
        text: "",
    },
    Row {
        name: "A number with leading zeros",
        words: "explain attic attic 0000000001",
        document: SMOKE,
        fault: "",
        text: "publication attic 1 kind str \"smoke\"; level int 2\nclient attic\nphase 1\npath 3\n\
            never: no filter that matches is in force in the phase\nwalk does not deliver it\n",
    },
    Row {
        name: "A filter that goes in the phase",
        words: "explain early p 1",
        document: COMING,
        fault: "",
        text: "publication p 1 x int 7\nclient early\nphase 1\npath 1\nfilter x int > 3\nmatches\nin force until command 2\n\
            may: no filter that matches is in force throughout the phase\nwalk delivers it\n",
    },
    Row {
        name: "A filter that comes in the phase",
        words: "explain late p 1",
        document: COMING,
        fault: "",
        text: "publication p 1 x int 7\nclient late\nphase 1\npath 1\nfilter x int > 5\nmatches\nin force since command 1\n\
            may: no filter that matches is in force throughout the phase\nwalk does not deliver it\n",
    },
    Row {
        name: "A filter that comes and goes in the phase",
        words: "explain both p 1",
        document: COMING,
        fault: "",
        text: "publication p 1 x int 7\nclient both\nphase 1\npath 1\nfilter x int < 9\nmatches\n\
            in force since command 1 until command 2\nmay: no filter that matches is in force throughout the phase\n\
            walk does not deliver it\n",
    },
    Row {
        name: "An advertisement that allows it throughout the phase",
        words: "explain s p 1",
        document: ADVERTISED,
        fault: "",
        text: "publication p 1 x int 4\nclient s\nphase 1\npath 1\nfilter x int any\nmatches\nin force throughout the phase\n\
            advertisement x int < 5; y int any\nallows it\nin force at the publish\nin force throughout the phase\n\
            advertisement x int any\nallows it\nnot in force at the publish\nin force since command 4\n\
            owed: delivered exactly once in every run\nwalk delivers it\n",
    },
    Row {
        name: "A publish that is refused",
        words: "explain s p 2",
        document: ADVERTISED,
        fault: "",
        text: "publication p 2 x int 9\nclient s\nphase 1\npath 1\nfilter x int any\nmatches\nin force throughout the phase\n\
            advertisement x int < 5; y int any\ndoes not allow x int 9\nin force at the publish\n\
            in force throughout the phase\nadvertisement x int any\nallows it\nnot in force at the publish\n\
            in force since command 4\nnever: refused, as no advertisement in force at the publish allows it\n\
            walk does not deliver it\n",
    },
    Row {
        name: "An advertisement that comes in the phase",
        words: "explain s p 3",
        document: ADVERTISED,
        fault: "",
        text: "publication p 3 x int 9\nclient s\nphase 1\npath 1\nfilter x int any\nmatches\nin force throughout the phase\n\
            advertisement x int < 5; y int any\ndoes not allow x int 9\nin force at the publish\n\
            in force throughout the phase\nadvertisement x int any\nallows it\nin force at the publish\n\
            in force since command 4\nmay: no advertisement that allows it is in force throughout the phase\n\
            walk delivers it\n",
    },
    Row {
        name: "A filter and an advertisement that come in the phase",
        words: "explain t p 3",
        document: ADVERTISED,
        fault: "",
        text: "publication p 3 x int 9\nclient t\nphase 1\npath 1\nfilter x int any\nmatches\nin force since command 1\n\
            advertisement x int < 5; y int any\ndoes not allow x int 9\nin force at the publish\n\
            in force throughout the phase\nadvertisement x int any\nallows it\nin force at the publish\n\
            in force since command 4\n\
            may: no filter that matches and no advertisement that allows it is in force throughout the phase\n\
            walk does not deliver it\n",
    },
    Row {
        name: "A client that publishes alone, under advertisement semantics",
        words: "explain p p 1",
        document: ADVERTISED,
        fault: "",
        text: "publication p 1 x int 4\nclient p\nphase 1\npath 1\nadvertisement x int < 5; y int any\nallows it\n\
            in force at the publish\nin force throughout the phase\nadvertisement x int any\nallows it\n\
            not in force at the publish\nin force since command 4\n\
            never: no filter that matches is in force in the phase\nwalk does not deliver it\n",
    },
    Row {
        name: "An alarm that is not loud enough",
        words: "explain brigade attic 1",
        document: ALARMS,
        fault: "",
        text: "publication attic 1 floor int 4; kind str \"smoke\"; level int 2\nclient brigade\nphase 1\npath 2 1\n\
            filter kind str = \"smoke\"; level int >= 3\nunsatisfied level int >= 3 by level int 2\n\
            in force throughout the phase\nnever: no filter that matches is in force in the phase\n\
            walk does not deliver it\n",
    },
    Row {
        name: "A price that is not advertised",
        words: "explain trader feed 3",
        document: MARKET,
        fault: "",
        text: "publication feed 3 price int 0; symbol str \"ACME\"\nclient trader\nphase 1\npath 4 2 3\n\
            filter price int < 5000; symbol str = \"ACME\"\nmatches\nin force throughout the phase\n\
            advertisement price int > 0; symbol str any\ndoes not allow price int 0\nin force at the publish\n\
            in force throughout the phase\nnever: refused, as no advertisement in force at the publish allows it\n\
            walk does not deliver it\n",
    },
    Row {
        name: "A machine whose watch begins in the same phase",
        words: "explain duty web 1",
        document: MACHINES,
        fault: "",
        text: "publication web 1 host str \"web-1\"; load int 97\nclient duty\nphase 0\npath 3 2 1\n\
            filter host str prefix \"web\"; load int > 90\nmatches\nin force since command 1\n\
            may: no filter that matches is in force throughout the phase\nwalk does not deliver it\n",
    },
    Row {
        name: "A document at fault, not explained",
        words: "explain brigade attic 2",
        document: "siena 3\n",
        fault: "siena: line 1: header: the first line is `siena 1` or `siena 2`\n",
        text: "",
    },
    Row {
        name: "Nothing to explain",
        words: "explain",
        document: SMOKE,
        fault: USAGE_LINE,
        text: "",
    },
];

/// Explanations of all publications for a client, and questions that are none.
pub const OUTLOOKS: [Row; 13] = [
    Row {
        name: "All publications: one that may come, of an earlier publisher, and then each chance",
        words: "explain s",
        document: PASSING,
        fault: "",
        text: "may q 1 x int 8\nowed p 1 x int 7\nmay p 2 x int 7\nnear p 3 x int 7\n",
    },
    Row {
        name: "All publications, under advertisement semantics: one that is refused is near",
        words: "explain s",
        document: ADVERTISED,
        fault: "",
        text: "owed p 1 x int 4\nnear p 2 x int 9\nmay p 3 x int 9\n",
    },
    Row {
        name: "All publications, for a client without filters",
        words: "explain attic",
        document: SMOKE,
        fault: "",
        text: "",
    },
    Row {
        name: "All alarms of the brigade",
        words: "explain brigade",
        document: ALARMS,
        fault: "",
        text: "owed attic 2 floor int 4; kind str \"smoke\"; level int 5\n",
    },
    Row {
        name: "All prices of the trader: one is refused, and one comes after its filter is withdrawn",
        words: "explain trader",
        document: MARKET,
        fault: "",
        text: "owed feed 1 price int 4250; symbol str \"ACME\"\nnear feed 3 price int 0; symbol str \"ACME\"\n\
            near feed 5 price int 4000; symbol str \"ACME\"\n",
    },
    Row {
        name: "All that the machines tell who is on duty",
        words: "explain duty",
        document: MACHINES,
        fault: "",
        text: "may web 1 host str \"web-1\"; load int 97\nowed web 2 host str \"web-1\"; load int 95\n\
            owed web 4 down bool true; host str \"web-2\"; since time 1700000300\n",
    },
    Row {
        name: "A client alone that is not there",
        words: "explain cellar",
        document: SMOKE,
        fault: "siena: explain: client: no client of the document has the first name\n",
        text: "",
    },
    Row {
        name: "A document at fault, of which all is asked",
        words: "explain brigade",
        document: "siena 3\n",
        fault: "siena: line 1: header: the first line is `siena 1` or `siena 2`\n",
        text: "",
    },
    Row {
        name: "A publication to explain without its number",
        words: "explain brigade attic",
        document: SMOKE,
        fault: USAGE_LINE,
        text: "",
    },
    Row {
        name: "A number that is none",
        words: "explain brigade attic x",
        document: SMOKE,
        fault: USAGE_LINE,
        text: "",
    },
    Row {
        name: "A number beyond 32 bits",
        words: "explain brigade attic 4294967296",
        document: SMOKE,
        fault: USAGE_LINE,
        text: "",
    },
    Row {
        name: "A number of 11 digits",
        words: "explain brigade attic 00000000001",
        document: SMOKE,
        fault: USAGE_LINE,
        text: "",
    },
    Row {
        name: "A question with a further word",
        words: "explain brigade attic 2 --sorted",
        document: SMOKE,
        fault: USAGE_LINE,
        text: "",
    },
];
