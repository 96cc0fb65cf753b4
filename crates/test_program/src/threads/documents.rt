//! Lists documents whose outcome may move from run to run.

/// A document.
pub struct Document {
    /// What it is for.
    pub name: &'static str,
    /// Its text.
    pub text: &'static str,
}

/// Documents in which filters, advertisements and trees change while notifications travel.
pub const DOCUMENTS: [Document; 5] = [
    Document {
        name: "Filters that change while four clients publish",
        text: "siena 1\nsemantics subscription\nservers 3\nedge 1 2\nedge 2 3\nclient a 1\nclient b 2\nclient p 2\nclient q 3\n\
            script a\nsubscribe x int any\npublish x int 1\nunsubscribe x int any\nsubscribe x int > 5\npublish x int 7\n\
            script b\nsubscribe x int > 3\npublish x int 9\nunsubscribe x int > 3\npublish x int 2\n\
            script p\npublish x int 2\npublish x int 4\npublish x int 6\npublish x int 8\n\
            script q\npublish x int 3\npublish x int 5\nsubscribe x int < 5\npublish x int 1\npublish x int 8\n",
    },
    Document {
        name: "A star of five servers in three phases",
        text: "siena 1\nsemantics subscription\nservers 5\nedge 1 2\nedge 1 3\nedge 1 4\nedge 1 5\n\
            client a 2\nclient b 3\nclient c 4\nclient d 5\nclient e 1\n\
            script a\nsubscribe x int any\nbarrier\nunsubscribe x int any\nsubscribe x int >= 6\npublish x int 1\nbarrier\n\
            publish x int 9\nsubscribe y str prefix \"ab\"\n\
            script b\nbarrier\nsubscribe x int < 6\npublish x int 2\npublish x int 6\nbarrier\npublish y str \"abc\"\n\
            script c\npublish x int 3\nbarrier\npublish x int 7\nsubscribe x int = 7\nbarrier\npublish x int 7\nunsubscribe x int = 7\n\
            script d\nsubscribe y str any\npublish x int 4\npublish x int 8\nbarrier\npublish x int 5\nbarrier\npublish y str \"xy\"\n\
            script e\nbarrier\nbarrier\nsubscribe x int any; y str any\npublish x int 1; y str \"ab\"\n",
    },
    Document {
        name: "A tree that changes twice",
        text: "siena 2\nsemantics subscription\nservers 4\nedge 1 2\nedge 2 3\nedge 3 4\nphase 1\nedge 1 3\nedge 3 2\nedge 2 4\n\
            phase 2\nedge 4 1\nedge 4 2\nedge 4 3\nclient a 1\nclient b 2\nclient c 3\nclient d 4\n\
            script a\nsubscribe x int > 2\npublish x int 1\nbarrier\npublish x int 3\nunsubscribe x int > 2\nbarrier\npublish x int 5\n\
            script b\npublish x int 4\nbarrier\nsubscribe x int any\npublish x int 2\nbarrier\nunsubscribe x int any\npublish x int 6\n\
            script c\nsubscribe t time < 100\npublish x int 9\nbarrier\nsubscribe x int < 5\npublish t time 99\nbarrier\n\
            publish t time 100\nsubscribe x int >= 5\n\
            script d\nsubscribe x int any\npublish x int 3; t time 7\nbarrier\npublish x int 8\nbarrier\npublish x int 7\n",
    },
    Document {
        name: "Advertisements that come and go",
        text: "siena 1\nsemantics advertisement\nservers 3\nedge 1 2\nedge 2 3\nclient p 1\nclient q 2\nclient s 3\nclient t 2\n\
            script p\nadvertise x int any\npublish x int 1\npublish x int 6\nunadvertise x int any\npublish x int 7\n\
            advertise x int > 5\npublish x int 8\npublish x int 2\n\
            script q\npublish x int 4\nadvertise x int < 5\npublish x int 3\nbarrier\npublish x int 2\nunadvertise x int < 5\n\
            publish x int 1\n\
            script s\nsubscribe x int > 0\nbarrier\nunsubscribe x int > 0\nsubscribe x int < 3\n\
            script t\nadvertise x int = 5\nsubscribe x int >= 5\npublish x int 5\nbarrier\npublish x int 5\nunsubscribe x int >= 5\n",
    },
    Document {
        name: "Advertisements over a tree that changes",
        text: "siena 2\nsemantics advertisement\nservers 4\nedge 1 2\nedge 1 3\nedge 1 4\nphase 2\nedge 4 3\nedge 3 2\nedge 2 1\n\
            client p 2\nclient q 3\nclient s 4\nclient t 1\n\
            script p\nadvertise k str any; n int > 0\nbarrier\npublish k str \"smoke\"; n int 3\npublish n int 4\nbarrier\n\
            publish k str \"water\"; n int 5\nunadvertise k str any; n int > 0\nbarrier\npublish n int 6\n\
            script q\nadvertise n int < 10\npublish n int 1\nbarrier\npublish n int 2\nbarrier\npublish n int 9\nbarrier\npublish n int 8\n\
            script s\nsubscribe n int >= 3\nbarrier\nsubscribe k str = \"smoke\"\nbarrier\nunsubscribe n int >= 3\nbarrier\nsubscribe n int any\n\
            script t\nbarrier\nadvertise k str contains \"o\"\nsubscribe n int < 5\npublish k str \"smoke\"\nbarrier\npublish k str \"fog\"\nbarrier\n\
            publish k str \"sun\"\n",
    },
];
