//! Prints what reading answers of inputs with patterns that are refused, and of some that are read.
use crate::watched::print_outcomes;
use std::alloc::Global;
use test_support::Failure;

/// A document of 9 lines.
const DOCUMENT: &str =
    "siena 1\nsemantics subscription\nservers 1\nclient a 1\nclient b 1\nscript a\nsubscribe x int any\n\
        barrier\npublish x int 1\n";

/// Where an input is cut.
const CUTS: [&str; 12] = [
    "",
    "patterns",
    "patterns\n",
    "patterns\r\n",
    "patterns\r",
    "patterns \n",
    " patterns\n",
    "Patterns\n",
    "#patterns\npatterns\n\n# patterns\n",
    "patterns\npatterns\n",
    "publish x\npatterns\npattern c up\n",
    "publish x int 1\npatterns\r\npattern a up\r\nstep x int = 1\r\nstep x int = 2\r\n",
];

/// Patterns with too few steps, and lines that don't belong.
const SHORT_AND_ORDER: [&str; 11] = [
    "pattern a up\n",
    "pattern a up\nstep x int = 1\n",
    "pattern a up\nstep x int = 1\n\n# step x int = 2\n",
    "pattern a up\nstep x int = 1\nstep x int = 2\n",
    "step x int = 1\n",
    "pattern a up\npattern a down\n",
    "pattern a up\nstep x int = 1\npattern c up\n",
    "pattern a up\nstep x int = 1\nsteps x int = 2\n",
    "pattern a up\nstep x int = 1\nstep x int = 2\nsteps x int = 2\n",
    "\"pattern\" a up\n",
    "subscribe x int = 1\n",
];

/// The words of a pattern.
const WORDS_AND_NAMES: [&str; 10] = [
    "pattern\n",
    "pattern a\n",
    "pattern a b c\n",
    "pattern a 1b\n",
    "pattern;a b\n",
    "pattern c up\n",
    "pattern a up\nstep x int = 1\nstep x int = 2\npattern a up\n",
    "pattern a up\nstep x int = 1\nstep x int = 2\npattern b up\nstep x int = 3\nstep x int = 4\n",
    "\tpattern\ta  up \n step x int=1 \n\tstep\tx int=2;x int>0;x int>0\n",
    "pattern up a\n",
];

/// The steps of a pattern.
const STEPS: [&str; 14] = [
    "step\n",
    "step x int\n",
    "step x int >\n",
    "step;x int = 1\n",
    "step \"x\" int = 1\n",
    "step x int any;\n",
    "step t time = 1\n",
    "step x int = 99999999999999999999\n",
    "step s str prefix \"\"\n",
    "step s str prefix \"\"; x int = 99999999999999999999\n",
    "step x int > 1; x int > 2; x int > 3; x int > 4; x int > 5; x int > 6; x int > 7; x int > 8; x int > 9; x int > 10; \
        x int > 11; x int > 12; x int > 13; x int > 14; x int > 15; x int > 16; x int > 17\n",
    "step x int > 2\nstep x int > 3\nstep x int > 4\nstep x int > 5\nstep x int > 6\nstep x int > 7\nstep x int > 8\n",
    "step x int > 2\nstep x int > 3\nstep x int > 4\nstep x int > 5\nstep x int > 6\nstep x int > 7\nstep x int > 8\n\
        step x int > 9\n",
    "step x int > 2\nstep x int > 3\nstep x int > 4\nstep x int > 5\nstep x int > 6\nstep x int > 7\nstep x int > 8\n\
        step x int >\n",
];

/// Inputs whose document part is none.
const NO_DOCUMENTS: [&str; 4] = [
    "patterns\n",
    "siena 1\npatterns\n",
    "siena 1\nsemantics subscription\nservers 2\npatterns\nstep\n",
    "siena 2\nsemantics subscription\nservers 1\nclient a 1\npatterns\npattern a up\nstep t time = 1\nstep t time > 1\n",
];

/// Prints the outcome of each.
pub fn print_refused(rt: &impl Print, alloc: Global) -> Result<(), Failure> {
    print_outcomes(rt, alloc, DOCUMENT, &CUTS)?;
    let beginning = format!(in alloc; "{DOCUMENT}patterns\n")?;
    print_outcomes(rt, alloc, beginning.as_str(), &SHORT_AND_ORDER)?;
    print_outcomes(rt, alloc, beginning.as_str(), &WORDS_AND_NAMES)?;
    let beginning = format!(in alloc; "{DOCUMENT}patterns\npattern a up\nstep x int = 1\n")?;
    print_outcomes(rt, alloc, beginning.as_str(), &STEPS)?;
    print_outcomes(rt, alloc, "", &NO_DOCUMENTS)
}
