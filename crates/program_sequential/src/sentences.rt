//! What the kinds of refusals mean, in the words of their user.
ghost use Rattle.std.specs.Prelude.{◌≡◌};
ghost use Rattle.program_sequential.specs.Sentences.{kind_means, pattern_means, unknown_means};

use crate::unknown::Unknown;
use document_reader::Fault;
use output_explain::ExplainFault;
use output_patterns::PatternKind;

const VALUE: &[u8] =
    b"an int is from -9223372036854775808 to 9223372036854775807, a time at most 18446744073709551615, a str at most 1024 bytes";

const OPERAND: &[u8] = b"prefix, suffix and contains have an operand of at least 1 byte";

/// What a fault of a document means.
pub fn kind_means(kind: Fault) -> &'static [u8]
    ensures { result.now ≡ kind_means kind }
{
    match kind {
        Fault::TooLong => {
            b"the document has more than 4194304 bytes, or what is audited more than 268435456"
        }
        Fault::Ended => b"the document ends before its lines `siena`, `semantics` and `servers`",
        Fault::Header => b"the first line is `siena 1` or `siena 2`",
        Fault::Order => {
            b"such a line doesn't belong here; the order is siena, semantics, servers, edge, phase, client, script, schedule"
        }
        Fault::Words => b"the words behind the first are not those of such a line",
        Fault::Range => {
            b"servers are 1 to 64, a server is one of these, `take` names neighbours, and phases rise from 1 to 4095"
        }
        Fault::Apart => b"the edges of this tree don't join all servers",
        Fault::Twice => b"an earlier edge of this tree joins these two servers",
        Fault::Loop => {
            b"earlier edges of this tree lead from one of these servers to the other, or the two are equal"
        }
        Fault::Name => {
            b"this client is given twice, has a script already, or is none of the document's"
        }
        Fault::Count => {
            b"more than 1024 clients, 4095 barriers of a script, 16 constraints of a filter, 64 of an advertisement, or 64 attributes"
        }
        Fault::Syntax => {
            b"the command is not of its form, as `subscribe NAME KIND OPERATOR VALUE; ..` or `publish NAME KIND VALUE; ..`"
        }
        Fault::Value => VALUE,
        Fault::Operand => OPERAND,
        Fault::Repeat => b"a notification has one name twice",
        Fault::Commands => b"more than 4096 commands of subscriptions and advertisements",
        Fault::Publications => b"more than 100000 publish commands",
        Fault::MuchControl => {
            b"(1 + unsubscribe and unadvertise commands) * bytes of control lines * servers is more than 2147483648"
        }
        Fault::MuchNotice => b"bytes of publish lines * clients is more than 268435456",
        Fault::BadTurn => b"this turn is not permitted when it comes",
    }
}

/// What a fault of patterns means.
pub fn pattern_means(kind: PatternKind) -> &'static [u8]
    ensures { result.now ≡ pattern_means kind }
{
    match kind {
        PatternKind::Short => b"a pattern has 2 to 8 steps, and this one has fewer than 2",
        PatternKind::Order => {
            b"behind `patterns` stand lines `pattern CLIENT LABEL`, and behind each the steps of this pattern"
        }
        PatternKind::Words => b"behind `pattern` stand two names, of a client and of the pattern",
        PatternKind::Name => b"no client has this name, or it has a pattern of this label",
        PatternKind::Count => {
            b"more than 1024 patterns, 8 steps of a pattern, or 16 constraints of a step"
        }
        PatternKind::Syntax => {
            b"the step is not of the form of a subscription, as `step NAME KIND OPERATOR VALUE; ..`"
        }
        PatternKind::Value => VALUE,
        PatternKind::Operand => OPERAND,
    }
}

/// What it means that something isn't there.
pub fn unknown_means(kind: Unknown) -> &'static [u8]
    ensures { result.now ≡ unknown_means kind }
{
    match kind {
        Unknown::Client => ExplainFault::NoClient.means(),
        Unknown::Publisher => ExplainFault::NoPublisher.means(),
        Unknown::Number => ExplainFault::NoPublication.means(),
    }
}
