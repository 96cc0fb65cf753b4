//! The types of the faults for which a document is refused.
ghost use Rattle.std.specs.Prelude.{◌≡◌, IfOk, OnErr};
ghost use Rattle.document_reader.specs.declared.fault.LineFault.TheVariants as faults;
ghost use Rattle.document_reader.specs.declared.fault.InputFault.TheVariants as inputs;

use base;
use base::NoMemory;

/// What is at fault with a line, with the end of the document or with its bytes. On a line the faults are tested in the
/// order that the rule of its kind of line has.
#[derive(Clone, Copy, Debug, PartialEq, Eq)]
pub enum Fault {
    /// The document has more than 4,194,304 bytes.
    TooLong,
    /// It ends before its third content line.
    Ended,
    /// The first content line is neither `siena 1` nor `siena 2`.
    Header,
    /// A line of this kind doesn't belong here.
    Order,
    /// The words are not those of a line of this kind.
    Words,
    /// A number is out of its range, or names no server, or two servers are no neighbours.
    Range,
    /// The edges of a tree don't join all servers.
    Apart,
    /// An earlier edge of the tree joins the same two servers.
    Twice,
    /// Earlier edges of the tree lead from one end to the other, or the ends are equal.
    Loop,
    /// A name is given twice or is no client's, or the client has a script.
    Name,
    /// There are too many clients, too many barriers in a script, or too many constraints or attributes in a command.
    Count,
    /// The line is not of the form of a command.
    Syntax,
    /// A number or a string of a command is beyond its limits.
    Value,
    /// A pattern of a command is empty.
    Operand,
    /// A notice has a name twice.
    Repeat,
    /// There are more than 4,096 subscriptions, advertisements and withdrawals of them.
    Commands,
    /// There are more than 100,000 publications.
    Publications,
    /// The control commands may make too much text.
    MuchControl,
    /// The publications may make too many deliveries.
    MuchNotice,
    /// A turn of the schedule isn't permitted when it comes. No reading of a document answers it.
    BadTurn,
}

/// Why a line is not accepted, before its number is known: its fault, of one of these kinds, or out of memory.
#[derive(Clone, Copy, Debug, PartialEq, Eq)]
pub enum LineFault<K> {
    /// The line is at fault.
    Kind(K),
    /// Memory ran out.
    NoMemory,
}

impl<K> LineFault<K> {
    /// The fault of the line; an error where memory ran out.
    pub fn kind(self) -> Result<K, NoMemory>
        ensures kind { IfOk result (λ kind. self ≡ faults.Kind kind) }
        ensures memory { OnErr result (self ≡ faults.NoMemory) }
    {
        match self {
            LineFault::Kind(kind) => Ok(kind),
            LineFault::NoMemory => Err(NoMemory),
        }
    }
}

impl<K> From<NoMemory> for LineFault<K> {
    ghost from_gives = { λ _ e. e ≡ faults.NoMemory };

    fn from(_: NoMemory) -> Self {
        LineFault::NoMemory
    }
}

/// What a rule answers, unless the line is at fault or memory ran out.
pub(crate) type Ruled<T> = Result<T, LineFault<Fault>>;

/// Why bytes give no net.
#[derive(Clone, Copy, Debug, PartialEq, Eq)]
pub enum InputFault {
    /// The first line at fault, counted from 1 (the end of the document is the line behind the last, and 0 represents all
    /// bytes), with its first fault.
    Bad {
        /// The line.
        line: u32,
        /// Its fault.
        kind: Fault,
    },
    /// Memory ran out.
    NoMemory,
}

impl From<NoMemory> for InputFault {
    ghost from_gives = { λ _ e. e ≡ inputs.NoMemory };

    fn from(_: NoMemory) -> Self {
        InputFault::NoMemory
    }
}
