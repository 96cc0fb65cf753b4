//! Makes filters and notices as monitoring and market systems have them.
ghost use Rattle.std.specs.Prelude.{◌<◌, ◌≤◌};

use crate::fault::Fault;
use crate::plan::{Plan, Subject};
use crate::random::Random;
use crate::words::{Place, Words, piece};
use filter_constraints::{Constraint, Op};
use filter_types::{Filter, Notice};
use filter_values::{Kind, Name, Text, Value};
use std::alloc::Global;

/// Names, each with most of its values of the kind that stands at the same place of `KINDS`.
const NAMES: [&[u8]; 24] = [
    b"price",
    b"symbol",
    b"urgent",
    b"volume",
    b"exchange",
    b"load",
    b"host",
    b"memory",
    b"service",
    b"latency",
    b"severity",
    b"region",
    b"active",
    b"port",
    b"user",
    b"errors",
    b"message",
    b"quantity",
    b"currency",
    b"age",
    b"weight",
    b"origin",
    b"open",
    b"retries",
];

/// The kinds of the names at ten places, and again at the next ten.
const KINDS: [Kind; 10] = [
    Kind::Int,
    Kind::Str,
    Kind::Bool,
    Kind::Int,
    Kind::Str,
    Kind::Int,
    Kind::Str,
    Kind::Int,
    Kind::Str,
    Kind::Int,
];

/// The operators, `=` first: bool has the first three, int and time the first seven.
const OPS: [Op; 10] = [
    Op::Eq,
    Op::Ne,
    Op::Any,
    Op::Lt,
    Op::Le,
    Op::Gt,
    Op::Ge,
    Op::Prefix,
    Op::Suffix,
    Op::Contains,
];

/// The operators of int where they are as frequent as in use.
const USUAL_OPS_OF_INT: [Op; 5] = [Op::Eq, Op::Eq, Op::Eq, Op::Lt, Op::Gt];

/// The operators of str where they are as frequent as in use.
const USUAL_OPS_OF_STR: [Op; 7] = [
    Op::Eq,
    Op::Eq,
    Op::Eq,
    Op::Eq,
    Op::Prefix,
    Op::Suffix,
    Op::Contains,
];

/// The operators of a workload of texts.
const PATTERN_OPS: [Op; 4] = [Op::Prefix, Op::Suffix, Op::Contains, Op::Eq];

/// Numbers at the ends of int, and about nought.
const END_NUMBERS: [i64; 6] = [i64::MIN, i64::MIN + 1, -1, 0, i64::MAX - 1, i64::MAX];

/// Times at the ends of time, and about the greatest int.
const END_TIMES: [u64; 6] = [
    0,
    1,
    i64::MAX as u64,
    i64::MAX as u64 + 1,
    u64::MAX - 1,
    u64::MAX,
];

/// The empty text, a text of one byte, one of one letter in two bytes, and one that is no piece of a word.
const END_TEXTS: [&[u8]; 4] = [b"", b"b", b"\xC3\xA9", b"zz"];

/// Makes filters and notices.
#[derive(Drop)]
pub struct Maker {
    alloc: Global,
    random: Random,
    words: Words,
    plan: Plan,
}

/// A kind that is not this one.
fn other_kind(kind: Kind) -> Kind {
    match kind {
        Kind::Str => Kind::Int,
        Kind::Bool | Kind::Int | Kind::Time => Kind::Str,
    }
}

/// How many of the operators a kind has.
fn op_count(kind: Kind) -> usize
    ensures several { 1 < result }
    ensures known { result ≤ 10 }
{
    match kind {
        Kind::Bool => 3,
        Kind::Int | Kind::Time => 7,
        Kind::Str => 10,
    }
}

impl Maker {
    /// A maker by a plan; a seed gives the same filters and notices each time.
    pub fn new(alloc: Global, seed: u64, plan: Plan) -> Result<Maker, Fault> {
        let mut random = Random::seeded(seed);
        let words = Words::new(alloc, &mut random, plan.words, plan.letters)?;
        Ok(Maker {
            alloc,
            random,
            words,
            plan,
        })
    }

    /// The kind of most values of a name, or one time in ten another. Where there are ends, one time in four it is time.
    fn kind_at(&mut self, place: usize) -> Kind {
        let most = match self.plan.subject {
            Subject::Usual | Subject::Mixed => KINDS[place % 10],
            Subject::Numbers => Kind::Int,
            Subject::Texts => return Kind::Str,
        };
        if self.plan.ends && self.random.once_in(4) {
            Kind::Time
        } else if self.random.once_in(10) {
            other_kind(most)
        } else {
            most
        }
    }

    /// The kind of a constraint on a name.
    fn constraint_kind_at(&mut self, place: usize) -> Kind {
        match self.plan.subject {
            Subject::Numbers if !self.plan.ends => Kind::Int,
            Subject::Numbers | Subject::Usual | Subject::Mixed | Subject::Texts => {
                self.kind_at(place)
            }
        }
    }

    /// An operator of the kind, as often as applications use it.
    fn usual_op(&mut self, kind: Kind) -> Op {
        match kind {
            Kind::Bool => Op::Eq,
            Kind::Int | Kind::Time => *self.random.pick(&USUAL_OPS_OF_INT),
            Kind::Str => *self.random.pick(&USUAL_OPS_OF_STR),
        }
    }

    /// An operator of the kind, as often as the workload has it.
    fn op(&mut self, kind: Kind) -> Op {
        let count = op_count(kind);
        match self.plan.subject {
            Subject::Usual => self.usual_op(kind),
            Subject::Mixed if self.random.once_in(3) => Op::Eq,
            Subject::Mixed => *self.random.pick(&OPS[1..count]),
            Subject::Numbers => *self.random.pick(&OPS[..count]),
            Subject::Texts => *self.random.pick(&PATTERN_OPS),
        }
    }

    /// Whether the next number or text is at an end of its kind.
    fn is_end(&mut self) -> bool {
        self.plan.ends && self.random.once_in(8)
    }

    /// A number.
    fn number(&mut self) -> i64 {
        if self.is_end() {
            *self.random.pick(&END_NUMBERS)
        } else {
            self.random.below(self.plan.numbers) as i64
        }
    }

    /// A time, as small as the numbers are.
    fn time(&mut self) -> u64 {
        if self.is_end() {
            *self.random.pick(&END_TIMES)
        } else {
            self.random.below(self.plan.numbers) as u64
        }
    }

    /// A text of a notice.
    fn text(&mut self) -> Result<Text, Fault> {
        if self.is_end() {
            return Ok(Text::read(self.alloc, self.random.pick(&END_TEXTS))?);
        }
        let most = self.plan.joined;
        let bytes = self.words.joined(self.alloc, &mut self.random, most)?;
        Ok(Text::read(self.alloc, &bytes)?)
    }

    /// A value of the kind.
    fn value(&mut self, kind: Kind) -> Result<Value, Fault> {
        Ok(match kind {
            Kind::Bool => Value::Bool(self.random.once_in(2)),
            Kind::Int => Value::Int(self.number()),
            Kind::Str => Value::Str(self.text()?),
            Kind::Time => Value::Time(self.time()),
        })
    }

    /// A piece of a word.
    fn pattern(&mut self, place: Place) -> Result<Value, Fault> {
        let word = self.words.one(&mut self.random);
        let bytes = piece(&mut self.random, word, place);
        Ok(Value::Str(Text::read(self.alloc, bytes)?))
    }

    /// A word.
    fn word(&mut self) -> Result<Value, Fault> {
        let word = self.words.one(&mut self.random);
        Ok(Value::Str(Text::read(self.alloc, word)?))
    }

    /// Whether operators and limits are as in use.
    fn is_usual(&self) -> bool {
        self.plan.subject == Subject::Usual
    }

    /// A limit that few numbers are below: in the lower half of the numbers.
    fn limit(&mut self) -> i64 {
        self.number() / 2
    }

    /// A limit that few numbers are above: in the upper half.
    fn top(&mut self) -> i64 {
        (self.plan.numbers as i64).saturating_sub(self.limit())
    }

    /// An operand of the operator.
    fn operand(&mut self, kind: Kind, op: Op) -> Result<Option<Value>, Fault> {
        Ok(match (op, kind) {
            (Op::Any, _) => None,
            (Op::Prefix, _) => Some(self.pattern(Place::First)?),
            (Op::Suffix, _) => Some(self.pattern(Place::Last)?),
            (Op::Contains, _) => Some(self.pattern(Place::Within)?),
            (_, Kind::Str) if !self.is_end() => Some(self.word()?),
            (Op::Lt | Op::Le, Kind::Int) if self.is_usual() => Some(Value::Int(self.limit())),
            (Op::Gt | Op::Ge, Kind::Int) if self.is_usual() => Some(Value::Int(self.top())),
            _ => Some(self.value(kind)?),
        })
    }

    /// The name at a place.
    fn name(&self, place: usize) -> Result<Name, Fault>
        requires { place < 24 }
    {
        Ok(Name::read(self.alloc, NAMES[place])?)
    }

    /// A constraint.
    fn constraint(&mut self) -> Result<Constraint, Fault> {
        let place = self.random.below(self.plan.names);
        let kind = self.constraint_kind_at(place);
        let op = self.op(kind);
        let operand = self.operand(kind, op)?;
        let name = self.name(place)?;
        Ok(Constraint::make(name, kind, op, operand)?)
    }

    /// A filter.
    pub fn filter(&mut self) -> Result<Filter, Fault> {
        let mut constraints = vec![in self.alloc; self.constraint()?]?;
        for _ in 0..self.random.below(self.plan.constraints) {
            constraints.push(self.constraint()?)?;
        }
        Ok(Filter::make(constraints)?)
    }

    /// A notice.
    pub fn notice(&mut self) -> Result<Notice, Fault> {
        let mut attributes = Vec::new(self.alloc);
        let names = self.plan.names + self.plan.further;
        for place in 0..names {
            let wanted = self.plan.attributes.saturating_sub(attributes.len());
            if self.random.below(names - place) < wanted {
                let kind = self.kind_at(place);
                let value = self.value(kind)?;
                attributes.push((self.name(place)?, value))?;
            }
        }
        Ok(Notice::make(attributes)?)
    }

    /// The number of an interface, one of so many.
    pub fn iface(&mut self, interfaces: u32) -> u32
        requires { 0 < interfaces }
        ensures { result < interfaces }
    {
        self.random.below(interfaces as usize) as u32
    }
}
