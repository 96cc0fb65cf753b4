//! Writes the wire texts of values, constraints and attributes to a sink. No call takes memory.
ghost use Rattle.std.specs.Prelude.{◌≡◌};
ghost use Rattle.std.specs.List.{flat_map};
ghost use Rattle.std.specs.Fmt.{signed_decimal};
ghost use Rattle.std.specs.Option.{option_copied};
ghost use Rattle.base_devices.specs.Pending.{outlet, Went};
ghost use Rattle.filter_text.specs.ValueText.{escape, string_text, value_text};
ghost use Rattle.filter_text.specs.NoticeText.{attribute_text, joined, later};
ghost use Rattle.filter_text.specs.FilterText.{constraint_text, test_text};

use crate::line::put_number;
use base_devices::{Pending, Sink};
use filter_constraints::{Constraint, Op};
use filter_text::{kind_word, op_word};
use filter_values::{Name, Text, Value};
use itoa::Buffer;

// An int in decimal.
fn put_int<K: Sink>(out: &mut Pending, sink: &mut K, number: i64)
    ensures { Went (outlet (K.state sink.old) out.old) (outlet (K.state sink.new) out.new) (signed_decimal number) }
{
    let mut buffer = Buffer::new();
    out.put(sink, buffer.format(number).as_bytes())
}

// A byte of a str value.
fn put_escaped<K: Sink>(out: &mut Pending, sink: &mut K, b: u8)
    ensures { Went (outlet (K.state sink.old) out.old) (outlet (K.state sink.new) out.new) (escape b) }
{
    match b {
        b'"' => out.put(sink, b"\\\""),
        b'\\' => out.put(sink, b"\\\\"),
        b'\n' => out.put(sink, b"\\n"),
        b'\t' => out.put(sink, b"\\t"),
        _ => out.put(sink, &[b]),
    }
}

// The bytes of a str value.
fn put_bytes<K: Sink>(out: &mut Pending, sink: &mut K, bytes: &[u8])
    ensures { Went (outlet (K.state sink.old) out.old) (outlet (K.state sink.new) out.new)
        (flat_map escape bytes.now) }
{
    for b in bytes {
        put_escaped(out, sink, *b);
    }
}

// A str value.
fn put_text<K: Sink>(out: &mut Pending, sink: &mut K, text: &Text)
    ensures { Went (outlet (K.state sink.old) out.old) (outlet (K.state sink.new) out.new) (string_text text.now) }
{
    out.put(sink, b"\"");
    put_bytes(out, sink, text.bytes());
    out.put(sink, b"\"")
}

// A value.
fn put_value<K: Sink>(out: &mut Pending, sink: &mut K, value: &Value)
    ensures { Went (outlet (K.state sink.old) out.old) (outlet (K.state sink.new) out.new) (value_text value.now) }
{
    match value {
        Value::Bool(true) => out.put(sink, b"true"),
        Value::Bool(false) => out.put(sink, b"false"),
        Value::Int(n) => put_int(out, sink, *n),
        Value::Str(text) => put_text(out, sink, text),
        Value::Time(seconds) => put_number(out, sink, *seconds),
    }
}

// An operator, and behind a space its operand if it has one.
fn put_test<K: Sink>(out: &mut Pending, sink: &mut K, op: Op, operand: Option<&Value>)
    ensures { Went (outlet (K.state sink.old) out.old) (outlet (K.state sink.new) out.new)
        (test_text op (option_copied operand.entry)) }
{
    out.put(sink, op_word(op));
    match operand {
        Some(value) => {
            out.put(sink, b" ");
            put_value(out, sink, value)
        }
        None => {}
    }
}

/// What stands between the semicolons of a command: a constraint or an attribute.
pub(crate) trait Part {
    ghost use Rattle.std.specs.Prelude.{ℕ, List};
    ghost use Rattle.base_devices.specs.Pending.{outlet, Went};

    /// Its text.
    ghost text: { Self → List ℕ };

    /// Puts its text.
    fn put<K: Sink>(&self, out: &mut Pending, sink: &mut K)
        ensures { Went (outlet (K.state sink.old) out.old) (outlet (K.state sink.new) out.new) (text self.now) };
}

impl Part for Constraint {
    ghost text = { constraint_text };

    fn put<K: Sink>(&self, out: &mut Pending, sink: &mut K) {
        out.put(sink, self.name().bytes());
        out.put(sink, b" ");
        out.put(sink, kind_word(self.kind()));
        out.put(sink, b" ");
        put_test(out, sink, self.op(), self.operand())
    }
}

impl Part for (Name, Value) {
    ghost text = { attribute_text };

    fn put<K: Sink>(&self, out: &mut Pending, sink: &mut K) {
        let (name, value) = self;
        out.put(sink, name.bytes());
        out.put(sink, b" ");
        out.put(sink, kind_word(value.kind()));
        out.put(sink, b" ");
        put_value(out, sink, value)
    }
}

// Parts, each behind `; `.
fn put_later<P: Part, K: Sink>(out: &mut Pending, sink: &mut K, parts: &[P])
    ensures { Went (outlet (K.state sink.old) out.old) (outlet (K.state sink.new) out.new)
        (later P.text parts.now) }
{
    for part in parts {
        out.put(sink, b"; ");
        part.put(out, sink);
    }
}

/// The constraints of a filter or an advertisement, or the attributes of a notice.
pub(crate) fn put_parts<P: Part, K: Sink>(out: &mut Pending, sink: &mut K, parts: &[P])
    ensures { Went (outlet (K.state sink.old) out.old) (outlet (K.state sink.new) out.new)
        (joined P.text parts.now) }
{
    match parts {
        [first, later @ ..] => {
            first.put(out, sink);
            put_later(out, sink, later)
        }
        [] => {}
    }
}
