//! Reads and writes the texts of values and attributes.
ghost use Rattle.std.specs.Prelude.{◌≡◌, ◌++◌, [], OnOk};
ghost use Rattle.filter_text.specs.Reading.{Reads};
ghost use Rattle.filter_text.specs.ValueText.{kind_word, value_text};
ghost use Rattle.filter_text.specs.NoticeText.{attribute_text};
ghost use Rattle.filter_text.specs.Values.{truth_named, value_at, attribute_at};

use crate::fault::WireFault;
use crate::int::int_of;
use crate::reader::Reader;
use crate::string::push_string;
use crate::time::time_of;
use base::{NoMemory, push_int, push_number};
use filter_values::{Kind, Name, Value};
use std::alloc::Global;

/// The truth value of this word.
pub fn truth_named(word: &[u8]) -> Option<bool>
    ensures { result ≡ truth_named word.now }
{
    if word == b"true".as_slice() {
        Some(true)
    } else if word == b"false".as_slice() {
        Some(false)
    } else {
        None
    }
}

impl<'a> Reader<'a> {
    /// A value of this kind.
    #[tactic(auto, unfolding(crate::specs::Values::value_at))]
    pub fn value(&mut self, alloc: Global, kind: Kind) -> Result<Value, WireFault>
        ensures { Reads (λ x. x) result (value_at kind self.old.rest.now) self.new.rest.now }
    {
        match kind {
            Kind::Bool => match truth_named(self.word()) {
                Some(b) => Ok(Value::Bool(b)),
                None => Err(WireFault::Outside),
            },
            Kind::Int => match int_of(self.word()) {
                Some(n) => Ok(Value::Int(n)),
                None => Err(WireFault::Outside),
            },
            Kind::Str => {
                let text = self.text(alloc)?;
                Ok(Value::Str(text))
            }
            Kind::Time => match time_of(self.word()) {
                Some(seconds) => Ok(Value::Time(seconds)),
                None => Err(WireFault::Outside),
            },
        }
    }

    /// An attribute: a name, a kind and a value.
    #[tactic(auto, unfolding(crate::specs::Values::attribute_at))]
    pub fn attribute(&mut self, alloc: Global) -> Result<(Name, Value), WireFault>
        ensures { Reads (λ x. x) result (attribute_at self.old.rest.now) self.new.rest.now }
    {
        let (name, kind) = self.head(alloc)?;
        self.space()?;
        let value = self.value(alloc, kind)?;
        Ok((name, value))
    }
}

/// The word of a kind.
pub fn kind_word(kind: Kind) -> &'static [u8]
    ensures { result.now ≡ kind_word kind }
{
    match kind {
        Kind::Bool => b"bool",
        Kind::Int => b"int",
        Kind::Str => b"str",
        Kind::Time => b"time",
    }
}

/// Puts the text of a value at the end.
pub fn push_value(out: &mut Vec<u8>, value: &Value) -> Result<(), NoMemory>
    ensures { OnOk result (out.new.items ≡ out.old.items ++ value_text value.now) }
{
    match value {
        Value::Bool(true) => out.extend_from_slice(b"true")?,
        Value::Bool(false) => out.extend_from_slice(b"false")?,
        Value::Int(n) => push_int(out, *n)?,
        Value::Str(t) => push_string(out, t)?,
        Value::Time(seconds) => push_number(out, *seconds)?,
    }
    Ok(())
}

/// Puts the text of an attribute at the end.
#[tactic(auto, unfolding(crate::specs::NoticeText::attribute_text))]
pub fn push_attribute(out: &mut Vec<u8>, attribute: &(Name, Value)) -> Result<(), NoMemory>
    ensures { OnOk result (out.new.items ≡ out.old.items ++ attribute_text attribute.now) }
{
    let (name, value) = attribute;
    out.extend_from_slice(name.bytes())?;
    out.push(b' ')?;
    out.extend_from_slice(kind_word(value.kind()))?;
    out.push(b' ')?;
    push_value(out, value)
}
