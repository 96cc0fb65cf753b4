//! The type of notices: what a client publishes, a list of named values.
use base::NoMemory;
use filter_values::{Name, Value};
use std::alloc::{AllocError, Global};
use std::cmp::Ordering;
use std::marker::Model;
use std::sync::ArcSlice;

/// A notice (a notification): 1 to 64 attributes, each a name with a value, by rising names. Copies share them.
#[derive(Drop)]
pub struct Notice {
    attributes: ArcSlice<(Name, Value)>,
}

impl Model for Notice {
    ghost use Rattle.std.specs.Prelude.{List};
    ghost use Rattle.std.specs.Arc.{arc_slice_items};
    ghost use Rattle.filter_types.specs.Notice.{Attribute, IsNotice};

    ghost Value = { List Attribute };

    ghost view = { λ n. arc_slice_items n.attributes };

    ghost invariant = { λ n. IsNotice (arc_slice_items n.attributes) };
}

/// Why there is no such notice.
#[derive(Clone, Copy, Debug, PartialEq, Eq)]
pub enum NoticeFault {
    /// There is no attribute.
    Nothing,
    /// There are more than 64 attributes.
    TooMany,
    /// The least place, from 0, whose name stood at an earlier place.
    Twice(usize),
    /// Memory ran out.
    NoMemory,
}

impl From<AllocError> for NoticeFault {
    ghost use Rattle.std.specs.Prelude.{◌≡◌};
    ghost use Rattle.filter_types.specs.declared.notice.NoticeFault.TheVariants.{NoMemory};

    ghost from_gives = { λ _ e. e ≡ NoMemory };

    fn from(_: AllocError) -> Self {
        NoticeFault::NoMemory
    }
}

/// The most attributes of a notice.
const MOST: usize = 64;

impl Notice {
    ghost use Rattle.std.specs.Prelude.{◌≡◌, ◌<◌, ◌≤◌, ◌↔◌, ℕ, [], Some, length, true, IfOk, IsErrOf, IsPermutation};
    ghost use Rattle.filter_types.specs.Notice.{AreRising, IsNotice, IsNoticeAnswer, first_twice, is_notice};

    /// The notice of these attributes, given in any order. It sorts them in place.
    #[tactic(auto, using(crate::proofs::NoticeLaws::sorted_rising, crate::proofs::NoticeLaws::empty_once))]
    pub fn make(attributes: Vec<(Name, Value)>) -> Result<Notice, NoticeFault>
        ensures same { IfOk result (λ n. IsPermutation attributes.items n) }
        ensures rising { IfOk result (λ n. AreRising n) }
        ensures nothing { IsErrOf result NoticeFault.Nothing ↔ (attributes.items ≡ []) }
        ensures too_many { IsErrOf result NoticeFault.TooMany ↔ (64 < length attributes.items) }
        ensures twice { (i : ℕ) → IsErrOf result (NoticeFault.Twice i) ↔ ((length attributes.items ≤ 64) × (first_twice attributes.items ≡ Some i)) }
    {
        if attributes.is_empty() {
            return Err(NoticeFault::Nothing);
        }
        if attributes.len() > MOST {
            return Err(NoticeFault::TooMany);
        }
        if let Some(i) = first_twice(&attributes) {
            return Err(NoticeFault::Twice(i));
        }
        let attributes = sorted(attributes);
        lemma_attributes(&attributes);
        let attributes = ArcSlice::from_vec(attributes)?;
        Ok(Notice { attributes })
    }

    /// The notice of attributes that stand in rising order of names already; `None` where they don't, or are none or
    /// more than 64.
    #[tactic(auto, unfolding(crate::specs::Notice::is_notice))]
    pub fn of_rising(attributes: Vec<(Name, Value)>) -> Result<Option<Notice>, NoMemory>
        ensures { IfOk result (λ answer. IsNoticeAnswer attributes.items answer) }
    {
        if attributes.is_empty() || attributes.len() > MOST || !are_rising(&attributes) {
            return Ok(None);
        }
        lemma_attributes(&attributes);
        let attributes = ArcSlice::from_vec(attributes)?;
        Ok(Some(Notice { attributes }))
    }

    /// Its attributes by rising names.
    #[tactic(auto, using(crate::proofs::Shapes::notice_told))]
    pub fn attributes(&self) -> &[(Name, Value)]
        ensures same { result.now ≡ self.now }
        ensures whole { IsNotice self.now }
        ensures listed { is_notice self.now ≡ true }
    {
        self.attributes.as_slice()
    }

    /// An equal notice, which shares the attributes: none is copied.
    pub fn copy(&self, _alloc: Global) -> Result<Notice, NoMemory>
        ensures { IfOk result (λ n. n ≡ self.now) }
    {
        let attributes = self.attributes.clone()?;
        Ok(Notice { attributes })
    }
}

ghost use Rattle.std.specs.Prelude.{◌≡◌, IfOk, IsPermutation};
ghost use Rattle.std.specs.List.Sorted.{IsSortedBy};
ghost use Rattle.filter_values.specs.Value.{IsValue};
ghost use Rattle.filter_types.specs.Notice.{AreNames, AreValues, is_name_less, has_name, first_twice, are_rising};

// Whether one of the attributes has the name.
fn has_name(seen: &[(Name, Value)], name: &Name) -> bool
    ensures { result ≡ has_name seen.now name.now }
{
    seen.iter().any(|(other, _)| other == name)
}

// The least place whose name stood earlier.
#[tactic(auto, unfolding(crate::specs::Notice::first_twice))]
fn first_twice(attributes: &[(Name, Value)]) -> Option<usize>
    ensures { result ≡ first_twice attributes.now }
{
    for (i, (name, _)) in attributes.iter().enumerate() {
        if has_name(&attributes[..i], name) {
            return Some(i);
        }
    }
    None
}

// The attributes by names.
fn sorted(mut attributes: Vec<(Name, Value)>) -> Vec<(Name, Value)>
    ensures same { IsPermutation attributes.items result.items }
    ensures sorted { IsSortedBy is_name_less result.items }
{
    attributes.sort_unstable_by(|(a, _), (b, _)| a.bytes().cmp(b.bytes()));
    attributes
}

// Whether the first name stands before the second.
fn is_less(a: &(Name, Value), b: &(Name, Value)) -> bool
    ensures { result ≡ is_name_less a.now b.now }
{
    match a.0.bytes().cmp(b.0.bytes()) {
        Ordering::Less => true,
        _ => false,
    }
}

// Whether each name stands before the next.
fn are_rising(attributes: &[(Name, Value)]) -> bool
    ensures { result ≡ are_rising attributes.now }
{
    attributes.is_sorted_by(|a, b| is_less(a, b))
}

// A value of the program is well formed.
fn lemma_value(value: &Value)
    ensures { IsValue value.now }
{
    match value {
        Value::Bool(_) => {}
        Value::Int(number) => {
            let _number = *number;
        }
        Value::Str(text) => {
            let _bytes = text.bytes();
        }
        Value::Time(seconds) => {
            let _seconds = *seconds;
        }
    }
}

// So are all attributes.
fn lemma_attributes(attributes: &[(Name, Value)])
    ensures names { AreNames attributes.now }
    ensures values { AreValues attributes.now }
{
    for (name, value) in attributes {
        let _bytes = name.bytes();
        lemma_value(value);
    }
}
