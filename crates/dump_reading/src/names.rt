//! The words with which the lines of values begin.
ghost use Rattle.std.specs.Prelude.{◌≡◌};
ghost use Rattle.dump_reading.specs.working.Names.{scalar_name, wide_name, holder_name, name_said, kind_said};

use pod_codec::ChoiceKind;

/// What a line is of, but for a None.
#[derive(Clone, Copy, Debug, PartialEq, Eq, Drop)]
pub(crate) enum Name {
    Bool,
    Id,
    Int,
    Long,
    Float,
    Double,
    Fd,
    String,
    Bytes,
    Rectangle,
    Fraction,
    Bitmap,
    Array,
    Struct,
    Object,
    Choice,
    Sequence,
}

// Values of four or eight bytes.
#[tactic(auto, unfolding(crate::specs::working::Names::scalar_name))]
fn scalar_name(word: &[u8]) -> Option<Name>
    ensures { result ≡ scalar_name word.now }
{
    if word == b"bool".as_slice() {
        Some(Name::Bool)
    } else if word == b"id".as_slice() {
        Some(Name::Id)
    } else if word == b"int".as_slice() {
        Some(Name::Int)
    } else if word == b"long".as_slice() {
        Some(Name::Long)
    } else if word == b"float".as_slice() {
        Some(Name::Float)
    } else if word == b"double".as_slice() {
        Some(Name::Double)
    } else if word == b"fd".as_slice() {
        Some(Name::Fd)
    } else {
        None
    }
}

// Other values that hold no values.
#[tactic(auto, unfolding(crate::specs::working::Names::wide_name))]
fn wide_name(word: &[u8]) -> Option<Name>
    ensures { result ≡ wide_name word.now }
{
    if word == b"string".as_slice() {
        Some(Name::String)
    } else if word == b"bytes".as_slice() {
        Some(Name::Bytes)
    } else if word == b"rectangle".as_slice() {
        Some(Name::Rectangle)
    } else if word == b"fraction".as_slice() {
        Some(Name::Fraction)
    } else if word == b"bitmap".as_slice() {
        Some(Name::Bitmap)
    } else {
        None
    }
}

// Values that hold others.
#[tactic(auto, unfolding(crate::specs::working::Names::holder_name))]
fn holder_name(word: &[u8]) -> Option<Name>
    ensures { result ≡ holder_name word.now }
{
    if word == b"array".as_slice() {
        Some(Name::Array)
    } else if word == b"struct".as_slice() {
        Some(Name::Struct)
    } else if word == b"object".as_slice() {
        Some(Name::Object)
    } else if word == b"choice".as_slice() {
        Some(Name::Choice)
    } else if word == b"sequence".as_slice() {
        Some(Name::Sequence)
    } else {
        None
    }
}

/// What the line of this first word is of.
#[tactic(auto, unfolding(crate::specs::working::Names::name_said))]
pub(crate) fn name_said(word: &[u8]) -> Option<Name>
    ensures { result ≡ name_said word.now }
{
    match scalar_name(word) {
        Some(name) => Some(name),
        None => match wide_name(word) {
            Some(name) => Some(name),
            None => holder_name(word),
        },
    }
}

/// The kind of a choice, by its word.
#[tactic(auto, unfolding(crate::specs::working::Names::kind_said))]
pub(crate) fn kind_said(word: &[u8]) -> Option<ChoiceKind>
    ensures { result ≡ kind_said word.now }
{
    if word == b"none".as_slice() {
        Some(ChoiceKind::None)
    } else if word == b"range".as_slice() {
        Some(ChoiceKind::Range)
    } else if word == b"step".as_slice() {
        Some(ChoiceKind::Step)
    } else if word == b"enum".as_slice() {
        Some(ChoiceKind::Enum)
    } else if word == b"flags".as_slice() {
        Some(ChoiceKind::Flags)
    } else {
        None
    }
}
