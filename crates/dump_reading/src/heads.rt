//! What the words of a line say of a value.
ghost use Rattle.std.specs.Prelude.{◌≡◌, IfOk};
ghost use Rattle.dump_reading.specs.working.Heads.{bool_said, args_said, head_said};

use crate::bytes::{double_said, float_said, quoted_hex_said};
use crate::cutting::cut;
use crate::names::{Name, kind_said, name_said};
use crate::numbers::{int_said, long_said, number_said, pair_said, triple_said};
use crate::strings::quoted_said;
use pod_codec::{ChoiceKind, Pod};
use pw_lists::Memory;
use std::alloc::Global;

/// A value that holds no others, or what a container is, and how many lines of its own it has.
#[derive(Drop)]
pub(crate) enum Head {
    Leaf(Pod),
    Array {
        child: u32,
        count: u32,
    },
    Struct {
        count: u32,
    },
    Object {
        object: u32,
        id: u32,
        count: u32,
    },
    Choice {
        kind: ChoiceKind,
        flags: u32,
        child: u32,
        count: u32,
    },
    Sequence {
        unit: u32,
        count: u32,
    },
}

fn bool_said(word: &[u8]) -> Option<bool>
    ensures { result ≡ bool_said word.now }
{
    if word == b"true".as_slice() {
        Some(true)
    } else if word == b"false".as_slice() {
        Some(false)
    } else {
        None
    }
}

#[tactic(auto, unfolding(crate::specs::working::Heads::args_said))]
fn bool_head(args: &[u8]) -> Option<Head>
    ensures { result ≡ args_said Name.Bool args.now }
{
    match bool_said(args) {
        None => None,
        Some(set) => Some(Head::Leaf(Pod::Bool(set))),
    }
}

#[tactic(auto, unfolding(crate::specs::working::Heads::args_said))]
fn id_head(args: &[u8]) -> Option<Head>
    ensures { result ≡ args_said Name.Id args.now }
{
    match number_said(args) {
        None => None,
        Some(n) => Some(Head::Leaf(Pod::Id(n))),
    }
}

#[tactic(auto, unfolding(crate::specs::working::Heads::args_said))]
fn int_head(args: &[u8]) -> Option<Head>
    ensures { result ≡ args_said Name.Int args.now }
{
    match int_said(args) {
        None => None,
        Some(n) => Some(Head::Leaf(Pod::Int(n))),
    }
}

#[tactic(auto, unfolding(crate::specs::working::Heads::args_said))]
fn long_head(args: &[u8]) -> Option<Head>
    ensures { result ≡ args_said Name.Long args.now }
{
    match long_said(args) {
        None => None,
        Some(n) => Some(Head::Leaf(Pod::Long(n))),
    }
}

#[tactic(auto, unfolding(crate::specs::working::Heads::args_said))]
fn fd_head(args: &[u8]) -> Option<Head>
    ensures { result ≡ args_said Name.Fd args.now }
{
    match long_said(args) {
        None => None,
        Some(n) => Some(Head::Leaf(Pod::Fd(n))),
    }
}

#[tactic(auto, unfolding(crate::specs::working::Heads::args_said))]
fn rectangle_head(args: &[u8]) -> Option<Head>
    ensures { result ≡ args_said Name.Rectangle args.now }
{
    match pair_said(args, b'x') {
        None => None,
        Some((width, height)) => Some(Head::Leaf(Pod::Rectangle { width, height })),
    }
}

#[tactic(auto, unfolding(crate::specs::working::Heads::args_said))]
fn fraction_head(args: &[u8]) -> Option<Head>
    ensures { result ≡ args_said Name.Fraction args.now }
{
    match pair_said(args, b'/') {
        None => None,
        Some((num, denom)) => Some(Head::Leaf(Pod::Fraction { num, denom })),
    }
}

#[tactic(auto, unfolding(crate::specs::working::Heads::args_said))]
fn array_head(args: &[u8]) -> Option<Head>
    ensures { result ≡ args_said Name.Array args.now }
{
    match pair_said(args, b' ') {
        None => None,
        Some((child, count)) => Some(Head::Array { child, count }),
    }
}

#[tactic(auto, unfolding(crate::specs::working::Heads::args_said))]
fn struct_head(args: &[u8]) -> Option<Head>
    ensures { result ≡ args_said Name.Struct args.now }
{
    match number_said(args) {
        None => None,
        Some(count) => Some(Head::Struct { count }),
    }
}

#[tactic(auto, unfolding(crate::specs::working::Heads::args_said))]
fn object_head(args: &[u8]) -> Option<Head>
    ensures { result ≡ args_said Name.Object args.now }
{
    match triple_said(args) {
        None => None,
        Some((object, id, count)) => Some(Head::Object { object, id, count }),
    }
}

#[tactic(auto, unfolding(crate::specs::working::Heads::args_said))]
fn sequence_head(args: &[u8]) -> Option<Head>
    ensures { result ≡ args_said Name.Sequence args.now }
{
    match pair_said(args, b' ') {
        None => None,
        Some((unit, count)) => Some(Head::Sequence { unit, count }),
    }
}

#[tactic(auto, unfolding(crate::specs::working::Heads::args_said))]
fn choice_head(args: &[u8]) -> Option<Head>
    ensures { result ≡ args_said Name.Choice args.now }
{
    match cut(args, b' ') {
        None => None,
        Some((word, rest)) => match kind_said(word) {
            None => None,
            Some(kind) => match triple_said(rest) {
                None => None,
                Some((flags, child, count)) => Some(Head::Choice {
                    kind,
                    flags,
                    child,
                    count,
                }),
            },
        },
    }
}

#[tactic(auto, unfolding(crate::specs::working::Heads::args_said))]
fn float_head(alloc: Global, args: &[u8]) -> Result<Option<Head>, Memory>
    ensures { IfOk result (λ head. head ≡ args_said Name.Float args.now) }
{
    match float_said(alloc, args)? {
        None => Ok(None),
        Some(bits) => Ok(Some(Head::Leaf(Pod::FloatBits(bits)))),
    }
}

#[tactic(auto, unfolding(crate::specs::working::Heads::args_said))]
fn double_head(alloc: Global, args: &[u8]) -> Result<Option<Head>, Memory>
    ensures { IfOk result (λ head. head ≡ args_said Name.Double args.now) }
{
    match double_said(alloc, args)? {
        None => Ok(None),
        Some(bits) => Ok(Some(Head::Leaf(Pod::DoubleBits(bits)))),
    }
}

#[tactic(auto, unfolding(crate::specs::working::Heads::args_said))]
fn string_head(alloc: Global, args: &[u8]) -> Result<Option<Head>, Memory>
    ensures { IfOk result (λ head. head ≡ args_said Name.String args.now) }
{
    match quoted_said(alloc, args)? {
        None => Ok(None),
        Some(text) => Ok(Some(Head::Leaf(Pod::Text(text)))),
    }
}

#[tactic(auto, unfolding(crate::specs::working::Heads::args_said))]
fn bytes_head(alloc: Global, args: &[u8]) -> Result<Option<Head>, Memory>
    ensures { IfOk result (λ head. head ≡ args_said Name.Bytes args.now) }
{
    match quoted_hex_said(alloc, args)? {
        None => Ok(None),
        Some(bytes) => Ok(Some(Head::Leaf(Pod::Bytes(bytes)))),
    }
}

#[tactic(auto, unfolding(crate::specs::working::Heads::args_said))]
fn bitmap_head(alloc: Global, args: &[u8]) -> Result<Option<Head>, Memory>
    ensures { IfOk result (λ head. head ≡ args_said Name.Bitmap args.now) }
{
    match quoted_hex_said(alloc, args)? {
        None => Ok(None),
        Some(bytes) => Ok(Some(Head::Leaf(Pod::Bitmap(bytes)))),
    }
}

// What is after the name of a value.
fn args_said(alloc: Global, name: Name, args: &[u8]) -> Result<Option<Head>, Memory>
    ensures { IfOk result (λ head. head ≡ args_said name args.now) }
{
    match name {
        Name::Bool => Ok(bool_head(args)),
        Name::Id => Ok(id_head(args)),
        Name::Int => Ok(int_head(args)),
        Name::Long => Ok(long_head(args)),
        Name::Float => float_head(alloc, args),
        Name::Double => double_head(alloc, args),
        Name::Fd => Ok(fd_head(args)),
        Name::String => string_head(alloc, args),
        Name::Bytes => bytes_head(alloc, args),
        Name::Rectangle => Ok(rectangle_head(args)),
        Name::Fraction => Ok(fraction_head(args)),
        Name::Bitmap => bitmap_head(alloc, args),
        Name::Array => Ok(array_head(args)),
        Name::Struct => Ok(struct_head(args)),
        Name::Object => Ok(object_head(args)),
        Name::Choice => Ok(choice_head(args)),
        Name::Sequence => Ok(sequence_head(args)),
    }
}

/// What the words of a line say of a value; nothing where they are not those of a value.
#[tactic(auto, unfolding(crate::specs::working::Heads::head_said))]
pub(crate) fn head_said(alloc: Global, words: &[u8]) -> Result<Option<Head>, Memory>
    ensures { IfOk result (λ head. head ≡ head_said words.now) }
{
    match cut(words, b' ') {
        None => {
            if words == b"none".as_slice() {
                Ok(Some(Head::Leaf(Pod::None)))
            } else {
                Ok(None)
            }
        }
        Some((word, args)) => match name_said(word) {
            None => Ok(None),
            Some(name) => args_said(alloc, name, args),
        },
    }
}
