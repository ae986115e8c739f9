//! The value that bytes spell, or their first fault.
ghost use Rattle.std.specs.Prelude.{◌≡◌, ℕ, List, ◌+◌, ◌++◌, ◌-◌, ◌≤◌, ◌<◌, ◌⊎◌, [], length, slice_index, slice_range};
ghost use Rattle.pw_lists.specs.Limits.{depth_limit};
ghost use Rattle.std.specs.Prelude.{IfOk, IfSome, IsNone};
ghost use Rattle.pod_codec.specs.declared.pod.Pod.TheViews.{out-Pod, out-Prop, out-Control};
ghost use Rattle.pod_codec.specs.declared.pod.Pod.{Pod};
ghost use Rattle.pod_codec.specs.declared.fault.PodFault.{PodFault};
ghost use Rattle.pod_codec.specs.PodType.{child_size, choice_number, IsOther};
ghost use Rattle.pod_codec.specs.Framing.{pad8};
ghost use Rattle.pod_codec.specs.Places.{u32_at, AreAfter, IsScalarAt, HasChildren};
ghost use Rattle.pod_codec.specs.Spelling.{IsPropAt, IsControlAt, IsBodyAt, SpellsAt, FrontSpells};
ghost use Rattle.pod_codec.specs.Checks.{header_checks, body_checks, text_checks, array_checks, choice_checks, first_failed, Answers};
ghost use Rattle.pod_codec.specs.FirstFault.{IsFieldFault, IsPropFault, IsControlFault, IsBodyFault, FaultsAt, IsFirstFault, Fails};
ghost use Rattle.pod_codec.specs.ReadAnswer.{HasAnswer, IsReadAs, IsRefusedAs};
ghost use Rattle.pod_codec.specs.PodValue.{canonical};
ghost use Rattle.pod_codec.specs.Writable.{IsWritable};
ghost use Rattle.pod_codec.specs.Numbers.{NumbersFit};
ghost use Rattle.pod_codec.specs.SoundChoices.{HasSoundChoices};

use crate::children::{children_at, scalar_at};
use crate::containers::{MAX_BODY, MAX_DEPTH};
use crate::cursor::number_at;
use crate::fault::PodFault;
use crate::pod::{ChoiceKind, Control, Pod, Prop};
use crate::pod_type::size_of_child;
use pw_lists::{Items, Text};
use std::alloc::Global;

/// The size and type of the POD that begins at `at`: its header and its body are there.
fn header_at(bytes: &[u8], at: usize, end: usize) -> Result<(usize, u32), PodFault>
    requires order { at ≤ end }
    requires within { end ≤ length bytes.now }
    requires small { end ≤ 1048584 }
    ensures found { IfOk result
        (λ h. (h.0 ≡ u32_at bytes.now at) × (h.1 ≡ u32_at bytes.now (at + 4))
        × (at + 8 + pad8 h.0 ≤ end)) }
    ensures fault { Answers result (first_failed (header_checks bytes.now at end)) }
{
    let offset = at as u32;
    if end - at < 8 {
        return Err(PodFault::Short { offset });
    }
    let size = number_at(bytes, at) as usize;
    if end - (at + 8) < (size + 7) / 8 * 8 {
        return Err(PodFault::Short { offset });
    }
    Ok((size, number_at(bytes, at + 4)))
}

/// The bytes of a string before its nul.
fn text_at(alloc: Global, bytes: &[u8], at: usize, size: usize) -> Result<Text, PodFault>
    requires within { at + 8 + size ≤ length bytes.now }
    requires small { at + 8 + size ≤ 1048584 }
    ensures found { let e = at + 8 + size in
        IfOk result (λ text. (at + 8 < e) × (slice_index bytes.now (e - 1) ≡ 0)
        × (text ≡ slice_range bytes.now (at + 8) (e - 1))) }
    ensures fault { Answers result (first_failed (text_checks bytes.now at size)) }
{
    let offset = at as u32;
    if size == 0 {
        return Err(PodFault::Nul { offset });
    }
    let last = at + 8 + size - 1;
    if bytes[last] != 0 {
        return Err(PodFault::Nul { offset });
    }
    Ok(Items::from_slice(alloc, &bytes[at + 8..last])?)
}

/// The child type and the elements of an array.
fn array_at(
    alloc: Global,
    bytes: &[u8],
    at: usize,
    size: usize,
) -> Result<(u32, Items<Pod>), PodFault>
    requires within { at + 8 + size ≤ length bytes.now }
    requires small { at + 8 + size ≤ 1048584 }
    ensures found { IfOk result (λ x. ((at + 8 + size ≡ at + 8) × (x.0 ≡ 1) × (x.1 ≡ []))
        ⊎ HasChildren bytes.now (at + 8) (at + 8 + size) x.0 x.1) }
    ensures fault { Answers result (first_failed (array_checks bytes.now at size)) }
{
    if size == 0 {
        return Ok((1, Items::new(alloc)));
    }
    if size < 8 {
        return Err(PodFault::Size { offset: at as u32 });
    }
    children_at(alloc, bytes, at, at + 8, at + 8 + size)
}

/// What a choice is and holds: its kind, its flags, its child type and its values.
#[derive(Drop)]
struct ReadChoice {
    kind: ChoiceKind,
    flags: u32,
    child: u32,
    values: Items<Pod>,
}

/// The kind of choice of a number.
fn kind_of(number: u32) -> Option<ChoiceKind>
    ensures some { IfSome result (λ kind. (choice_number kind ≡ number) × (number ≤ 4)) }
    ensures none { IsNone result → 4 < number }
{
    match number {
        0 => Some(ChoiceKind::None),
        1 => Some(ChoiceKind::Range),
        2 => Some(ChoiceKind::Step),
        3 => Some(ChoiceKind::Enum),
        4 => Some(ChoiceKind::Flags),
        _ => None,
    }
}

/// What a choice is and holds.
fn choice_at(alloc: Global, bytes: &[u8], at: usize, size: usize) -> Result<ReadChoice, PodFault>
    requires within { at + 8 + size ≤ length bytes.now }
    requires small { at + 8 + size ≤ 1048584 }
    ensures found { IfOk result (λ x. (choice_number x.kind ≡ u32_at bytes.now (at + 8))
        × (x.flags ≡ u32_at bytes.now (at + 12))
        × HasChildren bytes.now (at + 16) (at + 8 + size) x.child x.values) }
    ensures fault { Answers result (first_failed (choice_checks bytes.now at size)) }
{
    if size < 16 {
        return Err(PodFault::Size { offset: at as u32 });
    }
    let number = number_at(bytes, at + 8);
    let Some(kind) = kind_of(number) else {
        return Err(PodFault::TypeUnknown {
            offset: at as u32 + 8,
            number,
        });
    };
    let flags = number_at(bytes, at + 12);
    match children_at(alloc, bytes, at, at + 16, at + 8 + size) {
        Ok((child, values)) => Ok(ReadChoice {
            kind,
            flags,
            child,
            values,
        }),
        Err(fault) => Err(fault),
    }
}

/// The value of the POD that begins at `at`, and where it ends, with `left` levels left.
#[cycle(read)]
#[tactic(auto, unfolding(crate::specs::Spelling::SpellsAt, crate::specs::FirstFault::FaultsAt))]
fn pod_at(
    alloc: Global,
    bytes: &[u8],
    at: usize,
    end: usize,
    left: u32,
) -> Result<(Pod, usize), PodFault>
    requires order { at ≤ end }
    requires within { end ≤ length bytes.now }
    requires small { end ≤ 1048584 }
    ensures found { IfOk result (λ x. SpellsAt left bytes.now at end x.0 x.1) }
    ensures next { IfOk result (λ x. (at + 8 ≤ x.1) × (x.1 ≤ end)) }
    ensures fault { Fails result (FaultsAt left bytes.now at end) }
{
    if left == 0 {
        return Err(PodFault::Deep { offset: at as u32 });
    }
    let (size, kind) = header_at(bytes, at, end)?;
    match body_at(alloc, bytes, at, size, kind, left - 1) {
        Ok(pod) => Ok((pod, at + 8 + (size + 7) / 8 * 8)),
        Err(fault) => Err(fault),
    }
}

/// The value of a type, whose body has `size` bytes after the header at `at`.
#[cycle(read)]
fn body_at(
    alloc: Global,
    bytes: &[u8],
    at: usize,
    size: usize,
    kind: u32,
    left: u32,
) -> Result<Pod, PodFault>
    requires within { at + 8 + size ≤ length bytes.now }
    requires small { at + 8 + size ≤ 1048584 }
    ensures found { let e = at + 8 + size in
        IfOk result (λ pod. IsBodyAt (λ a x m. SpellsAt left bytes.now a e x m) bytes.now kind
        (at + 8) e
        (out-Pod pod)) }
    ensures fault { let e = at + 8 + size in
        Fails result (IsBodyFault (λ a x m. SpellsAt left bytes.now a e x m)
        (λ a g. FaultsAt left bytes.now a e g) bytes.now at size kind) }
{
    let offset = at as u32;
    let (begin, end) = (at + 8, at + 8 + size);
    match kind {
        1 => {
            if size != 0 {
                return Err(PodFault::Size { offset });
            }
            Ok(Pod::None)
        }
        8 => Ok(Pod::Text(text_at(alloc, bytes, at, size)?)),
        9 => Ok(Pod::Bytes(Items::from_slice(alloc, &bytes[begin..end])?)),
        12 => Ok(Pod::Bitmap(Items::from_slice(alloc, &bytes[begin..end])?)),
        13 => {
            let (child, values) = array_at(alloc, bytes, at, size)?;
            Ok(Pod::Array { child, values })
        }
        14 => Ok(Pod::Struct(fields_at(alloc, bytes, begin, end, left)?)),
        15 => {
            if size < 8 {
                return Err(PodFault::Size { offset });
            }
            let props = props_at(alloc, bytes, begin + 8, end, left)?;
            Ok(Pod::Object {
                object: number_at(bytes, begin),
                id: number_at(bytes, begin + 4),
                props,
            })
        }
        16 => {
            if size < 8 {
                return Err(PodFault::Size { offset });
            }
            let controls = controls_at(alloc, bytes, begin + 8, end, left)?;
            Ok(Pod::Sequence {
                unit: number_at(bytes, begin),
                controls,
            })
        }
        19 => {
            let choice = choice_at(alloc, bytes, at, size)?;
            Ok(Pod::Choice {
                kind: choice.kind,
                flags: choice.flags,
                child: choice.child,
                values: choice.values,
            })
        }
        _ => scalar_or_fault(bytes, at, size, kind),
    }
}

/// The values from a place to another.
#[cycle(read)]
fn fields_at(
    alloc: Global,
    bytes: &[u8],
    begin: usize,
    end: usize,
    left: u32,
) -> Result<Items<Pod>, PodFault>
    requires order { begin ≤ end }
    requires within { end ≤ length bytes.now }
    requires small { end ≤ 1048584 }
    ensures found { IfOk result (λ fields. AreAfter
        (λ a x m. SpellsAt left bytes.now a end x m) begin fields end) }
    ensures fault { Fails result (IsFieldFault (λ a x m. SpellsAt left bytes.now a end x m)
        (λ a g. FaultsAt left bytes.now a end g) begin end) }
{
    let mut fields = Items::new(alloc);
    let mut next = begin;
    while next < end {
        let (pod, after) = pod_at(alloc, bytes, next, end, left)?;
        fields.push(pod)?;
        next = after;
    }
    Ok(fields)
}

/// The property of a value, whose key and flags are at `at`.
fn prop_at(bytes: &[u8], at: usize, value: Pod) -> Prop
    requires { at + 8 ≤ length bytes.now }
    ensures key { (out-Prop result).key ≡ u32_at bytes.now at }
    ensures flags { (out-Prop result).flags ≡ u32_at bytes.now (at + 4) }
    ensures value { (out-Prop result).value ≡ value }
{
    Prop {
        key: number_at(bytes, at),
        flags: number_at(bytes, at + 4),
        value,
    }
}

/// The properties from a place to another.
#[cycle(read)]
fn props_at(
    alloc: Global,
    bytes: &[u8],
    begin: usize,
    end: usize,
    left: u32,
) -> Result<Items<Prop>, PodFault>
    requires order { begin ≤ end }
    requires within { end ≤ length bytes.now }
    requires small { end ≤ 1048584 }
    ensures found { IfOk result (λ props. AreAfter
        (IsPropAt (λ a x m. SpellsAt left bytes.now a end x m) bytes.now) begin props end) }
    ensures fault { Fails result (IsPropFault (λ a x m. SpellsAt left bytes.now a end x m)
        (λ a g. FaultsAt left bytes.now a end g) bytes.now begin end) }
{
    let mut props = Items::new(alloc);
    let mut next = begin;
    while next < end {
        if end - next < 8 {
            return Err(PodFault::Short {
                offset: next as u32,
            });
        }
        let (value, after) = pod_at(alloc, bytes, next + 8, end, left)?;
        props.push(prop_at(bytes, next, value))?;
        next = after;
    }
    Ok(props)
}

/// The control of a value, whose offset and kind are at `at`.
fn control_at(bytes: &[u8], at: usize, value: Pod) -> Control
    requires { at + 8 ≤ length bytes.now }
    ensures offset { (out-Control result).offset ≡ u32_at bytes.now at }
    ensures kind { (out-Control result).kind ≡ u32_at bytes.now (at + 4) }
    ensures value { (out-Control result).value ≡ value }
{
    Control {
        offset: number_at(bytes, at),
        kind: number_at(bytes, at + 4),
        value,
    }
}

/// The controls from a place to another.
#[cycle(read)]
fn controls_at(
    alloc: Global,
    bytes: &[u8],
    begin: usize,
    end: usize,
    left: u32,
) -> Result<Items<Control>, PodFault>
    requires order { begin ≤ end }
    requires within { end ≤ length bytes.now }
    requires small { end ≤ 1048584 }
    ensures found { IfOk result (λ controls. AreAfter
        (IsControlAt (λ a x m. SpellsAt left bytes.now a end x m) bytes.now) begin controls end) }
    ensures fault { Fails result (IsControlFault (λ a x m. SpellsAt left bytes.now a end x m)
        (λ a g. FaultsAt left bytes.now a end g) bytes.now begin end) }
{
    let mut controls = Items::new(alloc);
    let mut next = begin;
    while next < end {
        if end - next < 8 {
            return Err(PodFault::Short {
                offset: next as u32,
            });
        }
        let (value, after) = pod_at(alloc, bytes, next + 8, end, left)?;
        controls.push(control_at(bytes, next, value))?;
        next = after;
    }
    Ok(controls)
}

/// The value of a type with a size of its own; of another type, its fault.
fn scalar_or_fault(bytes: &[u8], at: usize, size: usize, kind: u32) -> Result<Pod, PodFault>
    requires within { at + 8 + size ≤ length bytes.now }
    requires small { at + 8 + size ≤ 1048584 }
    requires other { IsOther kind → ⊥ }
    ensures found { IfOk result (λ pod. (size ≡ child_size kind)
        × IsScalarAt bytes.now kind (at + 8) (out-Pod pod)) }
    ensures fault { Answers result (first_failed (body_checks bytes.now at size kind)) }
{
    let offset = at as u32;
    let wanted = size_of_child(kind);
    if wanted == 0 {
        return Err(PodFault::TypeUnknown {
            offset: offset + 4,
            number: kind,
        });
    }
    if size != wanted as usize {
        return Err(PodFault::Size { offset });
    }
    Ok(scalar_at(bytes, at + 8, kind))
}

/// The value that the bytes begin with and its length, or the first fault.
fn front_of(alloc: Global, bytes: &[u8]) -> Result<(Pod, usize), PodFault>
    ensures found { IfOk result (λ x. FrontSpells bytes.now x.0 x.1) }
    ensures fault { Fails result (IsFirstFault bytes.now) }
{
    if bytes.len() < 8 {
        return Err(PodFault::Short { offset: 0 });
    }
    let size = number_at(bytes, 0);
    if size as usize > MAX_BODY {
        return Err(PodFault::Large { size });
    }
    let end = bytes.len().min(MAX_BODY + 8);
    match pod_at(alloc, bytes, 0, end, MAX_DEPTH) {
        Ok((pod, length)) => Ok((pod, length)),
        Err(fault) => Err(fault),
    }
}

/// The value that a prefix of the bytes spells, and how long that prefix is with its padding.
///
/// Numbers are little-endian, padding may be anything, and any nonzero Bool is true. The outermost
/// body has at most 1,048,576 bytes, and values are at most 16 deep. A fault is the first one: a
/// POD is checked for its depth, its header, its size (only of the outermost), its body, its type
/// and then its contents, and what it holds is read in order. What follows the prefix is not
/// looked at. Takes memory only for the value, and time linear in the prefix.
///
/// Public source: PipeWire's documentation, "SPA POD"; `spa/pod/pod.h`.
pub fn read_pod(alloc: Global, bytes: &[u8]) -> Result<(Pod, usize), PodFault>
    ensures found { IfOk result (λ x. FrontSpells bytes.now x.0 x.1) }
    ensures fault { Fails result (IsFirstFault bytes.now) }

    // Each input has one of both, and no other answer is right.
    ensures one { HasAnswer bytes.now }
    ensures only_found { (pod : Pod) (size : ℕ) → FrontSpells bytes.now pod size
        → IsReadAs result pod size }
    ensures only_fault { (first : PodFault) → IsFirstFault bytes.now first
        → IsRefusedAs result first }

    // What was written is read back, whatever follows; and each choice can be read by its
    // child type.
    ensures back { (pod : Pod) (rest : List ℕ) → IsWritable pod → NumbersFit depth_limit pod
        → bytes.now ≡ canonical pod ++ rest → IsReadAs result pod (length (canonical pod)) }
    ensures sound { IfOk result (λ x. HasSoundChoices x.0) }
{
    front_of(alloc, bytes)
}
