//! The values that arrays and choices hold, as they are read.
ghost use Rattle.std.specs.Prelude.{◌≡◌, ◌+◌, ◌-◌, ◌%◌, ◌≤◌, ◌<◌, length, IfOk};
ghost use Rattle.pod_codec.specs.declared.pod.Pod.TheViews.{out-Pod};
ghost use Rattle.pod_codec.specs.PodType.{child_size};
ghost use Rattle.pod_codec.specs.Places.{AreAfter, IsScalarAt, IsElementAt, HasChildren};
ghost use Rattle.pod_codec.specs.Checks.{children_checks, first_failed, Answers};

use crate::cursor::{long_at, number_at};
use crate::fault::PodFault;
use crate::pod::Pod;
use crate::pod_type::size_of_child;
use pw_lists::{Items, Memory};
use std::alloc::Global;

/// The value of a type with a size of its own, whose body begins there.
pub fn scalar_at(bytes: &[u8], at: usize, kind: u32) -> Pod
    requires allowed { 0 < child_size kind }
    requires room { at + child_size kind ≤ length bytes.now }
    ensures { IsScalarAt bytes.now kind at (out-Pod result) }
{
    match kind {
        2 => Pod::Bool(number_at(bytes, at) != 0),
        3 => Pod::Id(number_at(bytes, at)),
        4 => Pod::Int(number_at(bytes, at).cast_signed()),
        5 => Pod::Long(long_at(bytes, at).cast_signed()),
        6 => Pod::FloatBits(number_at(bytes, at)),
        7 => Pod::DoubleBits(long_at(bytes, at)),
        10 => Pod::Rectangle {
            width: number_at(bytes, at),
            height: number_at(bytes, at + 4),
        },
        11 => Pod::Fraction {
            num: number_at(bytes, at),
            denom: number_at(bytes, at + 4),
        },
        _ => Pod::Fd(long_at(bytes, at).cast_signed()),
    }
}

/// The elements from a place to another, all of a type.
fn elements_at(
    alloc: Global,
    bytes: &[u8],
    at: usize,
    end: usize,
    child: u32,
) -> Result<Items<Pod>, Memory>
    requires allowed { 0 < child_size child }
    requires order { at ≤ end }
    requires within { end ≤ length bytes.now }
    requires whole { (end - at) % child_size child ≡ 0 }
    ensures { IfOk result (λ values. AreAfter (IsElementAt bytes.now child) at values end) }
{
    let size = size_of_child(child) as usize;
    let mut values = Items::new(alloc);
    let mut next = at;
    while next < end {
        values.push(scalar_at(bytes, next, child))?;
        next += size;
    }
    Ok(values)
}

/// The child type and the values of the array or choice that begins at `parent`, whose children's
/// size and type are at `at`, and whose body ends at `end`.
pub fn children_at(
    alloc: Global,
    bytes: &[u8],
    parent: usize,
    at: usize,
    end: usize,
) -> Result<(u32, Items<Pod>), PodFault>
    requires order { parent ≤ at }
    requires header { at + 8 ≤ end }
    requires within { end ≤ length bytes.now }
    requires small { end ≤ 1048584 }
    ensures found { IfOk result (λ children. HasChildren bytes.now at end children.0 children.1) }
    ensures fault { Answers result (first_failed (children_checks bytes.now parent at end)) }
{
    let size = number_at(bytes, at);
    let child = number_at(bytes, at + 4);
    let (parent, header) = (parent as u32, at as u32);
    if size == 0 && child <= 1 {
        if end != at + 8 {
            return Err(PodFault::Uneven { offset: parent });
        }
        return Ok((1, Items::new(alloc)));
    }
    if size_of_child(child) == 0 {
        return Err(PodFault::TypeUnknown {
            offset: header + 4,
            number: child,
        });
    }
    if size != size_of_child(child) {
        return Err(PodFault::Size { offset: header });
    }
    if (end - (at + 8)) % (size as usize) != 0 {
        return Err(PodFault::Uneven { offset: parent });
    }
    match elements_at(alloc, bytes, at + 8, end, child) {
        Ok(values) => Ok((child, values)),
        Err(_memory) => Err(PodFault::Memory),
    }
}
