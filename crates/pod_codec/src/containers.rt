//! The values that are in others: elements without padding, whole PODs, and their frames.
ghost use Rattle.std.specs.Prelude.{◌≡◌, ℕ, List, ◌+◌, ◌-◌, ◌≤◌, ◌<◌, ◌^◌, ◌==◌, ◌++◌, length, take, drop, replicate};
ghost use Rattle.std.specs.Prelude.{map, IsTrue, OnOk};
ghost use Rattle.std.specs.List.{flat_map, list_all};
ghost use Rattle.pw_lists.specs.Limits.{pod_bytes_limit};
ghost use Rattle.pod_codec.specs.PodType.{child_size};
ghost use Rattle.pod_codec.specs.Framing.{Form, framed, pad8, u32_bytes, child_bytes, are_children};
ghost use Rattle.pod_codec.specs.PodValue.{form_of};
ghost use Rattle.pod_codec.specs.Numbers.{ElementsFit};
ghost use Rattle.pod_codec.specs.Writable.{Tells, IsOpen};

use crate::fault::WriteFault;
use crate::pod::Pod;
use crate::pod_type::size_of_child;
use crate::scalars::{put_element, put_pair};
use pw_lists::{Items, Memory, POD_BYTES_LIMIT};

/// How many levels of values a POD may have.
pub const MAX_DEPTH: u32 = 16;

/// The longest outermost body, in bytes.
pub const MAX_BODY: usize = POD_BYTES_LIMIT as usize;

/// Writes a number over four bytes of a slice.
#[tactic(auto, unfolding(crate::specs::Framing::u32_bytes))]
fn set_u32(to: &mut [u8], at: usize, n: u32)
    requires { at + 4 ≤ length to.old }
    ensures { to.new ≡ take at to.old ++ u32_bytes n ++ drop (at + 4) to.old }
{
    to[at..at + 4].copy_from_slice(&n.to_le_bytes());
}

/// Writes a number over four bytes of a list.
fn set_u32_at(to: &mut Items<u8>, at: usize, n: u32)
    requires { at + 4 ≤ length to.old }
    ensures { to.new ≡ take at to.old ++ u32_bytes n ++ drop (at + 4) to.old }
{
    set_u32(to.as_mut_slice(), at, n);
}

/// How many bytes are after a body, up to a multiple of 8.
pub fn padding(size: usize) -> usize
    requires { size + 8 < 2 ^ 64 }
    ensures { result ≡ pad8 size - size }
{
    (size + 7) / 8 * 8 - size
}

/// Ends the POD whose header begins at `at`: sets its size and pads it with zeros. A body that is
/// too long is refused.
pub fn end_frame(at: usize, to: &mut Items<u8>) -> Result<(), WriteFault>
    requires { at + 8 ≤ length to.old }
    ensures ok { (front : List ℕ) (f : Form) → IsOpen front f at to.old
        → OnOk result (to.new ≡ front ++ framed f) }
    ensures told { Tells result (length to.old - (at + 8) ≤ pod_bytes_limit) }
{
    let size = to.len() - (at + 8);
    if size > MAX_BODY {
        return Err(WriteFault::Unwritable);
    }
    set_u32_at(to, at, size as u32);
    to.extend_filled(padding(size), 0)?;
    Ok(())
}

/// Appends the elements of an array or choice, each of the child type, which is allowed.
fn put_elements(values: &[Pod], child: u32, to: &mut Items<u8>) -> Result<(), WriteFault>
    requires allowed { 0 < child_size child }
    ensures ok { OnOk result (to.new
        ≡ to.old ++ flat_map (λ v. v.body) (map form_of values.now)) }
    ensures told { Tells result
        (IsTrue (list_all (λ f. f.number == child) (map form_of values.now))) }
    ensures numbers { OnOk result (ElementsFit values.now) }
{
    for pod in values {
        put_element(pod, child, to)?;
    }
    Ok(())
}

/// Appends the size and type of the children, and the children without padding.
pub fn put_children(values: &[Pod], child: u32, to: &mut Items<u8>) -> Result<(), WriteFault>
    ensures ok { OnOk result (to.new ≡ to.old ++ child_bytes child (map form_of values.now)) }
    ensures told { Tells result (IsTrue (are_children child (map form_of values.now))) }
    ensures numbers { OnOk result (ElementsFit values.now) }
{
    let size = size_of_child(child);
    if size == 0 && (child != 1 || !values.is_empty()) {
        return Err(WriteFault::Unwritable);
    }
    put_pair(size, child, to)?;
    if size == 0 {
        return Ok(());
    }
    put_elements(values, child, to)
}
