//! The bodies of values that hold no others.
ghost use Rattle.std.specs.Prelude.{◌≡◌, [], ◌∷◌, ◌++◌, ◌+◌, ◌<◌, length, OnOk};
ghost use Rattle.std.specs.Int.{w32, w64, to_le_bytes};
ghost use Rattle.pod_codec.specs.PodType.{child_size};
ghost use Rattle.pod_codec.specs.Framing.{u32_bytes, u64_bytes};
ghost use Rattle.pod_codec.specs.PodValue.{form_of};
ghost use Rattle.pod_codec.specs.declared.pod.Pod.TheViews.{out-Pod};
ghost use Rattle.pod_codec.specs.Numbers.{ScalarFits};
ghost use Rattle.pod_codec.specs.Writable.{Tells};

use crate::fault::WriteFault;
use crate::pod::Pod;
use crate::pod_type::type_number;
use pw_lists::{Items, Memory, Text};

/// Appends four bytes, the lowest first.
#[tactic(auto, unfolding(crate::specs::Framing::u32_bytes))]
pub fn put_u32(n: u32, to: &mut Items<u8>) -> Result<(), Memory>
    ensures ok { OnOk result (to.new ≡ to.old ++ u32_bytes n) }
    ensures length { OnOk result (length to.new ≡ length to.old + 4) }
{
    to.extend(&n.to_le_bytes())
}

/// Appends eight bytes, the lowest first.
#[tactic(auto, unfolding(crate::specs::Framing::u64_bytes))]
pub fn put_u64(n: u64, to: &mut Items<u8>) -> Result<(), Memory>
    ensures { OnOk result (to.new ≡ to.old ++ u64_bytes n) }
{
    to.extend(&n.to_le_bytes())
}

/// Appends two numbers of four bytes.
pub fn put_pair(first: u32, second: u32, to: &mut Items<u8>) -> Result<(), Memory>
    ensures ok { OnOk result (to.new ≡ to.old ++ (u32_bytes first ++ u32_bytes second)) }
    ensures length { OnOk result (length to.new ≡ length to.old + 8) }
{
    put_u32(first, to)?;
    put_u32(second, to)
}

/// Appends a text and a nul.
pub fn put_text(text: &Text, to: &mut Items<u8>) -> Result<(), Memory>
    ensures { OnOk result (to.new ≡ to.old ++ (text.now ++ 0 ∷ [])) }
{
    to.extend(text.as_slice())?;
    to.push(0)
}

/// Appends the body of an element of an array or choice, whose child type is allowed.
pub fn put_element(pod: &Pod, child: u32, to: &mut Items<u8>) -> Result<(), WriteFault>
    requires allowed { 0 < child_size child }
    ensures ok { OnOk result (to.new ≡ to.old ++ (form_of pod.now).body) }
    ensures told { Tells result ((form_of pod.now).number ≡ child) }
    ensures numbers { OnOk result (ScalarFits (out-Pod pod.now)) }
{
    if type_number(pod) != child {
        return Err(WriteFault::Unwritable);
    }
    match pod {
        Pod::Bool(set) => put_u32(u32::from(*set), to)?,
        Pod::Id(n) => put_u32(*n, to)?,
        Pod::Int(n) => put_u32(n.cast_unsigned(), to)?,
        Pod::Long(n) => put_u64(n.cast_unsigned(), to)?,
        Pod::FloatBits(bits) => put_u32(*bits, to)?,
        Pod::DoubleBits(bits) => put_u64(*bits, to)?,
        Pod::Rectangle { width, height } => put_pair(*width, *height, to)?,
        Pod::Fraction { num, denom } => put_pair(*num, *denom, to)?,
        Pod::Fd(n) => put_u64(n.cast_unsigned(), to)?,
        Pod::None => return Err(WriteFault::Unwritable),
        Pod::Text(_) => return Err(WriteFault::Unwritable),
        Pod::Bytes(_) => return Err(WriteFault::Unwritable),
        Pod::Bitmap(_) => return Err(WriteFault::Unwritable),
        Pod::Array { .. } => return Err(WriteFault::Unwritable),
        Pod::Struct(_) => return Err(WriteFault::Unwritable),
        Pod::Object { .. } => return Err(WriteFault::Unwritable),
        Pod::Choice { .. } => return Err(WriteFault::Unwritable),
        Pod::Sequence { .. } => return Err(WriteFault::Unwritable),
    }
    Ok(())
}
