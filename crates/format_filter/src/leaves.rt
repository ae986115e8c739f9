//! Values that hold no others: whether a value is a given one of them. Floats are compared by their
//! bits.
ghost use Rattle.std.specs.Prelude.{◌≡◌, ◌↔◌, IsTrue};
ghost use Rattle.pod_codec.specs.declared.pod.Pod.TheVariants as p;

use pod_codec::Pod;

/// Whether a value is None.
pub fn is_none(value: &Pod) -> bool
    ensures { IsTrue result ↔ (value.now ≡ p.None) }
{
    matches!(value, Pod::None)
}

/// Whether a value is this Bool.
pub fn is_bool(set: bool, value: &Pod) -> bool
    ensures { IsTrue result ↔ (value.now ≡ p.Bool set) }
{
    match value {
        Pod::Bool(other) => *other == set,
        _ => false,
    }
}

/// Whether a value is this Id.
pub fn is_id(id: u32, value: &Pod) -> bool
    ensures { IsTrue result ↔ (value.now ≡ p.Id id) }
{
    match value {
        Pod::Id(other) => *other == id,
        _ => false,
    }
}

/// Whether a value is this Int.
pub fn is_int(n: i32, value: &Pod) -> bool
    ensures { IsTrue result ↔ (value.now ≡ p.Int n) }
{
    match value {
        Pod::Int(other) => *other == n,
        _ => false,
    }
}

/// Whether a value is this Long.
pub fn is_long(n: i64, value: &Pod) -> bool
    ensures { IsTrue result ↔ (value.now ≡ p.Long n) }
{
    match value {
        Pod::Long(other) => *other == n,
        _ => false,
    }
}

/// Whether a value is the Float of these bits.
pub fn is_float(bits: u32, value: &Pod) -> bool
    ensures { IsTrue result ↔ (value.now ≡ p.FloatBits bits) }
{
    match value {
        Pod::FloatBits(other) => *other == bits,
        _ => false,
    }
}

/// Whether a value is the Double of these bits.
pub fn is_double(bits: u64, value: &Pod) -> bool
    ensures { IsTrue result ↔ (value.now ≡ p.DoubleBits bits) }
{
    match value {
        Pod::DoubleBits(other) => *other == bits,
        _ => false,
    }
}

/// Whether a value is this String.
pub fn is_text(text: &[u8], value: &Pod) -> bool
    ensures { IsTrue result ↔ (value.now ≡ p.Text text.now) }
{
    match value {
        Pod::Text(other) => other.as_slice() == text,
        _ => false,
    }
}

/// Whether a value is these Bytes.
pub fn is_bytes(bytes: &[u8], value: &Pod) -> bool
    ensures { IsTrue result ↔ (value.now ≡ p.Bytes bytes.now) }
{
    match value {
        Pod::Bytes(other) => other.as_slice() == bytes,
        _ => false,
    }
}

/// Whether a value is the Rectangle of this width and height.
pub fn is_rectangle(width: u32, height: u32, value: &Pod) -> bool
    ensures { IsTrue result ↔ (value.now ≡ p.Rectangle width height) }
{
    match value {
        Pod::Rectangle {
            width: wide,
            height: tall,
        } => *wide == width && *tall == height,
        _ => false,
    }
}

/// Whether a value is the Fraction of this numerator and denominator.
pub fn is_fraction(num: u32, denom: u32, value: &Pod) -> bool
    ensures { IsTrue result ↔ (value.now ≡ p.Fraction num denom) }
{
    match value {
        Pod::Fraction {
            num: above,
            denom: below,
        } => *above == num && *below == denom,
        _ => false,
    }
}

/// Whether a value is the Bitmap of these bytes.
pub fn is_bitmap(bits: &[u8], value: &Pod) -> bool
    ensures { IsTrue result ↔ (value.now ≡ p.Bitmap bits.now) }
{
    match value {
        Pod::Bitmap(other) => other.as_slice() == bits,
        _ => false,
    }
}

/// Whether a value is this Fd.
pub fn is_fd(fd: i64, value: &Pod) -> bool
    ensures { IsTrue result ↔ (value.now ≡ p.Fd fd) }
{
    match value {
        Pod::Fd(other) => *other == fd,
        _ => false,
    }
}
