//! The numbers of types, and the sizes of those that arrays and choices may hold.
ghost use Rattle.std.specs.Prelude.{◌≡◌, ◌<◌, IsTrue};
ghost use Rattle.pod_codec.specs.PodType.{child_size, choice_number, is_known_type, IsOther};
ghost use Rattle.pod_codec.specs.PodValue.{form_of};

use crate::pod::{ChoiceKind, Pod};

/// How many bytes a child of this type has; 0 where no array or choice may hold it.
pub fn size_of_child(child: u32) -> u32
    ensures size { result ≡ child_size child }
    ensures known { 0 < result → IsTrue (is_known_type child) }
    ensures others { result ≡ 0 → IsTrue (is_known_type child) → IsOther child }
{
    match child {
        2 | 3 | 4 | 6 => 4,
        5 | 7 | 10 | 11 | 18 => 8,
        _ => 0,
    }
}

/// The number of a value's type: 1 to 16, 18 or 19. Takes no memory.
///
/// Public source: PipeWire's documentation, "SPA POD", Types; `spa/utils/type.h`.
pub fn type_number(pod: &Pod) -> u32
    ensures { result ≡ (form_of pod.now).number }
{
    match pod {
        Pod::None => 1,
        Pod::Bool(_) => 2,
        Pod::Id(_) => 3,
        Pod::Int(_) => 4,
        Pod::Long(_) => 5,
        Pod::FloatBits(_) => 6,
        Pod::DoubleBits(_) => 7,
        Pod::Text(_) => 8,
        Pod::Bytes(_) => 9,
        Pod::Rectangle { .. } => 10,
        Pod::Fraction { .. } => 11,
        Pod::Bitmap(_) => 12,
        Pod::Array { .. } => 13,
        Pod::Struct(_) => 14,
        Pod::Object { .. } => 15,
        Pod::Sequence { .. } => 16,
        Pod::Fd(_) => 18,
        Pod::Choice { .. } => 19,
    }
}

/// The number of a kind of choice.
pub fn number_of_kind(kind: ChoiceKind) -> u32
    ensures { result ≡ choice_number kind }
{
    match kind {
        ChoiceKind::None => 0,
        ChoiceKind::Range => 1,
        ChoiceKind::Step => 2,
        ChoiceKind::Enum => 3,
        ChoiceKind::Flags => 4,
    }
}
