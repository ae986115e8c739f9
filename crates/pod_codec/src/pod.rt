//! The values that a POD may be.

use pw_lists::{Items, Text};

/// A value of SPA's type system. A POD is a value with its type and size in front of it.
///
/// Public source: PipeWire's documentation, "SPA POD"; `spa/pod/pod.h`, `spa/utils/type.h`.
#[cycle(pod)]
#[derive(Drop)]
pub enum Pod {
    None,
    Bool(bool),
    Id(u32),
    Int(i32),
    Long(i64),
    /// The 32 bits of a float.
    FloatBits(u32),
    /// The 64 bits of a double.
    DoubleBits(u64),
    /// The bytes before the last nul.
    Text(Text),
    Bytes(Text),
    Rectangle {
        width: u32,
        height: u32,
    },
    Fraction {
        num: u32,
        denom: u32,
    },
    Bitmap(Text),
    Fd(i64),
    /// Values of one type, whose number is `child`; without a value it may be 1, no type.
    Array {
        child: u32,
        values: Items<Pod>,
    },
    Struct(Items<Pod>),
    /// Properties under keys, of an object type and an id.
    Object {
        object: u32,
        id: u32,
        props: Items<Prop>,
    },
    /// Values of one type, of which the first is the default; `kind` says what the others are.
    Choice {
        kind: ChoiceKind,
        flags: u32,
        child: u32,
        values: Items<Pod>,
    },
    /// Controls at offsets, which are counted in `unit`.
    Sequence {
        unit: u32,
        controls: Items<Control>,
    },
}

/// A property of an object.
#[cycle(pod)]
#[derive(Drop)]
pub struct Prop {
    pub key: u32,
    pub flags: u32,
    pub value: Pod,
}

/// A control of a sequence.
#[cycle(pod)]
#[derive(Drop)]
pub struct Control {
    pub offset: u32,
    pub kind: u32,
    pub value: Pod,
}

/// What the values of a choice are, after the first, which is the default.
#[derive(Clone, Copy, Drop)]
pub enum ChoiceKind {
    /// Nothing: the first is the value.
    None,
    /// The least and the greatest.
    Range,
    /// The least, the greatest and the step.
    Step,
    /// The alternatives.
    Enum,
    /// The flags that may be set.
    Flags,
}
