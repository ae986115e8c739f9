//! Formats: choices under keys.

use crate::choice::Choice;
use pw_lists::Items;

/// What a key admits, and the flags of its property.
///
/// Public source: PipeWire's documentation, "SPA POD", Object; `spa/pod/pod.h`, `spa_pod_prop`.
#[derive(Drop)]
pub struct Field {
    pub key: u32,
    pub flags: u32,
    pub choice: Choice,
}

/// An object whose properties are choices, ascending by key, no key twice.
#[derive(Drop)]
pub struct Format {
    /// The object type, as Format is 0x40003.
    pub object: u32,
    /// The param id, as EnumFormat is 3 and Format is 4.
    pub id: u32,
    pub fields: Items<Field>,
}
