//! How the two objects of a filter clash.

/// How the two objects of a filter clash: by their types, or else at the least key that clashes.
/// `formats` says whether they are formats, object type 0x40003; only in these have keys names.
///
/// Public source: PipeWire's documentation, "SPA POD"; `spa/pod/filter.h`. What a key that one side
/// lacks does is this project's.
#[derive(Clone, Copy, Debug, PartialEq, Eq, Drop)]
pub enum Clash {
    /// They are of different types.
    Types,
    /// Both have the key, and no value is a member of both choices.
    Values { key: u32, formats: bool },
    /// The first lacks the key, which the second makes mandatory.
    FirstLacks { key: u32, formats: bool },
    /// The second lacks the key, which the first makes mandatory.
    SecondLacks { key: u32, formats: bool },
}
