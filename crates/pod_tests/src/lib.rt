//! Tests of pod_codec, control_sequence and format_filter over their public calls. They are a crate
//! of their own, since a crate that has tests is proved twice. There is nothing else here.
#![tactic(auto)]

#[cfg(test)]
mod codec;
#[cfg(test)]
mod formats;
#[cfg(test)]
mod sequences;
