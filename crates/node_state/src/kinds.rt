//! One state for each kind of node, with what it does in a quantum.
//!
//! A quantum of a source, a delay or a sink is a few copies, and a call of its own: within the
//! choice between the kinds it would save and load the registers that other kinds need. The rare
//! ends of a file and of a ring are apart as well.

mod delay;
mod gain;
mod map;
mod meter;
mod mix2;
mod sink;
mod source;
mod split;
mod square;

pub(crate) use delay::DelayState;
pub(crate) use gain::GainState;
pub(crate) use map::MapState;
pub(crate) use meter::MeterState;
pub(crate) use mix2::Mix2State;
pub(crate) use sink::SinkState;
pub(crate) use source::SourceState;
pub(crate) use split::SplitState;
pub(crate) use square::SquareState;
