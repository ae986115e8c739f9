//! The graph of a number: eight chains of a source, a gain and a delay into one sink and one meter,
//! with waves, gains and delays drawn from the number. Its script is made as text and read back, as
//! the text of a file is; its waves and ports are what a plan takes beside it. A line says what a
//! run of it has kept.
#![tactic(auto)]

mod drawing;
mod draws;
mod generated;
mod line;
mod ports;
mod putting;
mod text;

pub use generated::{Generated, generate};
pub use line::soak_line;
pub use text::soak_text;
