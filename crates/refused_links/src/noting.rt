//! What a line is noted as.
ghost use Rattle.std.specs.Prelude.{◌≡◌};
ghost use Rattle.refused_links.specs.Refused.{key_in, noted_key};

use pw_graph::{LineOutcome, LinkLine};

// The key of an outcome without a common format.
fn key_in(outcome: LineOutcome) -> Option<u32>
    ensures { result ≡ key_in outcome }
{
    match outcome {
        LineOutcome::NoFormat { key } => Some(key),
        _ => None,
    }
}

/// The key at which the line that is noted at a place found no common format, if it did.
pub(crate) fn noted_key(lines: &[LinkLine], place: usize) -> Option<u32>
    ensures { result ≡ noted_key lines.now place }
{
    match lines.get(place) {
        Some(line) => key_in(line.outcome),
        None => None,
    }
}
