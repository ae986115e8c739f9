//! What the nodes of a script do.
ghost use Rattle.std.specs.Prelude.{◌≡◌, option_map, IfOk};
ghost use Rattle.graph_script.specs.Kinds.{made_by};

use crate::command::Command;
use pw_graph::Kind;
use pw_lists::Memory;
use std::alloc::Global;

/// The kind of the node that a command makes, or `None` where it makes no node. Takes memory for
/// the list of a map only.
pub fn kind_made(alloc: Global, command: &Command) -> Result<Option<Kind>, Memory>
    ensures { IfOk result (λ kind. kind ≡ option_map (λ m. m.1) (made_by command.now)) }
{
    Ok(match command {
        Command::Source { .. } => Some(Kind::Source),
        Command::Square {
            rate,
            channels,
            period,
            amp,
            ..
        } => Some(Kind::Square {
            rate: *rate,
            channels: *channels,
            period: *period,
            amp: *amp,
        }),
        Command::Gain { g, .. } => Some(Kind::Gain { g: *g }),
        Command::Mix2 { ga, gb, .. } => Some(Kind::Mix2 { ga: *ga, gb: *gb }),
        Command::Delay { frames, .. } => Some(Kind::Delay { frames: *frames }),
        Command::Map { channels, list, .. } => Some(Kind::Map {
            channels: *channels,
            list: list.copy(alloc)?,
        }),
        Command::Split { .. } => Some(Kind::Split),
        Command::Sink { .. } => Some(Kind::Sink),
        Command::Meter { .. } => Some(Kind::Meter),
        _ => None,
    })
}
