//! Sinks and meters that had no format at the end, in words.
ghost use Rattle.std.specs.Prelude.{◌≡◌, ◌++◌, OnOk};
ghost use Rattle.fault_messages.specs.UnusedNodes.{unused_sink, unused_other, unused_said, unused_meter};
ghost use Rattle.fault_messages.specs.UnusedNodes.{unlinked, unlinked_part, sink_said, meter_said};

use crate::putting::{put_before, put_behind, put_quoted_pair, put_two_quoted};
use crate::script_lines::has_link_to;
use crate::sink_files::is_written;
use graph_script::Line;
use pw_lists::{Memory, Text};
use run_results::Store;

#[tactic(auto, unfolding(crate::specs::UnusedNodes::unused_sink))]
fn put_unused_sink(text: &mut Text, name: &[u8], file: &[u8]) -> Result<(), Memory>
    ensures { OnOk result (text.new ≡ text.old ++ unused_sink name.now file.now) }
{
    put_quoted_pair(
        text,
        name,
        b" had no format at the end, so it does not write ",
        file,
    )
}

#[tactic(auto, unfolding(crate::specs::UnusedNodes::unused_other))]
fn put_unused_other(text: &mut Text, name: &[u8], file: &[u8]) -> Result<(), Memory>
    ensures { OnOk result (text.new ≡ text.old ++ unused_other name.now file.now) }
{
    put_two_quoted(
        text,
        name,
        b" had no format at the end, so it does not write ",
        file,
        b", which another sink writes",
    )
}

// Of a sink without a format, whose file another may write.
fn put_unused_said(
    text: &mut Text,
    stores: &[Store],
    name: &[u8],
    file: &[u8],
) -> Result<(), Memory>
    ensures { OnOk result (text.new ≡ text.old ++ unused_said stores.now name.now file.now) }
{
    if is_written(stores, file) {
        put_unused_other(text, name, file)
    } else {
        put_unused_sink(text, name, file)
    }
}

#[tactic(auto, unfolding(crate::specs::UnusedNodes::unused_meter))]
fn put_unused_meter(text: &mut Text, name: &[u8]) -> Result<(), Memory>
    ensures { OnOk result (text.new ≡ text.old ++ unused_meter name.now) }
{
    put_behind(text, name, b" had no format at the end, so it has no peak")
}

#[tactic(auto, unfolding(crate::specs::UnusedNodes::unlinked))]
fn put_unlinked(text: &mut Text, name: &[u8]) -> Result<(), Memory>
    ensures { OnOk result (text.new ≡ text.old ++ unlinked name.now) }
{
    put_before(text, b"; no link line names ", name)
}

// Of a node without a format: that no line links anything to it, where none does.
fn put_unlinked_part(text: &mut Text, lines: &[Line], node: u32, name: &[u8]) -> Result<(), Memory>
    ensures { OnOk result (text.new ≡ text.old ++ unlinked_part lines.now node name.now) }
{
    if has_link_to(lines, node, 0) {
        Ok(())
    } else {
        put_unlinked(text, name)
    }
}

/// Of a sink without a format: the file that it does not write, and that no line links anything to
/// it, where none does.
pub fn put_sink_said(
    text: &mut Text,
    lines: &[Line],
    stores: &[Store],
    node: u32,
    name: &[u8],
    file: &[u8],
) -> Result<(), Memory>
    ensures { OnOk result (text.new ≡ text.old
        ++ sink_said lines.now stores.now node name.now file.now) }
{
    put_unused_said(text, stores, name, file)?;
    put_unlinked_part(text, lines, node, name)
}

/// The same of a meter, which has no peak.
pub fn put_meter_said(text: &mut Text, lines: &[Line], node: u32, name: &[u8]) -> Result<(), Memory>
    ensures { OnOk result (text.new ≡ text.old ++ meter_said lines.now node name.now) }
{
    put_unused_meter(text, name)?;
    put_unlinked_part(text, lines, node, name)
}
