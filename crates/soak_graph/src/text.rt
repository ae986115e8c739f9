//! The script of a number as text.
ghost use Rattle.std.specs.Prelude.{◌≡◌, ◌++◌, length, IfOk, OnOk};
ghost use Rattle.soak_graph.specs.working.Drawing.{chain_in, HasDrawn};
ghost use Rattle.soak_graph.specs.SoakText.{text_of_lines, node_lines, all_link_lines, soak_text};

use crate::drawing::{CHAINS, Chain, Drawn, draw_graph};
use crate::putting::{put_chain, put_ends, put_links, put_play};
use pw_lists::{Items, Memory, Text};
use std::alloc::Global;

// The lines of the nodes of all chains.
fn put_chains(text: &mut Text, chains: &[Chain]) -> Result<(), Memory>
    requires { length chains.now ≡ CHAINS }
    ensures { OnOk result (text.new ≡ text.old ++ text_of_lines
        (node_lines (λ i. (chain_in chains.now i).gain) (λ i. (chain_in chains.now i).delay))) }
{
    for i in 0..CHAINS {
        let chain = &chains[i as usize];
        put_chain(text, i, chain.gain, chain.delay)?;
    }
    Ok(())
}

// The lines of the links of all chains.
fn put_all_links(text: &mut Text) -> Result<(), Memory>
    ensures { OnOk result (text.new ≡ text.old ++ text_of_lines all_link_lines) }
{
    for i in 0..CHAINS {
        put_links(text, i)?;
    }
    Ok(())
}

/// The text by what was drawn. Takes memory for it.
pub(crate) fn text_with(alloc: Global, drawn: &Drawn) -> Result<Text, Memory>
    requires { HasDrawn drawn.now }
    ensures { IfOk result (λ text. text ≡ soak_text drawn.now.number) }
{
    let mut text = Items::new(alloc);
    text.extend(b"quantum 256\n")?;
    put_chains(&mut text, drawn.chains.as_slice())?;
    put_ends(&mut text)?;
    put_all_links(&mut text)?;
    put_play(&mut text, drawn.off)?;
    Ok(text)
}

/// The script of the graph of a number, as text, each line ended by a line feed. All that is drawn
/// before the last line's number is drawn for it, so it takes the memory and time of the waves too.
pub fn soak_text(alloc: Global, number: u32) -> Result<Text, Memory>
    ensures { IfOk result (λ text. text ≡ soak_text number) }
{
    let drawn = draw_graph(alloc, number)?;
    text_with(alloc, &drawn)
}
