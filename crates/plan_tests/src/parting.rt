//! The nodes of the parts of a script.

use plan_support::{Silence, parts_text};
use pw_lists::{Items, Memory};
use std::alloc::Global;
use std::test::Fail;

// A line for each part: its nodes.
fn parts_shown(alloc: Global, parts: &Items<Items<u32>>) -> Result<String, Memory> {
    let mut text = String::new(alloc);
    for part in parts.as_slice() {
        for node in part.as_slice() {
            let word = format!(in alloc; "{node} ")?;
            text.push_str(word.as_str())?;
        }
        text.push('\n')?;
    }
    Ok(text)
}

/// Texts, and their parts.
const PARTED: [(&str, &str); 8] = [
    (
        "quantum 2\nsource s s.wav\nsource t t.wav\nsink o o.wav\nsink p p.wav\ndriver o 1\n\
            driver p 1\nlink s.out o.in\nlink t.out p.in\ndrain\n",
        "0 2 \n1 3 \n",
    ),
    ("cycles 838861\n", ""),
    ("meter a\nmeter b\ncycles 1\n", "0 \n1 \n"),
    // A link counts at whatever line it was made and taken away, also after a line that a run would
    // stop at.
    (
        "square q 48000 1 4 1\nmeter p\nmeter r\nlink q.out p.in\nunlink q.out p.in\n",
        "0 1 \n2 \n",
    ),
    (
        "square q 48000 1 4 1\nmeter p\nmeter r\ncycles 838861\nlink q.out r.in\n",
        "0 2 \n1 \n",
    ),
    // Of links that are refused none joins. A sink that had a link keeps its format, and refuses
    // then what it would take else.
    (
        "square q 48000 1 4 1\nsquare r 44100 1 4 1\nmix2 m 256 256\nlink q.out m.a\n\
            link r.out m.b\n",
        "0 2 \n1 \n",
    ),
    (
        "square q 48000 1 4 1\nsquare r 44100 1 4 1\nsink o o.wav\ndriver o 1\n\
            link q.out o.in\ncycles 1\nunlink q.out o.in\nlink r.out o.in\n",
        "0 2 \n1 \n",
    ),
    (
        "square q 48000 1 4 1\nsquare r 44100 1 4 1\nsink o o.wav\ndriver o 1\n\
            link q.out o.in\nunlink q.out o.in\nlink r.out o.in\n",
        "0 1 2 \n",
    ),
];

// Each source has one frame.
#[test]
fn links_join_nodes_to_parts_unless_they_are_refused(rt: HostRuntime) -> Result<(), Fail> {
    let frame = Silence::Mono { frames: 1 };
    for (text, wanted) in PARTED {
        match parts_text(rt.alloc(), text, [frame, frame].as_slice()) {
            Ok(parts) => {
                let shown = parts_shown(rt.alloc(), &parts)?;
                assert!(rt; shown.as_str() == wanted, "{text}{shown}");
            }
            Err(_fault) => assert!(rt; false, "{text}"),
        }
    }
    Ok(())
}
