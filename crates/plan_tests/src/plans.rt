//! The plans of the parts of a script.

use graph_plan::PlanFault;
use plan_support::{Silence, TextFault, plans_text};
use pw_graph::{LineOutcome, LinkLine, Part, Parts, Shape};
use pw_lists::{Memory, Which};
use std::alloc::Global;
use std::process::Abort;
use std::test::Fail;

// A part: its nodes, and of each of its epochs the cycles, the driver, the nodes, and how many of its
// links are late, where some are.
fn put_part(alloc: Global, text: &mut String, part: &Part) -> Result<(), Memory> {
    text.push_str("part")?;
    for node in part.nodes.as_slice() {
        let word = format!(in alloc; " {node}")?;
        text.push_str(word.as_str())?;
    }
    text.push('\n')?;
    for epoch in part.plan.epochs.as_slice() {
        let shape = &epoch.shape;
        let line = format!(in alloc;
            "from {} cycles {} driver {} of {}",
            shape.first,
            shape.cycles,
            shape.driver,
            shape.nodes.len()
        )?;
        text.push_str(line.as_str())?;
        let mut late = 0u64;
        for link in shape.links.as_slice() {
            if link.delayed {
                late = late.saturating_add(1);
            }
        }
        if late > 0 {
            let word = format!(in alloc; " late {late}")?;
            text.push_str(word.as_str())?;
        }
        text.push('\n')?;
    }
    Ok(())
}

// A `link` or `unlink` line: its two nodes, and what it did in a word.
fn put_line(alloc: Global, text: &mut String, line: &LinkLine) -> Result<(), Memory> {
    let nodes = format!(in alloc; "line {} {} ", line.from.node, line.to.node)?;
    text.push_str(nodes.as_str())?;
    let word = match line.outcome {
        LineOutcome::Linked { rate, .. } => format!(in alloc; "linked {rate}\n")?,
        LineOutcome::NoFormat { key } => format!(in alloc; "nolink {key}\n")?,
        LineOutcome::NoBuffers => String::from_str(alloc, "nobuffers\n")?,
        LineOutcome::Looped => String::from_str(alloc, "loop\n")?,
        LineOutcome::Twice => String::from_str(alloc, "twice\n")?,
        LineOutcome::Gone => String::from_str(alloc, "gone\n")?,
        LineOutcome::NotThere => String::from_str(alloc, "nounlink\n")?,
    };
    text.push_str(word.as_str())?;
    Ok(())
}

// All parts, and what their lines did.
fn plans_shown(alloc: Global, parts: &Parts) -> Result<String, Memory> {
    let mut text = String::new(alloc);
    for part in parts.parts.as_slice() {
        put_part(alloc, &mut text, part)?;
    }
    for line in parts.lines.as_slice() {
        put_line(alloc, &mut text, line)?;
    }
    Ok(text)
}

/// What is shown by a text, the text, and the plans of its parts.
const PLANNED: [(&str, &str, &str); 12] = [
    // Without a node there is no part, and no sum.
    ("a script without a node has no part", "cycles 838861\n", ""),
    ("a script without a node has no part", "drain\n", ""),
    // Each node without a link is a part, driven by itself or by the built-in driver.
    (
        "a lone node is a part",
        "meter a\ncycles 2\n",
        "part 0\nfrom 0 cycles 2 driver 63 of 1\n",
    ),
    (
        "a lone node is a part",
        "meter a\nmeter b\ndriver b 1\ncycles 1\n",
        "part 0\nfrom 0 cycles 1 driver 63 of 1\npart 1\nfrom 0 cycles 1 driver 1 of 1\n",
    ),
    // Each part has its own driver and its own number of cycles; one that has given all has none.
    (
        "each part drains for itself",
        "quantum 2\nsource s s.wav\nsource t t.wav\nsink o o.wav\nsink p p.wav\ndriver o 1\n\
            driver p 1\nlink s.out o.in\nlink t.out p.in\ncycles 1\ndrain\ncycles 1\n",
        "part 0 2\nfrom 0 cycles 1 driver 2 of 2\nfrom 1 cycles 1 driver 2 of 2\n\
            part 1 3\nfrom 0 cycles 1 driver 3 of 2\nfrom 1 cycles 1 driver 3 of 2\n\
            from 2 cycles 1 driver 3 of 2\nline 0 2 linked 48000\nline 1 3 linked 48000\n",
    ),
    // A line between two parts has the outcome of the whole script, and joins nothing.
    (
        "lines between parts change nothing",
        "square q 48000 1 4 1\nsquare r 44100 1 4 1\nmix2 m 256 256\nlink q.out m.a\n\
            link r.out m.b\nunlink r.out m.b\nunlink q.out m.a\n",
        "part 0 2\npart 1\nline 0 2 linked 48000\nline 1 2 nolink 65539\n\
            line 1 2 nounlink\nline 0 2 gone\n",
    ),
    // Counts of buffers that do not meet join nothing either. A loop is closed only within a part: the
    // links that lead back have joined its nodes.
    (
        "refused lines join nothing",
        "gain a 256\nsink o o.wav\nbuffers a out 3\nbuffers o in 4\nlink a.out o.in\n\
            unlink a.out o.in\n",
        "part 0\npart 1\nline 0 1 nobuffers\nline 0 1 nounlink\n",
    ),
    (
        "refused lines join nothing",
        "gain a 256\ngain b 256\ngain c 256\nlink a.out b.in\nlink b.out a.in\n\
            link a.out b.in\nlink c.out c.in\nunlink a.out b.in\nlink b.out a.in\n",
        "part 0 1\npart 2\nline 0 1 linked 48000\nline 1 0 loop\nline 0 1 twice\n\
            line 2 2 loop\nline 0 1 gone\nline 1 0 linked 48000\n",
    ),
    // Late links join as others do, and close no loop. The other part has none.
    (
        "late links join nodes",
        "quantum 2\nsource s s.wav\nsource t t.wav\ngain g 256\nsink o o.wav\nsink p p.wav\n\
            async g\ndriver o 1\ndriver p 1\nlink s.out g.in\nlink g.out o.in\nlink t.out p.in\n\
            cycles 3\n",
        "part 0 2 3\nfrom 0 cycles 3 driver 3 of 3 late 2\n\
            part 1 4\nfrom 0 cycles 3 driver 4 of 2\nline 0 2 linked 48000\nline 2 3 linked 48000\n\
            line 1 4 linked 48000\n",
    ),
    (
        "late links join nodes",
        "gain a 256\ngain b 256\nmeter m\nasync b\nlink a.out b.in\nlink b.out a.in\n",
        "part 0 1\npart 2\nline 0 1 linked 48000\nline 1 0 linked 48000\n",
    ),
    // In the whole script another driver leaves the sink idle, so that it gives its format up and takes
    // another one. In its part it had a link, and keeps its format.
    (
        "a part may differ from the whole",
        "square q 48000 1 4 1\nsquare r 44100 1 4 1\nsink o o.wav\nmeter m\ndriver o 1\n\
            driver m 2\nlink q.out o.in\ncycles 1\nunlink q.out o.in\nlink r.out o.in\n",
        "part 0 1 2\nfrom 0 cycles 1 driver 2 of 2\npart 3\nfrom 0 cycles 1 driver 3 of 1\n\
            line 0 2 linked 48000\nline 0 2 gone\nline 1 2 nolink 65539\n",
    ),
    // Two parts of two nodes have 14 events in each cycle, of which there may be 4,194,304; neither
    // part passes the limit by itself.
    (
        "events of all parts are planned up to the limit",
        "square q 48000 1 4 1\nsquare r 48000 1 4 1\nmeter m\nmeter n\ndriver m 1\n\
            driver n 1\nlink q.out m.in\nlink r.out n.in\ncycles 299593\n",
        "part 0 2\nfrom 0 cycles 299593 driver 2 of 2\n\
            part 1 3\nfrom 0 cycles 299593 driver 3 of 2\nline 0 2 linked 48000\nline 1 3 linked 48000\n",
    ),
];

// The sources have 2 and 4 frames.
#[test]
fn parts_have_their_plans(rt: HostRuntime) -> Result<(), Fail> {
    let sources = [Silence::Mono { frames: 2 }, Silence::Mono { frames: 4 }];
    for (title, text, wanted) in PLANNED {
        match plans_text(rt.alloc(), text, sources.as_slice()) {
            Ok(parts) => {
                let shown = plans_shown(rt.alloc(), &parts)?;
                assert!(rt; shown.as_str() == wanted, "{title}\n{text}{shown}");
            }
            Err(_fault) => assert!(rt; false, "{title}"),
        }
    }
    Ok(())
}

// Compares the limit that the parts of a text pass.
fn expect_limit<R: AllocGlobal + Abort>(rt: &R, text: &str, line: u32, which: Which) {
    match plans_text(rt.alloc(), text, [].as_slice()) {
        Ok(_parts) => assert!(rt; false, "{text}"),
        Err(fault) => {
            let wanted = TextFault::Plan(PlanFault::Limit { line, which });
            assert!(rt; fault == wanted, "{text}");
        }
    }
}

// Neither part of the first text passes the limit of events by itself. The first part of the second
// passes that of samples by its last line, and all parts together that of events, which is looked at
// first.
#[test]
fn limits_are_looked_at_over_all_parts(rt: HostRuntime) -> Result<(), Fail> {
    let text = "square q 48000 1 4 1\nsquare r 48000 1 4 1\nmeter m\nmeter n\ndriver m 1\n\
        driver n 1\nlink q.out m.in\nlink r.out n.in\ncycles 299594\n";
    expect_limit(&rt, text, 9, Which::Events);
    let alloc = rt.alloc();
    let mut text = String::from_str(alloc, "quantum 8192\n")?;
    for pair in 0..31 {
        let nodes = format!(in alloc; "square q{pair} 48000 1 4 1\nsink o{pair} o.wav\n")?;
        text.push_str(nodes.as_str())?;
        let link = format!(in alloc; "driver o{pair} 1\nlink q{pair}.out o{pair}.in\n")?;
        text.push_str(link.as_str())?;
    }
    text.push_str("cycles 20000\n")?;
    expect_limit(&rt, text.as_str(), 126, Which::Events);
    Ok(())
}

// Links are counted over the whole script, also where each part has fewer. Two squares have none.
#[test]
fn links_of_all_parts_are_planned_up_to_the_limit(rt: HostRuntime) -> Result<(), Fail> {
    let alloc = rt.alloc();
    let mut text = String::new(alloc);
    // Squares and meters, twelve of each, and links from each square to each meter, up to a number.
    for (square, meter) in [("a", "b"), ("c", "d")] {
        for number in 0..12 {
            let line = format!(in alloc;
                "square {square}{number} 48000 1 4 1\nmeter {meter}{number}\n"
            )?;
            text.push_str(line.as_str())?;
        }
    }
    for (square, meter, count) in [("a", "b", 144), ("c", "d", 112)] {
        for number in 0..count {
            let (from, to) = (number / 12, number % 12);
            let line = format!(in alloc; "link {square}{from}.out {meter}{to}.in\n")?;
            text.push_str(line.as_str())?;
        }
    }
    match plans_text(alloc, text.as_str(), [].as_slice()) {
        Ok(parts) => assert!(rt; parts.parts.len() == 4),
        Err(_fault) => assert!(rt; false),
    }
    text.push_str("link c9.out d4.in\n")?;
    expect_limit(&rt, text.as_str(), 305, Which::Links);
    Ok(())
}
