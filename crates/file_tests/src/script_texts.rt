//! Scripts, written back as text.
use graph_script::{parse, text_of};
use pw_lists::Text;
use std::alloc::Global;
use std::process::Abort;

// The text of the script that a text is.
fn written(rt: &impl Abort, alloc: Global, text: &[u8]) -> Text {
    assert!(rt; text.len() <= 1048576);
    match parse(alloc, text) {
        Ok(script) => match text_of(alloc, &script) {
            Ok(text) => text,
            Err(_memory) => panic!(rt; "there is memory"),
        },
        Err(_fault) => panic!(rt; "it is a script"),
    }
}

#[test]
fn a_script_is_written_as_the_shortest_text(rt: HostRuntime) {
    let alloc = rt.alloc();
    let same = [
        b"".as_slice(),
        b"quantum 4\nsource a a.wav\nsource b b.wav\nsink o o.wav\ndriver o 1\nlink a.out o.in\nlink b.out o.in\ncycles 2",
        b"quantum 8192\nsource s s.wav\nsquare q 384000 8 1000000 32767\ngain g -32767\nmix2 m 0 -1\ndelay d 65536",
        b"map p 2 1,0,1\nsplit t\nsink o #o\nmeter l\n\n\ndriver o 0\nloop p 15\noffer t left f.pod\nbuffers t in 8",
        b"mix2 m 1 2\nsplit t\nlink m.out t.in\nunlink t.right m.b\non t\noff t\ncycles 1000000\ndrain\nsplit u\nasync u",
    ];
    for text in same {
        assert_eq!(rt; written(&rt, alloc, text).as_slice(), text, "{text:?}");
    }
    let shorter = [
        (
            b"# play\n\t\r \ncycles 1\n".as_slice(),
            b"\n\ncycles 1".as_slice(),
        ),
        (
            b"quantum 8192\r\n\n  #\n\tcycles \t 1 ",
            b"quantum 8192\n\n\ncycles 1",
        ),
        (b"split t \n\n#\n", b"split t"),
    ];
    for (text, wanted) in shorter {
        assert_eq!(rt; written(&rt, alloc, text).as_slice(), wanted, "{text:?}");
    }
}
