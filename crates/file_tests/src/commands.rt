//! The table of commands: their words and their parameters.
use graph_script::{Counted, Form, Name, label_word, name_called, names, params_of, word_of};

#[test]
fn each_command_is_called_by_its_word_and_by_no_other(rt: HostRuntime) {
    assert_eq!(rt; names().len(), 21);
    for name in names() {
        assert_eq!(rt; name_called(word_of(*name)), Some(*name));
    }
    assert_eq!(rt; word_of(Name::Mix2), b"mix2".as_slice());
    for word in [b"".as_slice(), b"mix", b"mix22", b"Gain", b"gain "] {
        assert_eq!(rt; name_called(word), None, "{word:?}");
    }
}

#[test]
fn a_parameter_has_the_range_of_its_number(rt: HostRuntime) {
    let [name, priority] = params_of(Name::Driver) else {
        panic!(rt; "it has two");
    };
    assert!(rt; name.form == Form::Node);
    assert!(rt;
        priority.form
            == Form::Number {
                low: 0,
                high: 1_000_000,
                counted: Counted::Unsaid
            }
    );
    assert_eq!(rt; label_word(priority.label), b"PRIORITY".as_slice());
    assert!(rt; params_of(Name::Drain).is_empty());
}
