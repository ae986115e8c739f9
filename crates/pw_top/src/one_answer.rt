//! That the order of a run's steps does not show.
ghost use Rattle.std.specs.Prelude.{map, string_bytes};
ghost use Rattle.pw_top.specs.OneAnswer.{OrderShowsInEventsAlone};

/// A law, which does nothing: two answers of one command line on the same files, neither out of
/// memory, are the same, whatever happened in the two calls; with `--trace` they differ only
/// in the event lines of their texts. So the order of the threads' steps shows in nothing else:
/// not in the status, the loads, the stores, or the other lines.
pub fn order_shows_in_events_alone(words: &[String])
    ensures { OrderShowsInEventsAlone (map string_bytes words.now) }
{
    let _ = words;
}
