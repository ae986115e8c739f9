//! What the commands do, for people who ask.
ghost use Rattle.std.specs.Prelude.{◌≡◌};
ghost use Rattle.fault_messages.specs.Help.{help};

/// The commands with one line each, the version, and where the manual is.
pub fn help() -> &'static [u8]
    ensures { result.now ≡ help }
{
    b"pipegraph 0.1: PipeWire's graph engine on a script and files\n\
      \n\
      \x20 run SCRIPT [--loops N] [--ticks N] [--trace] [--steal]  runs a script of a graph\n\
      \x20 dump FILE           prints the POD of a file\n\
      \x20 filter A B OUT      stores what two formats have in common\n\
      \x20 automate IN SEQ OUT stores a WAV file by the gains of a control sequence\n\
      \x20 check SCRIPT TRACE  says whether a trace is a legal history of a script\n\
      \x20 soak NUMBER         runs the graph of a number by four loops\n\
      \x20 groups SCRIPT       runs each linked part of a graph with its own driver\n\
      \n\
      pipegraph-pods makes PODs and control sequences, \
      pipegraph-pictures draws graphs, traces and waves\n\
      The manual: man pipegraph where it is installed, and man -l docs/pipegraph.1\n"
}
