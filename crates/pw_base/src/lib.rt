//! The base of the engine under one name: all that pw_lists, pw_outside, pw_graph and graph_checks
//! make public, for a host that wants one crate to name.
#![tactic(auto)]

pub use graph_checks::{is_legal_history, is_pooled_shape, is_sound_plan, is_sound_shape};
pub use pw_graph::{
    ActivationStatus, AreaStatus, DUMMY, Epoch, Event, Fresh, Kind, LineOutcome, LinkId, LinkLine,
    NO_BLOCK, NODES, NodeId, Part, Parts, Plan, PlanNode, PoolShape, PortForm, PortId, Shape,
    ShapeLink, ShapeNode, asked, cycle_of, event_of, event_word, find_free, io_id_of, io_status_of,
    io_word, is_before, is_same_port, is_sink, pools_of, status_of, status_word,
};
pub use pw_lists::{
    ALL_WAV_BYTES_LIMIT, AMP_LIMIT, BLOCK_BYTES_LIMIT, BUFFERS_LIMIT, CHANNELS_LIMIT, DELAY_LIMIT,
    EVENTS_LIMIT, GAIN_LIMIT, Items, LINKS_LIMIT, Memory, PERIOD_LIMIT, POD_BYTES_LIMIT,
    QUANTUM_LIMIT, RATE_LIMIT, Room, SCRIPT_BYTES_LIMIT, SINK_SAMPLES_LIMIT, Text, WAV_BYTES_LIMIT,
    Which, append_decimal, next_piece, place_of_name,
};
pub use pw_outside::{
    Every, FileFail, Files, Gate, Loaded, Meet, MemFiles, MemSink, Never, Open, Sink, SureFiles,
    SureSink, Ticker,
};
