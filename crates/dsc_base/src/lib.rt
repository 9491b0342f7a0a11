//! What every other crate of the workspace reads and writes by: little-endian numbers, the rules and
//! findings with their faults, names and texts, and the outside of the program as traits.
#![tactic(auto)]

mod edits;
mod fault;
mod fields;
mod finding_kind;
mod limits;
mod name;
mod numbers;
mod outside;
mod region;
mod rule;
mod text;
mod uleb;

pub use edits::{Edit, get_u16, get_u32, get_u64, put_edits};
pub use fault::{Break, Fault, Finding, NoMemory, SetFault, Site, Span, UlebFault, ViewFault};
pub use fields::{Field, spell_fields};
pub use finding_kind::FindingKind;
pub use limits::{EXPORT_NAMES_LIMIT, NAME_LIMIT, RECORD_LIMIT, SET_RECORD_LIMIT, SPAN_LIMIT};
pub use name::Name;
pub use numbers::{
    put_u16, put_u32, put_u64, puts_read_back, read_u16, read_u32, read_u64, round_up,
};
pub use outside::{
    FileStore, Gate, GetFault, MemSink, MemStore, OpenGate, Planned, PutFault, Sink, SinkFailed,
    SoundStore, Store, WriterSink,
};
pub use region::{PAGE, REGION_SIZE, REGION_START, page_up};
pub use rule::Rule;
pub use text::{Text, is_plain_text};
pub use uleb::{put_uleb, put_uleb4, read_sleb, read_uleb, uleb_len, uleb4};
