//! The edge to the outside: sources and sinks of bytes, the feed that hands out a source's bytes,
//! and the ways in which a session ends.
#![tactic(auto)]

mod ends;
mod feed;
mod laws;
mod memory;
mod piece;
mod real;
mod service;
mod source;

pub use ends::{After, FeedEnd, LineEnd, SessionEnd, Wire};
pub use feed::Feed;
pub use laws::{
    an_input_decides_the_end, an_input_decides_the_session, each_input_has_an_end,
    each_text_has_one_cut,
};
pub use memory::{MemSink, MemSource};
pub use real::{StdSink, StdSource};
pub use service::{Service, end_of, run_service};
pub use source::{Sink, Source, send};
