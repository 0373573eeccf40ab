//! Readers, sources, sinks and streams.

mod depth;
mod heads;
mod hostile;
mod io;
mod readers;
mod states;
mod streams;
mod vectors;
mod writers;
