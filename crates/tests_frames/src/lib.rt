//! Tests of `atproto_events`, `atproto_events`, `abi_memory_calls` and `program_events`.
#![tactic(auto)]

#[cfg(test)]
mod answers;
#[cfg(test)]
mod calls;
#[cfg(test)]
mod cases;
#[cfg(test)]
mod streams;
#[cfg(test)]
mod tests;
