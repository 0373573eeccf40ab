//! Tests of `atproto_events`.
#![tactic(auto)]

#[cfg(test)]
mod cases;
#[cfg(test)]
mod tests;
