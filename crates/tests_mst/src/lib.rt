//! Tests of `atproto_mst`.
#![tactic(auto)]

#[cfg(test)]
mod changes;
#[cfg(test)]
mod searches;
#[cfg(test)]
mod sharing;
#[cfg(test)]
mod tests;
