//! Tests of `dag_pb`, of the data model of its blocks, and of walks along their links.
#![tactic(auto)]

#[cfg(test)]
mod encoded;
#[cfg(test)]
mod modelled;
#[cfg(test)]
mod put;
#[cfg(test)]
mod tests;
