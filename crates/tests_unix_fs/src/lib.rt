//! Tests of `files_unix_fs`.
#![tactic(auto)]

#[cfg(test)]
mod directories;
#[cfg(test)]
mod entities;
#[cfg(test)]
mod files;
#[cfg(test)]
mod messages;
