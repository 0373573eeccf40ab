//! Each type written and read, and the recipes.

mod album;
mod note;
mod recipes;
mod types;
