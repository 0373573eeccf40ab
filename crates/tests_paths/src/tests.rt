mod find;
mod nodes;
mod resolve;
mod segments;
