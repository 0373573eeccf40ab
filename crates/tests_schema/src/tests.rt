mod album;
mod blocks;
mod note;
mod repository;
mod written_again;
