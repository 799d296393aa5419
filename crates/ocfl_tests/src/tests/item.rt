//! What is met at one place: the lines of heads and of content places, and what judging them costs.
mod cost;
mod head_files;
mod head_lines;
mod judging;
mod met;
mod version_inventories;
