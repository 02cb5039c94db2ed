//! Scripts, and what their commands are, by values worked out by hand.
mod batches;
mod commands;
mod forms;
mod saying;

// The lines of the tables are cut at this many bytes.
const LIMIT: usize = 12;
