//! Runs of small jobs by threads.
mod checks;
mod gates;
mod jobs;
mod long;
mod refused;
mod rows;
