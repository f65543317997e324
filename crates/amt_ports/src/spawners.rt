//! Spawners that start each task in a thread of its own.
mod listed;
mod promised;
mod thread;

pub use listed::ListedSpawner;
pub use promised::{GivenBy, Starts, start_promised};
pub use thread::ThreadSpawner;
