//! The parts below a fill: the directory, the caches, the counters and the loaders.

mod caches;
mod counters;
mod directory;
mod loaders;
