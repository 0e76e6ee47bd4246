//! The output of scripts.
mod ample;
mod ends;
mod outputs;
mod rows;
mod worker_world;
