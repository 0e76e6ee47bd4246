//! The results of the web server's libraries for heads, ranges and texts.
mod answers;
mod calls;
mod chunks;
mod malformed_heads;
mod outcomes;
mod ranges;
mod real_heads;
mod texts;
mod windows;
