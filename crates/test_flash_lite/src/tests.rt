//! Requests to a site in memory, and the responses.
mod answers;
mod crowds;
mod ends;
mod heads;
mod host;
mod hosted_site;
mod outputs;
mod processes;
mod ranges;
mod refusals;
mod rows;
mod scripts;
mod setups;
mod sizes;
mod small_writes;
mod together;
mod turns;
