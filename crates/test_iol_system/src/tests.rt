//! Connections are served from readers and to writers ([`arrivals`], [`drains`]), and to takers of
//! several slices ([`offers`]): the results, the number of reads, writes and calls, and the state
//! after a failure. Processes take turns in worlds
//! ([`worlds`], [`streams`], [`watchers`]). Each call of a system or a world that needs memory
//! succeeds if there is enough (`ample`, in [`system_calls`] and [`worlds`]).
mod arrivals;
mod consumer;
mod drains;
mod line;
mod offers;
mod producer;
mod readme;
mod start;
mod streams;
mod system_calls;
mod taker;
mod watcher;
mod watchers;
mod worker;
mod workers;
mod worlds;
