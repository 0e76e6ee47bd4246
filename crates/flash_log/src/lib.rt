//! The access log of a web server, in the Common Log Format, with the parsing of requests and
//! responses that it needs.
//!
//!     let mut log = AccessLog::new(alloc, writer);
//!     log.add(&Entry { host, date, request_line, status, body })?;
//!     log.flush();
#![tactic(auto)]

pub mod dates;
pub mod heads;
pub mod lines;
pub mod log;
