//! A run that meets the premises of the server's law, in which a worker completes a request.
#![tactic(auto)]

#[cfg(test)]
mod tests;
