//! What no command of `ptpm` can show of the libraries of scripts, networks, pictures and sites, by their public functions. Memory is
//! refused at a place, a reader or a writer is interrupted, and an event is one that no line says. All else is in `tests/` at the top.
#![tactic(auto)]

#[cfg(test)]
mod tests;
