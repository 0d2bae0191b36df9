//! Callers of `free_pages`, `span_pools` and `dsa_area`: runs of pages, a pool that gets its superblocks from pages, and
//! areas, a walk of 2,000 requests over one among them. No other crate depends on it.

#![tactic(auto)]

#[cfg(test)]
mod areas;
#[cfg(test)]
mod objects;
#[cfg(test)]
mod runs;
