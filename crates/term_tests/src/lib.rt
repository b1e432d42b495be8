//! What is sent for small and for very large screens, byte for byte.
#![tactic(auto)]

#[cfg(test)]
mod edges;
#[cfg(test)]
mod shots;
#[cfg(test)]
mod small;
