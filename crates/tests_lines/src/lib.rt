//! Tests of memory maps and interrupt lines by themselves. They say what no clause of those crates says: values that were
//! written by hand, and that each call succeeds with ample memory.
#![tactic(auto)]

#[cfg(test)]
mod irq;
#[cfg(test)]
mod memmap;
