//! Tests of listeners by themselves: texts that were written by hand, and that each call succeeds with ample memory.
#![tactic(auto)]

#[cfg(test)]
mod ends;
#[cfg(test)]
mod forms;
