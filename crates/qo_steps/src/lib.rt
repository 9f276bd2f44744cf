//! Each change of a board as a run of elementary steps, and what a board keeps through every change.
//! Functions without effect, whose contracts say so. The steps stand in `specs/`. A law over every
//! change is proved from its steps by the theorem in `proofs/StepsLawLemmas`.
#![tactic(auto)]

pub mod laws;
