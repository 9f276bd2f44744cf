//! Descriptions of boards: what a description says of a board, its text, and how a board is rebuilt of
//! it. Definitions and laws; the definitions stand in `specs/`.
#![tactic(auto)]

pub mod laws;
