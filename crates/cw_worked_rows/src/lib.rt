//! Worked texts: the productions of each, and what it prints, by computation. Nothing runs: the theorems stand in
//! `proofs/`.
#![tactic(auto)]
