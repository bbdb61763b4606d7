//! What a type means as bytes, and the laws of a meaning: definitions and proofs alone, no code.
#![tactic(auto)]
