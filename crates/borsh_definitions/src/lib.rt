//! The definitions that types bring, when they describe a type's bytes, and the laws of describing: no code.
#![tactic(auto)]
