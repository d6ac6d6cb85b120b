//! The state of the optimised machine's code, and which state of the machine it is: definitions and lemmas alone, on
//! which `qs_core` stands.
