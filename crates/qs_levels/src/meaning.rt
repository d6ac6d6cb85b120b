//! What a level of configurations is, and what the levels of a search come to. It has no code: the definitions stand in
//! `specs`, and what follows of them in `proofs`.
