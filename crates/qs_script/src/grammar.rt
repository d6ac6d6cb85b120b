//! The grammar of scripts: which tokens are a script's, what reading makes of them, and where no script goes on.

pub mod laws;
