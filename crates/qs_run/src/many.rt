//! Many runs of a program on threads, and how often each end came.

mod repeats;

pub use repeats::{Repeats, run_times, run_times_with};
