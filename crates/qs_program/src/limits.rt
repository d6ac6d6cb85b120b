//! The limits of a program, as a checker and a machine use them.

/// Objects of a program.
pub const MOST_OBJECTS: usize = 8;

/// Handlers of a program: each object has its own.
pub const MOST_HANDLERS: usize = MOST_OBJECTS;

/// Clients of a program.
pub const MOST_CLIENTS: usize = 8;

/// Blocks of a client.
pub const MOST_BLOCKS: usize = 64;

/// Tickets of a program: one for each block of each client.
pub const MOST_TICKETS: usize = MOST_CLIENTS * MOST_BLOCKS;

/// Variables of a client.
pub const MOST_VARIABLES: usize = 16;

/// Turns of a repeat.
pub const MOST_TURNS: u64 = 1000;

/// Requests of a program, on all objects together: its load.
pub const MOST_REQUESTS: u64 = 100_000;

/// Steps of a program: its weight.
pub const MOST_STEPS: u64 = 1_000_000;

// One more than each limit: no count goes further, as what is more is refused all the same.
pub(crate) const PAST_REQUESTS: u64 = MOST_REQUESTS + 1;

pub(crate) const PAST_STEPS: u64 = MOST_STEPS + 1;
