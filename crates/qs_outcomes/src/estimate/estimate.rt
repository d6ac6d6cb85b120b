//! The bounds of a search after a front.

ghost use Rattle.std.specs.Prelude.{◌≡◌, ◌==◌, ◌<◌, ◌-◌, ◌↔◌, ℕ, None, IfSome, count_by, length, take};
ghost use Rattle.qs_program.specs.audit.Program.{blocks_of};
ghost use Rattle.qs_meaning.specs.audit.Serial.{IsLegal};
ghost use Rattle.qs_serial.specs.audit.NamedOrders.{order_of};
ghost use Rattle.qs_outcomes.specs.estimate.Estimates.{IsEstimateAfter, capped, left, told};

use crate::estimate::ways::{least_orders, most_orders};
use qs_program::{MOST_CLIENTS, Program};
use qs_serial::names_order;

/// The greatest number that is told of a bound.
pub const MOST_TOLD: u64 = 1_000_000_000_000_000_000;

/// How many configurations a search can have.
#[derive(Clone, Copy)]
pub struct Estimate {
    /// No search has more; `None` where this is over `MOST_TOLD`.
    pub most: Option<u64>,
    /// A search over all that is on the way has no fewer, unless it stops earlier.
    pub least: u64,
}

// How many blocks a client has besides those that a list of clients names.
fn blocks_left(program: &Program, front: &[u8], client: u8) -> u8
    requires client { client < length program.now.clients }
    ensures left { result ≡ blocks_of program.now client - count_by (λ c. c == client) front.now }
{
    program.keeps_sound();
    let named = front.iter().filter(|named| **named == client).count();
    program.blocks_of(client).saturating_sub(named) as u8
}

// How many blocks each client has left, and 0 where there is no client.
fn all_left(program: &Program, front: &[u8]) -> [u8; MOST_CLIENTS]
    ensures left { take (length program.now.clients) result ≡ left program.now (order_of front.now) }
{
    program.keeps_sound();
    let mut left = [0u8; MOST_CLIENTS];
    for client in 0..program.clients() as u8 {
        left[usize::from(client)] = blocks_left(program, front, client);
    }
    left
}

// A bound, unless it is too great to be told.
fn told(most: u64) -> Option<u64>
    ensures told { (n : ℕ) → most ≡ capped n → result ≡ told n }
{
    if most <= MOST_TOLD { Some(most) } else { None }
}

/// How many configurations a search can have, after the blocks that a list of clients names: the bound for each search,
/// and how many there are at least on the way. It makes no search and takes no memory. `None` comes exactly where the
/// list names no legal order.
pub fn estimate_after(program: &Program, front: &[u8]) -> Option<Estimate>
    ensures estimate { IfSome result (IsEstimateAfter program.now (order_of front.now)) }
    ensures order { (result ≡ None) ↔ ¬ IsLegal program.now (order_of front.now) }
{
    if !names_order(program, front) {
        return None;
    }
    program.keeps_sound();
    let all = all_left(program, front);
    let left = &all[..program.clients()];
    Some(Estimate {
        most: told(most_orders(left)),
        least: least_orders(left),
    })
}
