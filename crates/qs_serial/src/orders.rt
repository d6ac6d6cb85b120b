//! Lists of clients that name orders of blocks.

ghost use Rattle.std.specs.Prelude.{◌≡◌, ◌↔◌, true};
ghost use Rattle.qs_serial.specs.audit.NamedOrders.{order_of};
ghost use Rattle.qs_meaning.specs.audit.Serial.{IsLegal};

use qs_program::{MOST_CLIENTS, Program};

/// Whether a list of clients names a legal order, each client's blocks in turn: each is a client of the program, and
/// none is named more often than it has blocks.
pub fn names_order(program: &Program, clients: &[u8]) -> bool
    ensures legal { (result ≡ true) ↔ IsLegal program.now (order_of clients.now) }
{
    program.keeps_sound();
    let mut begun = [0u8; MOST_CLIENTS];
    for client in clients {
        let place = usize::from(*client);
        if place >= program.clients() || usize::from(begun[place]) >= program.blocks_of(*client) {
            return false;
        }
        begun[place] += 1;
    }
    true
}
