//! Of which actors it is known that they have no step.

ghost use Rattle.std.specs.Prelude.{◌≡◌, ◌<◌, ℕ, false, slice_index_or, slice_set};
ghost use Rattle.qs_program.specs.audit.Limits.{most_clients, most_handlers};
ghost use Rattle.qs_core.specs.state.CoreStuck.{IsNobody};

use qs_program::{MOST_CLIENTS, MOST_HANDLERS};
use std::marker::Model;

/// A flag for each client and for each handler: whether it is known to have no step. Where it is not set, nothing is
/// known.
#[derive(Drop)]
pub(crate) struct Stuck {
    clients: [bool; MOST_CLIENTS],
    handlers: [bool; MOST_HANDLERS],
}

impl Model for Stuck {
    ghost use Rattle.qs_core.specs.state.CoreStuck.{StuckFlags};

    ghost Value = { StuckFlags };

    ghost view = { λ s. record { clients = s.clients; handlers = s.handlers } };
}

impl Stuck {
    /// Flags of which none is set.
    pub(crate) fn nobody() -> Stuck
        ensures none { IsNobody result }
    {
        Stuck {
            clients: [false; MOST_CLIENTS],
            handlers: [false; MOST_HANDLERS],
        }
    }

    #[inline(always)]
    pub(crate) fn has_client(&self, client: u8) -> bool
        requires { client < most_clients }
        ensures value { result ≡ slice_index_or self.now.clients client false }
    {
        self.clients[usize::from(client)]
    }

    #[inline(always)]
    pub(crate) fn has_handler(&self, handler: u8) -> bool
        requires { handler < most_handlers }
        ensures value { result ≡ slice_index_or self.now.handlers handler false }
    {
        self.handlers[usize::from(handler)]
    }

    /// The flag of a client becomes this.
    #[inline(always)]
    pub(crate) fn put_client(&mut self, client: u8, is_stuck: bool)
        requires { client < most_clients }
        ensures put { self.new.clients ≡ slice_set self.old.clients client is_stuck }
        ensures others { self.new.handlers ≡ self.old.handlers }
    {
        self.clients[usize::from(client)] = is_stuck;
    }

    /// The flag of a handler becomes this.
    #[inline(always)]
    pub(crate) fn put_handler(&mut self, handler: u8, is_stuck: bool)
        requires { handler < most_handlers }
        ensures put { self.new.handlers ≡ slice_set self.old.handlers handler is_stuck }
        ensures others { self.new.clients ≡ self.old.clients }
    {
        self.handlers[usize::from(handler)] = is_stuck;
    }

    /// No handler's flag is set any more.
    #[inline(always)]
    pub(crate) fn wake_handlers(&mut self)
        ensures none { (h : ℕ) → slice_index_or self.new.handlers h false ≡ false }
        ensures others { self.new.clients ≡ self.old.clients }
    {
        self.handlers = [false; MOST_HANDLERS];
    }
}
