//! The lines of actors that are asked one after another while whole blocks run, whatever the machine is.

ghost use Rattle.std.specs.Prelude.{◌≡◌, [], if◌then◌else◌, true, OnOk};
ghost use Rattle.qs_played.specs.audit.Schedule.{all_named};
ghost use Rattle.qs_steps.specs.Orders.{GoesOn};
ghost use Rattle.qs_steps.specs.Telling.{own_program};

use crate::telling::{Asked, Machine, put_actors};
use crate::wanted::{Form, Told, Wanted};
use qs_played::{Actor, Played};
use qs_program::Program;
use std::alloc::{AllocError, Global};

/// The actors that were asked so far, and the lines of their steps.
pub(crate) struct Lines {
    pub form: Form,
    pub actors: Vec<Actor>,
    pub text: Vec<u8>,
}

impl Drop for Lines {
    fn drop(self) {
        let Lines {
            form: _,
            actors: _,
            text: _,
        } = self;
    }
}

impl Lines {
    /// Before the first.
    pub(crate) fn new(alloc: Global, form: Form) -> Lines
        ensures form { result.form ≡ form }
        ensures actors { result.actors.items ≡ [] }
        ensures text { result.text.items ≡ [] }
    {
        Lines {
            form,
            actors: Vec::new(alloc),
            text: Vec::new(alloc),
        }
    }

    /// Some actors more, one step each.
    pub(crate) fn put<M: Machine>(
        &mut self,
        alloc: Global,
        program: &Program,
        machine: &mut M,
        actors: &[Actor],
    ) -> Result<(), AllocError>
        requires own { own_program M.view machine.old ≡ program.now }
        requires named { all_named program.now actors.now ≡ true }
        ensures on { OnOk result (GoesOn M.view program.now actors.now self.old machine.old self.new machine.new) }
    {
        let asked = Asked {
            form: self.form,
            is_pick: false,
            before: self.actors.len() as u64,
        };
        put_actors(alloc, &mut self.text, program, asked, machine, actors)?;
        self.actors.extend_from_slice(actors)
    }

    /// What was told, where it is asked for.
    pub(crate) fn into_told(self, wanted: Wanted, queues: Vec<u8>, played: Played) -> Told
        ensures steps { result.steps.items ≡ (if wanted.steps then self.text.items else []) }
        ensures queues { result.queues ≡ queues }
        ensures played { result.played ≡ played }
    {
        let Lines {
            form: _,
            actors: _,
            text: mut steps,
        } = self;
        if !wanted.steps {
            steps.clear();
        }
        Told {
            steps,
            queues,
            played,
        }
    }
}
