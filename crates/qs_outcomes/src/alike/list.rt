//! The list of all outcomes up to changes of alike clients.

ghost use Rattle.std.specs.Prelude.{◌≡◌, ◌≤◌, IfOk, IsErrOf, []};
ghost use Rattle.qs_alike.specs.Changes.{AreClasses};
ghost use Rattle.qs_alike.specs.Followed.{only_reduced};
ghost use Rattle.qs_alike.specs.Texts.{classes_in};
ghost use Rattle.qs_outcomes.specs.Reached.{HasMore};
ghost use Rattle.qs_outcomes.specs.alike.AlikeOutcomes.{AreAlikeOutcomes};

use crate::alike::counts::counts_of;
use crate::depth::Searched;
use crate::fault::OutcomesFault;
use crate::lists::search_after;
use crate::question::Nothing;
use crate::watcher::Unwatched;
use qs_alike::Classes;
use qs_program::Program;
use qs_standings::Standing;
use std::alloc::Global;
use std::marker::Model;

/// Of all outcomes of a program one for all that differ by a change of alike clients, for how many outcomes each of
/// them stands, and how many configurations followed orders lead to, but for changes.
pub struct AlikeOutcomes {
    found: Vec<Standing>,
    counts: Vec<u32>,
    configurations: usize,
}

impl Drop for AlikeOutcomes {
    fn drop(self) {
        let AlikeOutcomes {
            found: _,
            counts: _,
            configurations: _,
        } = self;
    }
}

impl Model for AlikeOutcomes {
    ghost use Rattle.qs_outcomes.specs.alike.AlikeOutcomes.{AlikeShape};

    ghost Value = { AlikeShape };

    ghost view = { λ o. record { found = o.found.items; counts = o.counts.items; configurations = o.configurations } };
}

impl AlikeOutcomes {
    /// Where the program stands at the end of complete orders.
    pub fn found(&self) -> &[Standing]
        ensures found { result.now ≡ self.now.found }
    {
        self.found.as_slice()
    }

    /// For each of these how many outcomes its own becomes by changes of alike clients. Their sum is how many outcomes
    /// there are in all.
    pub fn counts(&self) -> &[u32]
        ensures counts { result.now ≡ self.now.counts }
    {
        self.counts.as_slice()
    }

    /// How many configurations there are, but for changes.
    pub fn configurations(&self) -> usize
        ensures configurations { result ≡ self.now.configurations }
    {
        self.configurations
    }
}

/// Of all outcomes of a program one for all that differ by a change of alike clients, with their number, and the least
/// complete order that is followed and comes to one of these; sorted by these orders. `configurations` is exactly how many
/// configurations followed orders lead to, of which none is a change of another. `Limit` comes only where there are more
/// of them than the limit, `Memory` where memory was refused, and `Order` never.
pub fn outcomes_alike(
    alloc: Global,
    program: &Program,
    classes: &Classes,
    limit: u32,
) -> Result<AlikeOutcomes, OutcomesFault>
    requires classes { AreClasses program.now (classes_in classes.now) }
    ensures outcomes { IfOk result (λ all. AreAlikeOutcomes program.now (classes_in classes.now) all) }
    ensures within { IfOk result (λ all. all.configurations ≤ limit) }
    ensures limit { IsErrOf result OutcomesFault.Limit → HasMore program.now (classes_in classes.now) only_reduced []
        limit }
    ensures order { ¬ IsErrOf result OutcomesFault.Order }
{
    program.keeps_sound();
    let Searched { found, seen, .. } = search_after(
        alloc,
        program,
        classes,
        &[],
        limit,
        &Nothing,
        &mut Unwatched,
    )?;
    let counts = counts_of(alloc, program, classes, found.as_slice())?;
    Ok(AlikeOutcomes {
        found,
        counts,
        configurations: seen.len(),
    })
}
