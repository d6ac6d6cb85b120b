//! What a search is made for, and one step of it: where a client's next block leads.

ghost use Rattle.std.specs.Prelude.{◌≡◌, ◌<◌, true, false, IfOk, OnOk, length};
ghost use Rattle.std.specs.Bool.{Decides};
ghost use Rattle.qs_alike.specs.Changes.{AreAlone, AreClasses};
ghost use Rattle.qs_alike.specs.Followed.{GoesOnUpTo};
ghost use Rattle.qs_alike.specs.Keys.{IsKey};
ghost use Rattle.qs_alike.specs.Texts.{classes_in};
ghost use Rattle.qs_outcomes.specs.Searches.{AreGoing, IsLed, IsReady, IsWrittenIn, classes_of};
ghost use Rattle.qs_standings.specs.Rows.{drafted, rows_in};
ghost use Rattle.qs_standings.specs.Standings.{HasNext, HasRun, IsOneOn, IsStanding, configuration_in, row_of, standing_with_block};

use indexmap::IndexSet;
use qs_alike::{Classes, are_alone, goes_on_up_to, put_placed};
use qs_objects::Ticket;
use qs_program::Program;
use qs_standings::{
    Last, Row, Scratch, Standing, last_blocks, put_by, row_starts, spare_standing, was_seen,
};
use std::alloc::{AllocError, Global};

/// What a search is made for, which stays the same while it goes on: a program, which of its clients may change places,
/// the blocks that were run before, and how many configurations it looks at at most.
#[derive(Drop)]
pub(crate) struct Search<'a> {
    pub(crate) program: &'a Program,
    pub(crate) classes: &'a Classes,
    pub(crate) front: &'a [Ticket],
    pub(crate) limit: u32,
    pub(crate) alone: bool,
    pub(crate) last: Vec<Last>,
    pub(crate) starts: Vec<usize>,
}

impl<'a> Search<'a> {
    /// An error says that an allocation failed.
    pub(crate) fn new(
        alloc: Global,
        program: &'a Program,
        classes: &'a Classes,
        front: &'a [Ticket],
        limit: u32,
    ) -> Result<Search<'a>, AllocError>
        requires classes { AreClasses program.now (classes_in classes.now) }
        ensures prepared { IfOk result IsReady }
        ensures made { IfOk result (λ search. (search.program.now ≡ program.entry.now)
            × (search.classes.now ≡ classes.entry.now)
            × (search.front.now ≡ front.entry.now) × (search.limit ≡ limit)) }
    {
        Ok(Search {
            program,
            classes,
            front,
            limit,
            alone: are_alone(classes),
            last: last_blocks(alloc, program)?,
            starts: row_starts(alloc, program)?,
        })
    }

    /// Writes a standing before its next blocks are run: its row, and itself with the places of each class in order where
    /// clients may change places. An error says that an allocation failed.
    pub(crate) fn write(
        &self,
        alloc: Global,
        standing: &Standing,
        scratch: &mut Scratch,
    ) -> Result<(), AllocError>
        requires prepared { IsReady self.now }
        requires standing { IsStanding self.now.program.now standing.now.order standing.now }
        ensures written { OnOk result (IsWrittenIn self.now standing.now (drafted scratch.new.base) scratch.new.copy) }
    {
        if self.alone {
            standing.write_row(self.program, standing.order(), &mut scratch.base)?;
            return Ok(());
        }
        put_placed(
            alloc,
            self.program,
            self.classes,
            standing,
            &mut scratch.copy,
        )?;
        let placed = &scratch.copy;
        placed.write_row(self.program, placed.order(), &mut scratch.base)?;
        Ok(())
    }

    /// Who goes on where the places of each class are in order, client c in bit c. It takes no memory.
    pub(crate) fn going(&self, standing: &Standing, scratch: &Scratch) -> u8
        requires prepared { IsReady self.now }
        requires standing { IsStanding self.now.program.now standing.now.order standing.now }
        requires written { IsWrittenIn self.now standing.now (drafted scratch.now.base) scratch.now.copy }
        ensures going { AreGoing self.now.program.now self.now.alone standing.now scratch.now.copy result }
    {
        let placed = if self.alone { standing } else { &scratch.copy };
        placed.goes_on(self.program, self.last.as_slice(), placed.order())
    }

    /// Whether a client goes on up to changes of alike clients.
    pub(crate) fn follows(
        &self,
        standing: &Standing,
        scratch: &Scratch,
        goes: u8,
        client: u8,
    ) -> bool
        requires prepared { IsReady self.now }
        requires client { client < length self.now.program.now.clients }
        requires standing { IsStanding self.now.program.now standing.now.order standing.now }
        requires written { IsWrittenIn self.now standing.now (drafted scratch.now.base) scratch.now.copy }
        requires going { AreGoing self.now.program.now self.now.alone standing.now scratch.now.copy goes }
        ensures follows { Decides result (GoesOnUpTo self.now.program.now (classes_of self.now)
            (configuration_in standing.now) client) }
    {
        self.program.keeps_sound();
        if self.alone {
            return (goes >> client) & 1 == 1;
        }
        goes_on_up_to(
            self.program,
            self.classes,
            standing,
            &scratch.copy,
            goes,
            client,
        )
    }

    // Where the next block of a client leads, which has run, unless its key is found in a table. Nobody changes places, so
    // the key is its row, which is written from that of the standing.
    fn lead_alone(
        &self,
        alloc: Global,
        standing: &Standing,
        client: u8,
        scratch: &mut Scratch,
        seen: &IndexSet<Row>,
    ) -> Result<Option<Standing>, AllocError>
        requires prepared { IsReady self.now }
        requires client { client < length self.now.program.now.clients }
        requires standing { IsStanding self.now.program.now standing.now.order standing.now }
        requires left { HasNext self.now.program.now standing.now client }
        requires alone { AreAlone (classes_of self.now) }
        requires base { drafted scratch.old.base ≡ row_of self.now.program.now standing.now }
        requires ran { HasRun self.now.program.now standing.now client scratch.old.values scratch.old.left.items }
        ensures base { scratch.new.base ≡ scratch.old.base }
        ensures copy { scratch.new.copy ≡ scratch.old.copy }
        ensures led { IfOk result (IsLed self.now.program.now (classes_of self.now) (rows_in seen.now.keys)
            standing.now client (drafted scratch.new.row)) }
    {
        standing.write_next_row(
            self.program,
            standing.order(),
            client,
            self.starts.as_slice(),
            scratch,
        )?;
        if was_seen(seen, &scratch.hints, &scratch.row) {
            return Ok(None);
        }
        let mut next = spare_standing(alloc, &mut scratch.spare);
        standing.put_next(
            self.program,
            standing.order(),
            client,
            &scratch.values,
            &mut scratch.left,
            &mut next,
        )?;
        Ok(Some(next))
    }

    // Writes the key of a standing, which is the row with the places of each class in order.
    fn write_placed(
        &self,
        alloc: Global,
        standing: &Standing,
        scratch: &mut Scratch,
    ) -> Result<(), AllocError>
        requires prepared { IsReady self.now }
        requires standing { IsStanding self.now.program.now standing.now.order standing.now }
        ensures base { scratch.new.base ≡ scratch.old.base }
        ensures copy { scratch.new.copy ≡ scratch.old.copy }
        ensures key { OnOk result (IsKey self.now.program.now (classes_of self.now) standing.now
            (drafted scratch.new.row)) }
    {
        let mut placed = spare_standing(alloc, &mut scratch.spare);
        put_placed(alloc, self.program, self.classes, standing, &mut placed)?;
        placed.write_row(self.program, placed.order(), &mut scratch.row)?;
        put_by(&mut scratch.spare, placed)
    }

    // The same where clients may change places: the key is the row with the places of each class in order.
    fn lead_placed(
        &self,
        alloc: Global,
        standing: &Standing,
        client: u8,
        scratch: &mut Scratch,
        seen: &IndexSet<Row>,
    ) -> Result<Option<Standing>, AllocError>
        requires prepared { IsReady self.now }
        requires client { client < length self.now.program.now.clients }
        requires standing { IsStanding self.now.program.now standing.now.order standing.now }
        requires left { HasNext self.now.program.now standing.now client }
        requires ran { HasRun self.now.program.now standing.now client scratch.old.values scratch.old.left.items }
        ensures base { scratch.new.base ≡ scratch.old.base }
        ensures copy { scratch.new.copy ≡ scratch.old.copy }
        ensures led { IfOk result (IsLed self.now.program.now (classes_of self.now) (rows_in seen.now.keys)
            standing.now client (drafted scratch.new.row)) }
    {
        let mut next = spare_standing(alloc, &mut scratch.spare);
        standing.put_next(
            self.program,
            standing.order(),
            client,
            &scratch.values,
            &mut scratch.left,
            &mut next,
        )?;
        self.write_placed(alloc, &next, scratch)?;
        if was_seen(seen, &scratch.hints, &scratch.row) {
            put_by(&mut scratch.spare, next)?;
            return Ok(None);
        }
        Ok(Some(next))
    }

    /// Where the next block of a client leads, unless its key is found in a table; and this key, in `row`. An error says
    /// that an allocation failed.
    pub(crate) fn lead(
        &self,
        alloc: Global,
        standing: &Standing,
        client: u8,
        scratch: &mut Scratch,
        seen: &IndexSet<Row>,
    ) -> Result<Option<Standing>, AllocError>
        requires prepared { IsReady self.now }
        requires client { client < length self.now.program.now.clients }
        requires standing { IsStanding self.now.program.now standing.now.order standing.now }
        requires left { HasNext self.now.program.now standing.now client }
        requires written { IsWrittenIn self.now standing.now (drafted scratch.old.base) scratch.old.copy }
        ensures base { scratch.new.base ≡ scratch.old.base }
        ensures copy { scratch.new.copy ≡ scratch.old.copy }
        ensures led { IfOk result (IsLed self.now.program.now (classes_of self.now) (rows_in seen.now.keys)
            standing.now client (drafted scratch.new.row)) }
    {
        standing.run_next(
            alloc,
            self.program,
            standing.order(),
            client,
            &mut scratch.values,
            &mut scratch.left,
        )?;
        if self.alone {
            self.lead_alone(alloc, standing, client, scratch, seen)
        } else {
            self.lead_placed(alloc, standing, client, scratch, seen)
        }
    }
}
