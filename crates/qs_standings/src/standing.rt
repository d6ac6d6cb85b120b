//! Configurations with the orders that lead there.

ghost use Rattle.std.specs.Prelude.{◌≡◌, ◌<◌, ◌↔◌, true, false, ℕ, IfOk, OnOk, [], ◌∷◌, ◌++◌, length, map, slice_index_or, slice_set};
ghost use Rattle.qs_meaning.specs.audit.Serial.{declared_states, no_state, zeros};
ghost use Rattle.qs_meaning.specs.audit.Solo.{solo};
ghost use Rattle.qs_serial.specs.Alone.{AreCallsWithin, states_in};
ghost use Rattle.qs_program.specs.audit.Program.{blocks_of};
ghost use Rattle.qs_standings.specs.Standings.{flipped, flipped_ticket};

use crate::going::{Last, goes_on};
use crate::rows::{Draft, Row, add_locals, add_objects, padded, put_stem};
use crate::scratch::Scratch;
use crate::variables::Variables;
use qs_objects::{Object, Ticket};
use qs_program::{Block, Locals, MOST_VARIABLES, Program};
use qs_serial::run_body;
use std::alloc::{AllocError, Global};
use std::marker::Model;
use std::mem;

/// Where a program stands after an order of whole blocks: the order, how many blocks each client has begun, the
/// clients' variables, and the objects.
pub struct Standing {
    pub(crate) order: Vec<Ticket>,
    pub(crate) begun: Vec<u8>,
    pub(crate) locals: Variables,
    pub(crate) objects: Vec<Object>,
}

impl Drop for Standing {
    fn drop(self) {
        let Standing {
            order: _,
            begun: _,
            locals: _,
            objects: _,
        } = self;
    }
}

impl Model for Standing {
    ghost use Rattle.qs_standings.specs.Standings.{StandingShape};

    ghost Value = { StandingShape };

    ghost view = { λ s. record { order = s.order.items; begun = s.begun.items; locals = s.locals; states = s.objects.items } };
}

// All objects as declared.
fn declared_objects(alloc: Global, program: &Program) -> Result<Vec<Object>, AllocError>
    ensures count { IfOk result (λ objects. length objects.items ≡ length program.now.objects) }
    ensures values { IfOk result (λ objects. (h : ℕ) → h < length program.now.objects
        → slice_index_or objects.items h no_state ≡ declared_states program.now h) }
{
    program.keeps_sound();
    let mut objects = Vec::with_capacity(alloc, program.objects())?;
    for object in 0..program.objects() as u8 {
        objects.push(program.declared_object(alloc, object)?)?;
    }
    Ok(objects)
}

/// Puts copies of objects in the place of those that are there.
pub(crate) fn put_objects(
    alloc: Global,
    objects: &[Object],
    copies: &mut Vec<Object>,
) -> Result<(), AllocError>
    ensures same { OnOk result (copies.new.items ≡ objects.now) }
{
    copies.clear();
    for object in objects {
        copies.push(object.copied(alloc)?)?;
    }
    Ok(())
}

// Runs a block alone, on copies of the objects. An error says that memory was refused.
fn run_block(
    alloc: Global,
    block: &Block,
    locals: &mut Locals,
    objects: &[Object],
    left: &mut Vec<Object>,
) -> Result<(), AllocError>
    requires within { AreCallsWithin (length objects.now) block.now.body }
    ensures locals { OnOk result (locals.new ≡ (solo block.now.body locals.old (states_in objects.now)).locals) }
    ensures states { OnOk result (states_in left.new.items ≡ (solo block.now.body locals.old (states_in objects.now)).states) }
    ensures count { OnOk result (length left.new.items ≡ length objects.now) }
{
    put_objects(alloc, objects, left)?;
    let _leave = run_body(alloc, block.body(), locals, left.as_mut_slice());
    Ok(())
}

// Puts an order with one more ticket in the place of the one that is there.
fn put_longer(order: &[Ticket], ticket: Ticket, longer: &mut Vec<Ticket>) -> Result<(), AllocError>
    ensures longer { OnOk result (longer.new.items ≡ order.now ++ ticket ∷ []) }
{
    longer.clear();
    longer.extend_from_slice(order)?;
    longer.push(ticket)?;
    Ok(())
}

// Puts the same counts but for one in the place of those that are there.
fn put_counts(begun: &[u8], place: usize, count: u8, counts: &mut Vec<u8>) -> Result<(), AllocError>
    requires { place < length begun.now }
    ensures set { OnOk result (counts.new.items ≡ slice_set begun.now place count) }
{
    counts.clear();
    counts.extend_from_slice(begun)?;
    counts[place] = count;
    Ok(())
}

// The other of two clients; another one stays as it is.
fn flipped(one: u8, other: u8, client: u8) -> u8
    ensures flipped { result ≡ flipped one other client }
{
    if client == one {
        other
    } else if client == other {
        one
    } else {
        client
    }
}

// Puts two clients in each other's places of an order.
fn flip_order(one: u8, other: u8, order: &mut [Ticket])
    ensures flipped { order.new ≡ map (flipped_ticket one other) order.old }
{
    for place in 0..order.len() {
        order[place].client = flipped(one, other, order[place].client);
    }
}

impl Standing {
    ghost use Rattle.qs_meaning.specs.Reduced.{goes_on};
    ghost use Rattle.qs_standings.specs.going.Going.{AreLast, in_byte};
    ghost use Rattle.qs_standings.specs.Rows.{AreStarts, drafted, shape_of};
    ghost use Rattle.qs_standings.specs.Standings.{exchanged, NoneNext, HasNext, HasRun, IsFirst, IsOneOn, IsStanding, configuration_in, row_of, standing_with_block};

    /// The order of blocks that leads there.
    pub fn order(&self) -> &[Ticket]
        ensures order { result.now ≡ self.now.order }
    {
        self.order.as_slice()
    }

    /// How many blocks each client has begun.
    pub fn begun(&self) -> &[u8]
        ensures begun { result.now ≡ self.now.begun }
    {
        self.begun.as_slice()
    }

    /// A client's variables.
    pub fn locals(&self, client: u8) -> Locals
        requires { client < length self.now.locals }
        ensures locals { result ≡ slice_index_or self.now.locals client zeros }
    {
        self.locals.at(usize::from(client))
    }

    /// An object.
    pub fn object(&self, object: u8) -> &Object
        requires { object < length self.now.states }
        ensures object { result.now ≡ slice_index_or self.now.states object no_state }
    {
        &self.objects[usize::from(object)]
    }

    /// Where the program stands before its first block. An error says that memory was refused.
    pub(crate) fn first(alloc: Global, program: &Program) -> Result<Standing, AllocError>
        ensures first { IfOk result (IsFirst program.now []) }
    {
        program.keeps_sound();
        let clients = program.clients();
        Ok(Standing {
            order: Vec::new(alloc),
            begun: vec![in alloc; 0; clients]?,
            locals: Variables::zeros(alloc, program)?,
            objects: declared_objects(alloc, program)?,
        })
    }

    // Whether a client has a block left.
    fn has_next(&self, program: &Program, front: &[Ticket], client: u8) -> bool
        requires client { client < length program.now.clients }
        requires standing { IsStanding program.now front.now self.now }
        ensures next { (result ≡ true) ↔ HasNext program.now self.now client }
    {
        usize::from(self.begun[usize::from(client)]) < program.blocks_of(client)
    }

    /// Whether no client has a block left.
    pub fn is_over(&self, program: &Program, front: &[Ticket]) -> bool
        requires standing { IsStanding program.now front.now self.now }
        ensures over { result ≡ true → NoneNext program.now self.now }
        ensures left { result ≡ false → NoneNext program.now self.now → ⊥ }
    {
        program.keeps_sound();
        for client in 0..program.clients() as u8 {
            if self.has_next(program, front, client) {
                return false;
            }
        }
        true
    }

    /// Who goes on, client c in bit c. It takes no memory.
    pub fn goes_on(&self, program: &Program, last: &[Last], front: &[Ticket]) -> u8
        requires last { AreLast program.now last.now }
        requires standing { IsStanding program.now front.now self.now }
        ensures goes { in_byte result ≡ goes_on program.now (configuration_in self.now).begun }
    {
        goes_on(program, last, self.begun.as_slice())
    }

    /// Lists without a place, which take no memory: what `put_next` writes into.
    pub fn empty(alloc: Global) -> Standing {
        Standing {
            order: Vec::new(alloc),
            begun: Vec::new(alloc),
            locals: Variables::empty(alloc),
            objects: Vec::new(alloc),
        }
    }

    /// Runs the next block of a client alone, on copies of its variables and of the objects. An error says that memory
    /// was refused.
    pub fn run_next(
        &self,
        alloc: Global,
        program: &Program,
        front: &[Ticket],
        client: u8,
        values: &mut Locals,
        left: &mut Vec<Object>,
    ) -> Result<(), AllocError>
        requires client { client < length program.now.clients }
        requires standing { IsStanding program.now front.now self.now }
        requires left { HasNext program.now self.now client }
        ensures ran { OnOk result (HasRun program.now self.now client values.new left.new.items) }
    {
        program.keeps_sound();
        let place = usize::from(client);
        *values = self.locals.at(place);
        let block = program.block(client, self.begun[place]);
        run_block(alloc, block, values, self.objects.as_slice(), left)?;
        Ok(())
    }

    /// Writes where the program stands after the next block of a client, which left these variables and objects, into a
    /// standing, whose memory is used again. The objects are taken. An error says that memory was refused.
    pub fn put_next(
        &self,
        program: &Program,
        front: &[Ticket],
        client: u8,
        values: &Locals,
        left: &mut Vec<Object>,
        next: &mut Standing,
    ) -> Result<(), AllocError>
        requires client { client < length program.now.clients }
        requires standing { IsStanding program.now front.now self.now }
        requires left { HasNext program.now self.now client }
        ensures next { OnOk result (next.new ≡ standing_with_block self.now client values.now left.old.items) }
    {
        program.keeps_sound();
        let place = usize::from(client);
        let index = self.begun[place];
        put_longer(
            self.order.as_slice(),
            Ticket { client, index },
            &mut next.order,
        )?;
        put_counts(self.begun.as_slice(), place, index + 1, &mut next.begun)?;
        self.locals.put_changed(place, values, &mut next.locals)?;
        mem::swap(&mut next.objects, left);
        Ok(())
    }

    /// Writes a copy of itself into a standing, whose memory is used again. An error says that an allocation failed.
    pub fn put_copy(&self, alloc: Global, copy: &mut Standing) -> Result<(), AllocError>
        ensures same { OnOk result (copy.new ≡ self.now) }
    {
        copy.order.clear();
        copy.order.extend_from_slice(self.order.as_slice())?;
        copy.begun.clear();
        copy.begun.extend_from_slice(self.begun.as_slice())?;
        let (width, clients, numbers) = self.locals.parts();
        copy.locals.put(width, clients, numbers)?;
        put_objects(alloc, self.objects.as_slice(), &mut copy.objects)
    }

    /// Where the program stands after the next block of a client. An error says that memory was refused.
    pub fn next(
        &self,
        alloc: Global,
        program: &Program,
        front: &[Ticket],
        client: u8,
    ) -> Result<Standing, AllocError>
        requires client { client < length program.now.clients }
        requires standing { IsStanding program.now front.now self.now }
        requires left { HasNext program.now self.now client }
        ensures on { IfOk result (IsOneOn program.now self.now client) }
    {
        let mut left = Vec::new(alloc);
        let mut values = [0; MOST_VARIABLES];
        self.run_next(alloc, program, front, client, &mut values, &mut left)?;
        let mut next = Standing::empty(alloc);
        self.put_next(program, front, client, &values, &mut left, &mut next)?;
        Ok(next)
    }

    /// Puts two clients in each other's places.
    pub fn exchange(&mut self, one: u8, other: u8)
        requires begun { (one < length self.old.begun) × (other < length self.old.begun) }
        requires locals { (one < length self.old.locals) × (other < length self.old.locals) }
        ensures exchanged { self.new ≡ exchanged one other self.old }
    {
        flip_order(one, other, self.order.as_mut_slice());
        self.begun.swap(usize::from(one), usize::from(other));
        self.locals.exchange(usize::from(one), usize::from(other));
    }

    /// Its row. An error says that memory was refused.
    pub fn row(&self, alloc: Global, program: &Program, front: &[Ticket]) -> Result<Row, AllocError>
        requires standing { IsStanding program.now front.now self.now }
        ensures row { IfOk result (λ row. shape_of row ≡ row_of program.now self.now) }
    {
        let mut draft = Draft::new(alloc);
        self.write_row(program, front, &mut draft)?;
        draft.row(alloc)
    }

    /// Writes itself as a row. An error says that memory was refused.
    pub fn write_row(
        &self,
        program: &Program,
        front: &[Ticket],
        row: &mut Draft,
    ) -> Result<(), AllocError>
        requires standing { IsStanding program.now front.now self.now }
        ensures row { OnOk result (drafted row.new ≡ row_of program.now self.now) }
    {
        program.keeps_sound();
        row.begun = padded(self.begun.as_slice());
        row.numbers.clear();
        add_locals(&mut row.numbers, program, &self.locals)?;
        add_objects(&mut row.numbers, self.objects.as_slice())
    }

    /// Writes the row of where the next block of a client leads, from the row of the standing and from the variables and
    /// the objects that the block left, all in the scratch. An error says that memory was refused.
    pub fn write_next_row(
        &self,
        program: &Program,
        front: &[Ticket],
        client: u8,
        starts: &[usize],
        scratch: &mut Scratch,
    ) -> Result<(), AllocError>
        requires client { client < length program.now.clients }
        requires standing { IsStanding program.now front.now self.now }
        requires left { HasNext program.now self.now client }
        requires starts { AreStarts program.now starts.now }
        requires base { drafted scratch.old.base ≡ row_of program.now self.now }
        ensures base { scratch.new.base ≡ scratch.old.base }
        ensures values { scratch.new.values ≡ scratch.old.values }
        ensures left { scratch.new.left ≡ scratch.old.left }
        ensures copy { scratch.new.copy ≡ scratch.old.copy }
        ensures row { OnOk result (drafted scratch.new.row ≡ row_of program.now
            (standing_with_block self.now client scratch.old.values scratch.old.left.items)) }
    {
        program.keeps_sound();
        let place = usize::from(client);
        let row = &mut scratch.row;
        row.begun = scratch.base.begun;
        row.begun[place] = self.begun[place] + 1;
        let numbers = scratch.base.numbers.as_slice();
        let values = &scratch.values;
        put_stem(program, starts, numbers, client, values, &mut row.numbers)?;
        add_objects(&mut row.numbers, scratch.left.as_slice())?;
        Ok(())
    }
}
