//! Checked programs.

ghost use Rattle.std.specs.Prelude.{◌≡◌, ◌<◌, ◌≤◌, ◌+◌, IfOk, length, min, slice_index_or, sum_by};
ghost use Rattle.qs_objects.specs.audit.Objects.{starts};
ghost use Rattle.qs_program.specs.audit.Limits.{most_requests, most_steps};
ghost use Rattle.qs_program.specs.audit.Loads.{load_of, weight_of};
ghost use Rattle.std.specs.Prelude.{Some, None};
ghost use Rattle.qs_program.specs.audit.Binding.{bound};
ghost use Rattle.qs_program.specs.audit.Program.{binding_of, declarations_of, declared_as, is_started, own_block, no_object, client_at, block_at, object_at, no_block, blocks_of, whole_load, whole_weight};
ghost use Rattle.qs_program.specs.Program.{program_of};
ghost use Rattle.qs_program.specs.Sound.{IsSound};

use crate::code::{Body, Loads};
use crate::limits::MOST_OBJECTS;
use crate::names::Names;
use qs_objects::{Kind, Object, ObjectFault};
use qs_script::tree::Name;
use std::alloc::{AllocError, Global};
use std::marker::Model;

/// An object as it is declared.
pub struct Declared {
    pub name: Name,
    pub kind: Kind,
}

impl Drop for Declared {
    fn drop(self) {
        let Declared { name: _, kind: _ } = self;
    }
}

/// A separate block: the objects that it reserves, its statements, how many requests these can make on each of 8
/// objects, and how many steps they can take.
pub struct Block {
    reserved: Vec<u8>,
    body: Body,
    loads: Loads,
    steps: u64,
}

impl Drop for Block {
    fn drop(self) {
        let Block {
            reserved: _,
            body: _,
            loads: _,
            steps: _,
        } = self;
    }
}

impl Model for Block {
    ghost use Rattle.qs_program.specs.Shapes.{block_code};
    ghost use Rattle.qs_program.specs.audit.Program.{BlockShape};

    ghost Value = { BlockShape };

    ghost coded = { block_code };

    ghost view = { λ b. record { reserved = b.reserved.items; body = b.body } };

    ghost use Rattle.std.specs.Prelude.{◌≡◌, ◌+◌, min};
    ghost use Rattle.qs_program.specs.audit.Limits.{most_steps};
    ghost use Rattle.qs_program.specs.audit.Loads.{weight_of};
    ghost use Rattle.qs_program.specs.Loads.{AreLoads};

    ghost invariant = { λ b. AreLoads b.body b.loads × (b.steps ≡ min (weight_of b.body) (most_steps + 1)) };
}

impl Block {
    /// A block of a list of objects and of statements.
    pub fn new(reserved: Vec<u8>, body: Body) -> Block
        ensures value { result ≡ record { reserved = reserved.items; body = body } }
    {
        let (loads, steps) = body.loads();
        Block {
            reserved,
            body,
            loads,
            steps,
        }
    }

    /// The objects that it reserves, in the order of its list.
    pub fn reserved(&self) -> &[u8]
        ensures value { result.now ≡ self.now.reserved }
    {
        self.reserved.as_slice()
    }

    // How many requests it can make on an object, counted to one past their limit.
    pub(crate) fn load(&self, object: u8) -> u64
        ensures capped { result ≡ min (load_of self.now.body object) (most_requests + 1) }
    {
        let loads = &self.loads;
        let place = usize::from(object);
        if place < MOST_OBJECTS {
            loads[place]
        } else {
            self.body.load(object)
        }
    }

    // How many steps it can take, counted to one past their limit.
    pub(crate) fn weight(&self) -> u64
        ensures capped { result ≡ min (weight_of self.now.body) (most_steps + 1) }
    {
        self.steps
    }

    /// Its statements.
    pub fn body(&self) -> &Body
        ensures value { result.now ≡ self.now.body }
    {
        &self.body
    }
}

/// What a client of a template was started with: the template's formal names with their kinds, for each formal its
/// object, and the template's blocks over formals.
pub struct Start {
    formals: Vec<Declared>,
    binding: Vec<u8>,
    blocks: Vec<Block>,
}

impl Drop for Start {
    fn drop(self) {
        let Start {
            formals: _,
            binding: _,
            blocks: _,
        } = self;
    }
}

impl Model for Start {
    ghost use Rattle.qs_program.specs.Shapes.{start_code};
    ghost use Rattle.qs_program.specs.audit.Program.{StartShape};

    ghost Value = { StartShape };

    ghost coded = { start_code };

    ghost view = { λ s. record { formals = s.formals.items; binding = s.binding.items; blocks = s.blocks.items } };
}

impl Start {
    /// Formal names with their kinds, for each its object, and blocks over formals.
    pub fn new(formals: Vec<Declared>, binding: Vec<u8>, blocks: Vec<Block>) -> Start
        ensures value { result ≡ record { formals = formals.items; binding = binding.items; blocks = blocks.items } }
    {
        Start {
            formals,
            binding,
            blocks,
        }
    }

    fn bound(&self, name: u8) -> u8
        ensures value { result ≡ bound self.now.binding name }
    {
        self.binding.get(usize::from(name)).copied().unwrap_or(name)
    }

    fn block(&self, index: u8) -> &Block
        requires { index < length self.now.blocks }
        ensures value { result.now ≡ slice_index_or self.now.blocks index no_block }
    {
        let place = usize::from(index);
        &self.blocks[place]
    }

    fn formal(&self, name: u8) -> &Declared
        requires { name < length self.now.formals }
        ensures value { result.now ≡ slice_index_or self.now.formals name no_object }
    {
        &self.formals[usize::from(name)]
    }
}

/// A client: its name, the names of its variables by number, its blocks over objects, and what it was started with, if
/// it is of a template.
pub struct Client {
    name: Name,
    variables: Names,
    blocks: Vec<Block>,
    start: Option<Start>,
}

impl Drop for Client {
    fn drop(self) {
        let Client {
            name: _,
            variables: _,
            blocks: _,
            start: _,
        } = self;
    }
}

impl Model for Client {
    ghost use Rattle.qs_program.specs.Shapes.{client_code};
    ghost use Rattle.qs_program.specs.audit.Program.{ClientShape};

    ghost Value = { ClientShape };

    ghost coded = { client_code };

    ghost view = { λ c. record { name = c.name; variables = c.variables; blocks = c.blocks.items; start = c.start } };
}

impl Client {
    /// A client with blocks of its own: a name, its variables' names by number, and its blocks.
    pub fn new(name: Name, variables: Names, blocks: Vec<Block>) -> Client
        ensures value { result ≡ record { name = name; variables = variables; blocks = blocks.items; start = None } }
    {
        Client {
            name,
            variables,
            blocks,
            start: None,
        }
    }

    /// A client of a template: its blocks over objects, and what it was started with.
    pub fn started(name: Name, variables: Names, blocks: Vec<Block>, start: Start) -> Client
        ensures value { result ≡ record { name = name; variables = variables; blocks = blocks.items; start = Some start } }
    {
        let mut client = Client::new(name, variables, blocks);
        client.start = Some(start);
        client
    }

    /// Its blocks, in the order of its text.
    pub fn blocks(&self) -> &[Block]
        ensures value { result.now ≡ self.now.blocks }
    {
        self.blocks.as_slice()
    }

    fn len(&self) -> usize
        ensures value { result ≡ length self.now.blocks }
    {
        self.blocks.len()
    }

    fn block(&self, index: u8) -> &Block
        requires { index < length self.now.blocks }
        ensures value { result.now ≡ slice_index_or self.now.blocks index no_block }
    {
        &self.blocks[usize::from(index)]
    }
}

/// A checked program.
pub struct Program {
    objects: Vec<Declared>,
    clients: Vec<Client>,
    load: u64,
    weight: u64,
}

impl Drop for Program {
    fn drop(self) {
        let Program {
            objects: _,
            clients: _,
            load: _,
            weight: _,
        } = self;
    }
}

impl Model for Program {
    ghost use Rattle.std.specs.Prelude.{◌≡◌};
    ghost use Rattle.qs_program.specs.Shapes.{program_code};
    ghost use Rattle.qs_program.specs.audit.Program.{ProgramShape};

    ghost Value = { ProgramShape };

    ghost coded = { program_code };

    ghost use Rattle.qs_program.specs.audit.Program.{whole_load, whole_weight};
    ghost use Rattle.qs_program.specs.Sound.{IsSound};

    ghost view = { λ p. record { objects = p.objects.items; clients = p.clients.items } };

    ghost invariant = { λ p.
        IsSound (record { objects = p.objects.items; clients = p.clients.items })
        × (p.load ≡ whole_load (record { objects = p.objects.items; clients = p.clients.items }))
        × (p.weight ≡ whole_weight (record { objects = p.objects.items; clients = p.clients.items })) };
}

impl Program {
    /// A program of objects and clients that are sound together, with their load and their weight.
    pub fn new(objects: Vec<Declared>, clients: Vec<Client>, load: u64, weight: u64) -> Program
        requires sound { IsSound (program_of objects.items clients.items) }
        requires load { load ≡ whole_load (program_of objects.items clients.items) }
        requires weight { weight ≡ whole_weight (program_of objects.items clients.items) }
        ensures value { result ≡ program_of objects.items clients.items }
    {
        Program {
            objects,
            clients,
            load,
            weight,
        }
    }

    /// What holds of every checked program; it does nothing.
    pub fn keeps_sound(&self)
        ensures sound { IsSound self.now }
    {
        let _ = &self.objects;
    }

    /// How many objects there are, at most 8.
    pub fn objects(&self) -> usize
        ensures value { result ≡ length self.now.objects }
    {
        self.objects.len()
    }

    /// How many clients there are, at most 8.
    pub fn clients(&self) -> usize
        ensures value { result ≡ length self.now.clients }
    {
        self.clients.len()
    }

    /// How many blocks there are in all, at most 512.
    pub fn blocks(&self) -> usize
        ensures value { result ≡ sum_by (λ c. length c.blocks) self.now.clients }
    {
        let mut count = 0;
        for client in &self.clients {
            count += client.len();
        }
        count
    }

    /// How many blocks a client has, at most 64.
    pub fn blocks_of(&self, client: u8) -> usize
        requires { client < length self.now.clients }
        ensures value { result ≡ blocks_of self.now client }
    {
        self.clients[usize::from(client)].len()
    }

    /// The load: how many requests there can be at most, over all blocks and the objects that they reserve; at most
    /// 100,000.
    pub fn load(&self) -> u64
        ensures value { result ≡ whole_load self.now }
        ensures limit { result ≤ most_requests }
    {
        self.load
    }

    /// How many requests a block can make on an object.
    pub fn load_of(&self, client: u8, block: u8, object: u8) -> u64
        requires client { client < length self.now.clients }
        requires block { block < blocks_of self.now client }
        ensures value { result ≡ load_of (block_at self.now client block).body object }
        ensures limit { result ≤ most_requests }
    {
        let _ = &self.load;
        self.block(client, block).load(object)
    }

    /// The weight: how many steps there can be at most, over all blocks; at most 1,000,000.
    pub fn weight(&self) -> u64
        ensures value { result ≡ whole_weight self.now }
        ensures limit { result ≤ most_steps }
    {
        self.weight
    }

    /// An object's name.
    pub fn object_name(&self, object: u8) -> &Name
        requires { object < length self.now.objects }
        ensures value { result.now ≡ (object_at self.now object).name }
    {
        &self.objects[usize::from(object)].name
    }

    /// An object's kind, as it is declared.
    pub fn kind(&self, object: u8) -> Kind
        requires { object < length self.now.objects }
        ensures value { result ≡ (object_at self.now object).kind }
    {
        self.objects[usize::from(object)].kind
    }

    /// An object as it is declared, with all the memory that it will need. An error says that this memory was refused.
    pub fn declared_object(&self, alloc: Global, object: u8) -> Result<Object, AllocError>
        requires { object < length self.now.objects }
        ensures declared { IfOk result (λ state. starts (object_at self.now object).kind ≡ Some state) }
    {
        self.keeps_sound();
        match Object::new(alloc, self.kind(object)) {
            Ok(state) => Ok(state),
            Err(ObjectFault::Memory) => Err(AllocError),
            Err(ObjectFault::Range) => unreachable!(),
        }
    }

    /// A client's name.
    pub fn client_name(&self, client: u8) -> &Name
        requires { client < length self.now.clients }
        ensures value { result.now ≡ (client_at self.now client).name }
    {
        let client = &self.clients[usize::from(client)];
        &client.name
    }

    /// The names of a client's variables, by number.
    pub fn variables(&self, client: u8) -> &Names
        requires { client < length self.now.clients }
        ensures value { result.now ≡ (client_at self.now client).variables }
    {
        let client = &self.clients[usize::from(client)];
        &client.variables
    }

    /// Whether a client is of a template; then two names of its own text may stand for one object.
    pub fn is_started(&self, client: u8) -> bool
        requires { client < length self.now.clients }
        ensures value { result ≡ is_started (client_at self.now client).start }
    {
        let client = &self.clients[usize::from(client)];
        client.start.is_some()
    }

    /// The object that a name of a client's own text stands for: where the client is of no template, the name is the
    /// number of its object. Takes no memory.
    pub fn bound(&self, client: u8, name: u8) -> u8
        requires { client < length self.now.clients }
        ensures value { result ≡ bound (binding_of self.now client) name }
    {
        let client = &self.clients[usize::from(client)];
        match &client.start {
            None => name,
            Some(start) => start.bound(name),
        }
    }

    /// A client's block in its own text: where the client is of a template, the template's block over formals.
    pub fn own_block(&self, client: u8, block: u8) -> &Block
        requires client { client < length self.now.clients }
        requires block { block < blocks_of self.now client }
        ensures value { result.now ≡ own_block self.now client block }
    {
        let client = &self.clients[usize::from(client)];
        match &client.start {
            None => client.block(block),
            Some(start) => start.block(block),
        }
    }

    /// How many names a client's own text may have: the formals of its template, or the objects.
    pub fn declarations(&self, client: u8) -> usize
        requires { client < length self.now.clients }
        ensures value { result ≡ length (declarations_of self.now client) }
    {
        let client = &self.clients[usize::from(client)];
        match &client.start {
            None => self.objects.len(),
            Some(start) => start.formals.len(),
        }
    }

    /// What a name of a client's own text was declared as: a formal of its template, or an object.
    pub fn declared_as(&self, client: u8, name: u8) -> &Declared
        requires client { client < length self.now.clients }
        requires name { name < length (declarations_of self.now client) }
        ensures value { result.now ≡ declared_as self.now client name }
    {
        let client = &self.clients[usize::from(client)];
        match &client.start {
            None => &self.objects[usize::from(name)],
            Some(start) => start.formal(name),
        }
    }

    /// A client's block, by its number from 0.
    pub fn block(&self, client: u8, block: u8) -> &Block
        requires client { client < length self.now.clients }
        requires block { block < blocks_of self.now client }
        ensures value { result.now ≡ block_at self.now client block }
    {
        self.clients[usize::from(client)].block(block)
    }
}
