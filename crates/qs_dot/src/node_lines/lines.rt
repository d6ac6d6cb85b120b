//! The line of each node of a script's graphs.

ghost use Rattle.std.specs.Prelude.{◌≡◌, ◌≤◌, ◌++◌, IfOk, OnOk, length};
ghost use Rattle.qs_script.specs.audit.tree.Limits.{longest_text};
ghost use Rattle.qs_dot.specs.node_lines.NodeLines.{blocks_nodes, client_in, node_lines, script_nodes, template_nodes};

use crate::node_lines::anchor_lines::anchor_lines;
use crate::node_lines::nodes::nodes_of;
use crate::node_lines::skipping::{skip, skip_block, skip_item};
use qs_script::tree::{Block, Item, Name, Script};
use std::alloc::{AllocError, Global};
use std::marker::Model;

/// The lines of the nodes of a block, in their order; the last node of the graph, Exit, has none. Contracts see a list
/// of numbers.
#[derive(Drop)]
pub struct BlockLines {
    lines: Vec<u32>,
}

impl Model for BlockLines {
    ghost use Rattle.std.specs.Prelude.{List, ℕ};

    ghost Value = { List ℕ };

    ghost view = { λ b. b.lines.items };
}

/// The lines of a client's blocks, in their order. Contracts see a list of lists.
#[derive(Drop)]
pub struct ClientLines {
    blocks: Vec<BlockLines>,
}

impl Model for ClientLines {
    ghost use Rattle.std.specs.Prelude.{List, ℕ};

    ghost Value = { List (List ℕ) };

    ghost view = { λ c. c.blocks.items };
}

/// The lines of a script's clients, in their order: of each client its blocks, and of each block its nodes but Exit.
pub struct NodeLines {
    clients: Vec<ClientLines>,
}

impl Drop for NodeLines {
    fn drop(self) {
        let NodeLines { clients: _ } = self;
    }
}

impl Model for NodeLines {
    ghost use Rattle.std.specs.Prelude.{List, ℕ};

    ghost Value = { List (List (List ℕ)) };

    ghost view = { λ n. n.clients.items };
}

impl BlockLines {
    ghost use Rattle.std.specs.Prelude.{◌≡◌};

    /// The lines in order.
    pub fn as_slice(&self) -> &[u32]
        ensures same { result.now ≡ self.now }
    {
        self.lines.as_slice()
    }
}

impl ClientLines {
    ghost use Rattle.std.specs.Prelude.{◌≡◌, [], slice_index_or};

    // The lines of a block; none, where there is no such block.
    fn block(&self, block: u8) -> &[u32]
        ensures lines { result.now ≡ slice_index_or self.now block [] }
    {
        match self.blocks.get(usize::from(block)) {
            Some(lines) => lines.as_slice(),
            None => &[],
        }
    }
}

impl NodeLines {
    ghost use Rattle.std.specs.Prelude.{◌≡◌, []};
    ghost use Rattle.qs_dot.specs.node_lines.NodeLines.{lines_of_block};

    /// No lines of no clients, for what draws nothing. It takes no memory.
    pub fn none(alloc: Global) -> NodeLines
        ensures lines { result ≡ [] }
    {
        NodeLines {
            clients: Vec::new(alloc),
        }
    }

    /// The lines of the nodes of a client's block; none, where there is no such client or block.
    pub fn block(&self, client: u8, block: u8) -> &[u32]
        ensures lines { result.now ≡ lines_of_block self.now client block }
    {
        match self.clients.get(usize::from(client)) {
            Some(lines) => lines.block(block),
            None => &[],
        }
    }
}

// The lines of some blocks.
fn lines_of_blocks(
    alloc: Global,
    entries: &[u32],
    blocks: &[Block],
) -> Result<ClientLines, AllocError>
    ensures blocks { IfOk result (λ lines. lines ≡ blocks_nodes entries.now blocks.now) }
{
    let mut all = Vec::new(alloc);
    let mut rest = entries;
    for block in blocks {
        all.push(BlockLines {
            lines: nodes_of(alloc, rest, block)?,
        })?;
        rest = skip_block(rest, block);
    }
    Ok(ClientLines { blocks: all })
}

// The lines of the blocks of the first template of a name; none, where there is no such template.
fn lines_of_template(
    alloc: Global,
    entries: &[u32],
    items: &[Item],
    name: Name,
) -> Result<ClientLines, AllocError>
    ensures blocks { IfOk result (λ lines. lines ≡ template_nodes entries.now items.now name) }
{
    let mut rest = entries;
    for item in items {
        if let Item::Template(template) = item {
            if name == template.name {
                let blocks = skip(rest, template.formals.as_slice().len() + 1);
                return lines_of_blocks(alloc, blocks, template.blocks.as_slice());
            }
        }
        rest = skip_item(rest, item);
    }
    Ok(ClientLines {
        blocks: Vec::new(alloc),
    })
}

// Adds the lines of the client that an item is, if it is one.
fn put_client(
    alloc: Global,
    all: &mut Vec<ClientLines>,
    entries: &[u32],
    items: &[Item],
    rest: &[u32],
    item: &Item,
) -> Result<(), AllocError>
    ensures added { OnOk result (all.new.items ≡ all.old.items ++ client_in (template_nodes entries.now items.now) rest.now item.now) }
{
    match item {
        Item::Object(_) | Item::Template(_) => {}
        Item::Client(client) => {
            let blocks = client.blocks.as_slice();
            all.push(lines_of_blocks(alloc, skip(rest, 1), blocks)?)?;
        }
        Item::Started(started) => {
            let name = started.template.copied();
            all.push(lines_of_template(alloc, entries, items, name)?)?;
        }
    }
    Ok(())
}

// The lines of all clients.
fn lines_of_clients(alloc: Global, entries: &[u32], items: &[Item]) -> Result<NodeLines, AllocError>
    ensures clients { IfOk result (λ lines. lines ≡ script_nodes entries.now items.now) }
{
    let mut clients = Vec::new(alloc);
    let mut rest = entries;
    for item in items {
        put_client(alloc, &mut clients, entries, items, rest, item)?;
        rest = skip_item(rest, item);
    }
    Ok(NodeLines { clients })
}

/// The line on which the statement of each node of a script's graphs stands in its text, counted from 1; of a client
/// that is started with a template, in the template's text. The text is cut into tokens once; for each client that is
/// started, the script is gone through up to its template once more. It fails only where memory runs out.
pub fn node_lines(alloc: Global, text: &[u8], script: &Script) -> Result<NodeLines, AllocError>
    requires short { length text.now ≤ longest_text }
    ensures lines { IfOk result (λ lines. lines ≡ node_lines text.now script.now) }
{
    let entries = anchor_lines(alloc, text)?;
    let lines = lines_of_clients(alloc, entries.as_slice(), script.as_slice());
    drop(entries);
    lines
}
