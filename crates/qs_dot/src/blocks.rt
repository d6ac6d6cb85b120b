// The drawing of a program: each block in a frame of its own.

ghost use Rattle.std.specs.Prelude.{◌≡◌, ◌++◌, codes, decimal, IfOk, OnOk};
ghost use Rattle.qs_dot.specs.node_lines.NodeLines.{lines_of_block};
ghost use Rattle.qs_dot.specs.DotText.{IsDotText, block_name, frame_head, frame_text, graph_nodes_drawn};

use crate::node_lines::NodeLines;
use crate::nodes::put_all_nodes;
use itoa::Buffer;
use qs_objects::Ticket;
use qs_program::Program;
use qs_text::{Block, BlockWriter, client_name, put, put_all, put_blocks};
use std::alloc::{AllocError, Global};

// A block by numbers.
fn put_block_name(out: &mut Vec<u8>, ticket: Ticket) -> Result<(), AllocError>
    ensures ok { OnOk result (out.new.items ≡ out.old.items ++ block_name ticket.client ticket.index) }
{
    let mut client = Buffer::new();
    let mut block = Buffer::new();
    put_all(
        out,
        &[
            client.format(ticket.client).as_bytes(),
            b"_",
            block.format(ticket.index).as_bytes(),
        ],
    )
}

// The beginning of a block's frame, up to its label.
fn put_frame_head(out: &mut Vec<u8>, ticket: Ticket) -> Result<(), AllocError>
    ensures ok { OnOk result (out.new.items ≡ out.old.items ++ frame_head ticket.client ticket.index) }
{
    put(out, b"  subgraph cluster_")?;
    put_block_name(out, ticket)?;
    put(out, b" {\n    label=\"")
}

// The end of a frame's label.
fn put_number_of(out: &mut Vec<u8>, ticket: Ticket) -> Result<(), AllocError>
    ensures ok { OnOk result (out.new.items ≡ out.old.items ++ (codes " " ++ decimal ticket.index ++ codes "\";\n")) }
{
    let mut buffer = Buffer::new();
    put_all(
        out,
        &[b" ", buffer.format(ticket.index).as_bytes(), b"\";\n"],
    )
}

// A block in its frame, whose nodes have these lines.
#[derive(Drop)]
struct BlockDrawn<'a> {
    lines: &'a NodeLines,
}

impl BlockWriter for BlockDrawn<'_> {
    ghost head = { λ writer. frame_text };

    ghost nodes = { λ writer p client block. graph_nodes_drawn p client block (lines_of_block writer.lines.now client block) };

    fn put_head(
        &self,
        out: &mut Vec<u8>,
        program: &Program,
        ticket: Ticket,
    ) -> Result<(), AllocError> {
        put_frame_head(out, ticket)?;
        put(out, client_name(program, ticket.client))?;
        put_number_of(out, ticket)
    }

    fn put_nodes(&self, alloc: Global, out: &mut Vec<u8>, block: &Block) -> Result<(), AllocError> {
        let lines = self.lines.block(block.ticket.client, block.ticket.index);
        put_all_nodes(alloc, out, block, lines)?;
        put(out, b"  }\n")
    }
}

/// A program's control-flow graphs as one drawing in the DOT language, which graphviz draws: each block in a frame of
/// its own, its nodes outlined by kind and named by what they do, by the line of the script on which that stands, and
/// by what is held there, a synchronisation that static coalescing removes with a dashed outline, and its edges. A node
/// has the line that stands for it among those of its block, and none where there are fewer. An error says that an
/// allocation failed, and nothing is left.
pub fn dot_text(alloc: Global, program: &Program, lines: &NodeLines) -> Result<Vec<u8>, AllocError>
    ensures text { IfOk result (λ bytes. IsDotText program.now lines.now bytes.items) }
{
    let mut out = Vec::new(alloc);
    put(&mut out, b"digraph graphs {\n")?;
    put_blocks(alloc, &mut out, program, &BlockDrawn { lines })?;
    put(&mut out, b"}\n")?;
    Ok(out)
}
