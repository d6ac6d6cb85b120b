//! The anchor of a client's block.

ghost use Rattle.std.specs.Prelude.{◌≡◌, [], IfOk, length};
ghost use Rattle.qs_check.specs.anchors.Blocks.{block_number, own_number};

use crate::anchors::anchor::Anchor;
use crate::anchors::anchors::{put_blocks, put_item};
use qs_script::tree::{ClientItem, Item, Script};
use std::alloc::{AllocError, Global};

/// The number of the anchor of a client's block among the anchors of a script: that of its `separate`, or that of the
/// client's name where the client is started with a template. Nothing, where there is no such client or no such block.
/// It fails only where memory runs out.
pub fn block_anchor(
    alloc: Global,
    script: &Script,
    client: usize,
    block: usize,
) -> Result<Option<usize>, AllocError>
    ensures number { IfOk result (λ number. number ≡ block_number 0 script.now client block) }
{
    let mut anchors = Vec::new(alloc);
    let number = number_in(&mut anchors, script.as_slice(), client, block);
    drop(anchors);
    number
}

// The number of a client's block among the anchors, where none is there yet.
fn number_in(
    anchors: &mut Vec<Anchor>,
    items: &[Item],
    client: usize,
    block: usize,
) -> Result<Option<usize>, AllocError>
    requires none { anchors.old.items ≡ [] }
    ensures number { IfOk result (λ number. number ≡ block_number 0 items.now client block) }
{
    let mut left = client;
    for item in items {
        match item {
            Item::Client(own) => {
                if left == 0 {
                    return own_anchor(anchors, own, block);
                }
                left -= 1;
            }
            Item::Started(_) => {
                if left == 0 {
                    return Ok(Some(anchors.len()));
                }
                left -= 1;
            }
            Item::Object(_) | Item::Template(_) => {}
        }
        put_item(anchors, item)?;
    }
    Ok(None)
}

// The anchor of a block of a client with blocks of its own, whose name stands after the anchors that are there.
fn own_anchor(
    anchors: &mut Vec<Anchor>,
    item: &ClientItem,
    block: usize,
) -> Result<Option<usize>, AllocError>
    ensures number { IfOk result (λ number. number ≡ own_number (length anchors.old.items) item.now.blocks block) }
{
    let blocks = item.blocks.as_slice();
    if block >= blocks.len() {
        return Ok(None);
    }
    put_blocks(anchors, &blocks[..block])?;
    Ok(Some(anchors.len() + 1))
}
