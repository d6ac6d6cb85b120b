// Texts in the order of their bytes.

ghost use Rattle.std.specs.Prelude.{◌≡◌, ◌++◌, IfOk, OnOk, map};
ghost use Rattle.qs_text.specs.SortedTexts.{IsInOrder, joined};

use qs_diagnosis::put;
use std::alloc::{AllocError, Global};

// Texts one after another.
fn put_texts(out: &mut Vec<u8>, texts: &[Vec<u8>]) -> Result<(), AllocError>
    ensures ok { OnOk result (out.new.items ≡ out.old.items ++ joined (map (λ text. text.items) texts.now)) }
{
    for text in texts {
        put(out, text.as_slice())?;
    }
    Ok(())
}

/// All texts of a list one after another, in the order of their bytes. An error says that an allocation failed, and
/// nothing is left.
pub fn sorted_text(alloc: Global, texts: Vec<Vec<u8>>) -> Result<Vec<u8>, AllocError>
    ensures sorted { IfOk result (λ bytes. IsInOrder (map (λ text. text.items) texts.items) bytes.items) }
{
    let mut texts = texts;
    texts.sort_unstable();
    let mut out = Vec::new(alloc);
    put_texts(&mut out, texts.as_slice())?;
    Ok(out)
}
