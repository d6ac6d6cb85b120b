// Laws of texts, and what is passed on of those of the grammar.

ghost use Rattle.std.specs.Prelude.{◌≡◌, ◌<◌, ℕ, List, length};
ghost use Rattle.qs_script.specs.declared.tree.tree.Item.{Item};
ghost use Rattle.qs_script.specs.declared.fault.ReadFault.{ReadFault};
ghost use Rattle.qs_script.specs.declared.fault.ReadFault.TheVariants.{Memory};
ghost use Rattle.qs_script.specs.audit.Reads.{IsScriptText};
ghost use Rattle.qs_script.specs.Reads.{IsRefused};
ghost use Rattle.qs_script.specs.tree.Sizes.{statements};

pub use crate::grammar::laws::{one_place, one_tree};

/// A text is at most one script's, and what is a script's text is refused only where memory runs out: so what `read`
/// answers is, but for memory, settled by the text.
pub fn one_answer()
    ensures one_script { (text : List ℕ) (s u : List Item) → IsScriptText text s → IsScriptText text u → s ≡ u }
    ensures only_memory { (text : List ℕ) (s : List Item) (fault : ReadFault) → IsScriptText text s → IsRefused fault text → fault ≡ Memory }
{}

/// A script with statements has fewer of them, inner ones too, than its text has bytes.
#[tactic(auto, using(crate::proofs::Bytes::fewer_statements))]
pub fn fewer_statements()
    ensures { (text : List ℕ) (s : List Item) → IsScriptText text s → 0 < statements s → statements s < length text }
{}
