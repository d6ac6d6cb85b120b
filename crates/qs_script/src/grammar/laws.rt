// Laws of the grammar.

ghost use Rattle.std.specs.Prelude.{◌≡◌, ℕ, List};
ghost use Rattle.qs_script.specs.declared.tokens.token.Token.{Token};
ghost use Rattle.qs_script.specs.declared.tree.tree.Item.{Item};
ghost use Rattle.qs_script.specs.audit.grammar.Grammar.{IsScript};
ghost use Rattle.qs_script.specs.grammar.FormPlaces.{IsFormPlace};

/// A list of tokens has at most one tree.
#[tactic(auto, using(crate::proofs::grammar::Readings::one_tree))]
pub fn one_tree()
    ensures { (s u : List Item) (ts : List Token) → IsScript s ts → IsScript u ts → s ≡ u }
{}

/// Tokens that no script has are at fault at a place, and only at one.
pub fn one_place()
    ensures some { (ts : List Token) → ((s : List Item) → IsScript s ts → ⊥) → (place : ℕ) × IsFormPlace ts place }
    ensures one { (ts : List Token) (place other : ℕ) → IsFormPlace ts place → IsFormPlace ts other → place ≡ other }
{}
