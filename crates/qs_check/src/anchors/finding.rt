//! The first anchor of a script with a fault.

ghost use Rattle.std.specs.Prelude.{◌≡◌, ◌≢◌, ◌≤◌, ◌<◌, ◌+◌, ◌++◌, [], length, drop, IfOk, IfErr, OnOk, Some, None};
ghost use Rattle.qs_check.specs.audit.fault_places.Places.{Scope as Known, scope_or_fault, start, pass_place, leaves};
ghost use Rattle.qs_check.specs.fault_places.Places.{Meets};
ghost use Rattle.qs_check.specs.anchors.Anchors.{anchor_places, item_anchors, text_anchors};
ghost use Rattle.qs_check.specs.anchors.Anchored.{Finds, outside, scope_or_anchored, template_anchored, item_anchored, items_anchored, first_anchored};

use crate::anchors::anchor::Anchor;
use crate::anchors::anchors::put_item;
use crate::fault_places::{CheckFault, Scope, check_number};
use qs_script::tree::{Item, Script, TemplateItem};
use std::alloc::{AllocError, Global};

/// The first fault of a script, and the number of the anchor at which it stands, counted from 0 among the anchors of
/// the script.
#[derive(Clone, Copy, Debug, PartialEq, Eq)]
pub struct Anchored {
    /// How many anchors stand before it.
    pub anchor: usize,
    /// What is wrong there.
    pub fault: CheckFault,
}

impl From<AllocError> for Anchored {
    ghost use Rattle.std.specs.Prelude.{◌≡◌};
    ghost use Rattle.qs_check.specs.declared.fault_places.fault.CheckFault.TheVariants.{Memory};

    ghost from_gives = { λ _ e. e.fault ≡ Memory };

    fn from(_: AllocError) -> Anchored {
        Anchored {
            anchor: 0,
            fault: CheckFault::Memory,
        }
    }
}

// Meets what stands at an anchor.
fn meet(alloc: Global, scope: &mut Scope, anchor: &Anchor) -> Result<(), CheckFault>
    ensures meets { Meets result (scope_or_fault scope.old (anchor_places anchor.now)) scope.new }
{
    match anchor {
        Anchor::Object(name, kind) => scope.object(name, *kind),
        Anchor::Range(low, high, number) => check_number(*low, *high, *number),
        Anchor::Client(name) => scope.client(alloc, name),
        Anchor::Separate => scope.separate(),
        Anchor::Listed(name) => scope.listed(name),
        Anchor::Target(name) => scope.target(name),
        Anchor::Operation(asks, object, word, count) => {
            scope.operation(*asks, object, word, *count)
        }
        Anchor::Variable(name) => scope.variable(name),
        Anchor::Leave(inside) => check_leave(*inside),
        Anchor::Starts(template, count) => scope.starts(template, *count),
        Anchor::Given(template, place, object) => scope.given(template, *place, object),
        Anchor::Value(_) | Anchor::Template(_) => Ok(()),
    }
}

// A `leave` stands inside of a `repeat`.
fn check_leave(inside: bool) -> Result<(), CheckFault>
    ensures meets { (s : Known) → Meets result (pass_place s (leaves inside)) s }
{
    if !inside {
        return Err(CheckFault::LeaveOutside);
    }
    Ok(())
}

// Meets the anchors from one on.
fn walk(alloc: Global, scope: &mut Scope, anchors: &[Anchor], from: usize) -> Result<(), Anchored>
    requires within { from ≤ length anchors.now }
    ensures finds { Finds result (scope_or_anchored scope.old from (drop from anchors.now)) scope.new }
{
    for anchor in from..anchors.len() {
        if let Err(fault) = meet(alloc, scope, &anchors[anchor]) {
            return Err(Anchored { anchor, fault });
        }
    }
    Ok(())
}

// Meets a template's name, and then its formals and blocks by themselves.
fn walk_template(
    alloc: Global,
    scope: &mut Scope,
    anchors: &[Anchor],
    from: usize,
    item: &TemplateItem,
) -> Result<(), Anchored>
    requires within { from < length anchors.now }
    requires anchors { drop (from + 1) anchors.now ≡ text_anchors item.now }
    ensures finds { Finds result (template_anchored scope.old from item.now) scope.new }
{
    if let Err(fault) = scope.template(alloc, &item.name, item.formals.as_slice()) {
        return Err(Anchored {
            anchor: from,
            fault,
        });
    }
    walk_alone(alloc, anchors, from + 1)
}

// Meets the anchors from one on, where nothing is known.
fn walk_alone(alloc: Global, anchors: &[Anchor], from: usize) -> Result<(), Anchored>
    requires within { from ≤ length anchors.now }
    ensures finds { (s : Known) → Finds result (outside s (scope_or_anchored start from (drop from anchors.now))) s }
{
    let mut inner = Scope::new(alloc);
    let walked = walk(alloc, &mut inner, anchors, from);
    drop(inner);
    walked
}

// Adds the anchors of an item, and meets them.
fn walk_item(
    alloc: Global,
    scope: &mut Scope,
    anchors: &mut Vec<Anchor>,
    item: &Item,
) -> Result<(), Anchored>
    ensures finds { Finds result (item_anchored scope.old (length anchors.old.items) item.now) scope.new }
    ensures added { OnOk result (anchors.new.items ≡ anchors.old.items ++ item_anchors item.now) }
{
    let from = anchors.len();
    put_item(anchors, item)?;
    match item {
        Item::Template(template) => {
            walk_template(alloc, scope, anchors.as_slice(), from, template)
        }
        Item::Object(_) | Item::Client(_) | Item::Started(_) => {
            walk(alloc, scope, anchors.as_slice(), from)
        }
    }
}

// Meets all items, one after another.
fn walk_items(
    alloc: Global,
    scope: &mut Scope,
    anchors: &mut Vec<Anchor>,
    items: &[Item],
) -> Result<(), Anchored>
    requires none { anchors.old.items ≡ [] }
    ensures finds { Finds result (items_anchored scope.old 0 items.now) scope.new }
{
    for item in items {
        walk_item(alloc, scope, anchors, item)?;
    }
    Ok(())
}

// Walks a script's items, with nothing known and no anchor before them.
fn walk_script(alloc: Global, items: &[Item]) -> Result<(), Anchored>
    ensures ok { OnOk result (first_anchored items.now ≡ None) }
    ensures found { IfErr result (λ anchored. anchored.fault ≢ CheckFault.Memory → first_anchored items.now ≡ Some anchored) }
{
    let mut scope = Scope::new(alloc);
    let mut anchors = Vec::new(alloc);
    let walked = walk_items(alloc, &mut scope, &mut anchors, items);
    drop(anchors);
    drop(scope);
    walked
}

/// The first fault of a script's text in text order, which is the one that `check` answers, and the anchor at which it
/// stands; nothing where the text has no fault. It fails only where memory runs out.
pub fn first_fault(alloc: Global, script: &Script) -> Result<Option<Anchored>, AllocError>
    ensures exact { IfOk result (λ found. found ≡ first_anchored script.now) }
{
    match walk_script(alloc, script.as_slice()) {
        Ok(()) => Ok(None),
        Err(anchored) if anchored.fault == CheckFault::Memory => Err(AllocError),
        Err(anchored) => Ok(Some(anchored)),
    }
}
