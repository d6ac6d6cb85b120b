//! Clients of templates, by number.

ghost use Rattle.std.specs.Prelude.{◌≡◌, ◌≤◌, IfOk, length, option_copied, None, Ok, Some};
ghost use Rattle.std.specs.List.{AllByRecursion};
ghost use Rattle.qs_script.specs.tree.Form.{HasForm, IsFormed};
ghost use Rattle.qs_program.specs.audit.Limits.{most_objects};
ghost use Rattle.qs_check.specs.audit.fault_places.Places.{fault_of_text, scope_or_fault, start as nothing_known, text_places};
ghost use Rattle.qs_check.specs.audit.resolution.Resolve.{declared_formals, started_of, template_called, templates_in};
ghost use Rattle.qs_check.specs.resolution.Resolve.{AreFaultless};

use crate::binding::bind_blocks;
use crate::fault_places::{CheckFault, Scope, check_text, formal_value};
use crate::resolution::resolve::{Numbering, resolve_blocks, resolve_list};
use qs_program::{Block, Client, Declared, Names, Start};
use qs_script::tree::{Formal, Item, Name, StartedItem, TemplateItem};
use std::alloc::{AllocError, Global};

// The first template of a name.
fn find_template(items: &[Item], name: Name) -> Option<&TemplateItem>
    ensures found { option_copied result ≡ template_called (templates_in items.now) name }
{
    for item in items {
        if let Item::Template(template) = item {
            if name == template.name {
                return Some(template);
            }
        }
    }
    None
}

// A client of a template; the templates are those of the script's items.
pub(crate) fn resolve_started(
    alloc: Global,
    objects: &Names,
    items: &[Item],
    item: &StartedItem,
) -> Result<Client, AllocError>
    requires form { HasForm items.now }
    requires texts { AreFaultless (templates_in items.now) }
    requires objects { length objects.now ≤ most_objects }
    ensures client { IfOk result (λ c. c ≡ started_of objects.now (template_called (templates_in items.now) item.now.template) item.now) }
{
    match find_template(items, item.template.copied()) {
        Some(template) => start(alloc, objects, template, item),
        // no script whose text has no fault comes here
        None => Ok(Client::new(item.name.copied(), Names::new(alloc), Vec::new(alloc))),
    }
}

// The template's text, which has no fault, is walked again for the names of its variables.
fn start(
    alloc: Global,
    objects: &Names,
    template: &TemplateItem,
    item: &StartedItem,
) -> Result<Client, AllocError>
    requires formed { AllByRecursion IsFormed template.now.blocks }
    requires text { fault_of_text template.now ≡ None }
    requires objects { length objects.now ≤ most_objects }
    ensures client { IfOk result (λ c. c ≡ started_of objects.now (Some template.now) item.now) }
{
    let mut inner = Scope::new(alloc);
    let client = start_in(alloc, objects, &mut inner, template, item);
    drop(inner);
    client
}

fn start_in(
    alloc: Global,
    objects: &Names,
    inner: &mut Scope,
    template: &TemplateItem,
    item: &StartedItem,
) -> Result<Client, AllocError>
    requires formed { AllByRecursion IsFormed template.now.blocks }
    requires text { fault_of_text template.now ≡ None }
    requires objects { length objects.now ≤ most_objects }
    requires start { inner.old ≡ nothing_known }
    ensures client { IfOk result (λ c. c ≡ started_of objects.now (Some template.now) item.now) }
{
    match check_text(alloc, inner, template) {
        Ok(()) => start_walked(alloc, objects, inner, template, item),
        Err(CheckFault::Memory) => Err(AllocError),
        Err(_) => unreachable!(),
    }
}

// Starts the client, once its template's text was walked.
fn start_walked(
    alloc: Global,
    objects: &Names,
    inner: &mut Scope,
    template: &TemplateItem,
    item: &StartedItem,
) -> Result<Client, AllocError>
    requires formed { AllByRecursion IsFormed template.now.blocks }
    requires objects { length objects.now ≤ most_objects }
    requires walked { scope_or_fault nothing_known (text_places template.now) ≡ Ok inner.old }
    ensures client { IfOk result (λ c. c ≡ started_of objects.now (Some template.now) item.now) }
{
    let numbering = Numbering {
        objects: inner.objects(),
        kinds: inner.kinds(),
        variables: inner.variables(),
    };
    let own = resolve_blocks(alloc, &numbering, template.blocks.as_slice())?;
    let formals = formals_declared(alloc, template.formals.as_slice())?;
    let binding = resolve_list(alloc, objects, item.objects.as_slice())?;
    let blocks = bind_blocks(alloc, binding.as_slice(), own.as_slice())?;
    Ok(Client::started(
        item.name.copied(),
        inner.end_client(alloc),
        blocks,
        Start::new(formals, binding, own),
    ))
}

fn formals_declared(alloc: Global, formals: &[Formal]) -> Result<Vec<Declared>, AllocError>
    ensures formals { IfOk result (λ v. v.items ≡ declared_formals formals.now) }
{
    let mut all = Vec::new(alloc);
    for formal in formals {
        all.push(Declared {
            name: formal.name.copied(),
            kind: formal_value(formal.kind),
        })?;
    }
    Ok(all)
}
