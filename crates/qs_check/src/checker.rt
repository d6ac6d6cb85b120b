//! Checks of whole scripts.

ghost use Rattle.std.specs.List.{AllByRecursion};
ghost use Rattle.std.specs.Prelude.{◌≡◌, ◌≢◌, ◌≤◌, [], ◌∷◌, ◌++◌, length, IfOk, OnOk, MatchResult};
ghost use Rattle.qs_script.specs.tree.Form.{HasForm};
ghost use Rattle.qs_program.specs.audit.Limits.{most_objects, most_requests, most_steps, most_variables};
ghost use Rattle.qs_check.specs.audit.Checked.{excess_of};
ghost use Rattle.qs_check.specs.Checked.{IsCheckOf, text_fault, shape_of};
ghost use Rattle.qs_check.specs.audit.fault_places.Places.{scope_or_fault, start, script_places};
ghost use Rattle.qs_check.specs.fault_places.Places.{Meets, over, without_variables};
ghost use Rattle.qs_check.specs.audit.resolution.Resolve.{program_of_items as resolved_of, clients_of, objects_of, templates_in};
ghost use Rattle.qs_check.specs.resolution.Resolve.{AreFaultless, variable_lists};
ghost use Rattle.qs_program.specs.audit.Program.{whole_load, whole_weight};
ghost use Rattle.qs_program.specs.Sound.{IsSound};
ghost use Rattle.qs_check.specs.WellFormed.{AcceptsWellFormed};

use crate::fault_places::{
    CheckFault, Scope, check_client, check_object, check_started, check_template,
};
use crate::resolution::{resolve_clients, resolve_objects};
use qs_program::{
    Client, Declared, MOST_REQUESTS, MOST_STEPS, Names, Program, all_load, all_weight,
};
use qs_script::tree::{Item, Script};
use std::alloc::{AllocError, Global};
use std::collections::VecDeque;

// The objects and clients of a script whose text has no fault.
#[derive(Drop)]
pub(crate) struct Resolved {
    pub(crate) objects: Vec<Declared>,
    pub(crate) clients: Vec<Client>,
}

/// Checks a script and replaces each name by its number. `Ok` exactly where the script has no fault; else the first
/// fault in text order, then `Load`, then `Weight`. `Memory` where an allocation failed, at any place. An error leaves
/// nothing. So a script is accepted exactly where it is well formed.
pub fn check(alloc: Global, script: Script) -> Result<Program, CheckFault>
    ensures check { IsCheckOf script result }
    ensures well_formed { AcceptsWellFormed script result }
{
    script.keeps_form();
    check_formed(alloc, script.as_slice())
}

// Checks items in the form of a script.
fn check_formed(alloc: Global, items: &[Item]) -> Result<Program, CheckFault>
    requires form { HasForm items.now }
    ensures check { IsCheckOf items.now result }
{
    let resolved = resolve(alloc, items)?;
    sized(resolved)
}

// Checks the text of a script and replaces its names.
pub(crate) fn resolve(alloc: Global, items: &[Item]) -> Result<Resolved, CheckFault>
    requires form { HasForm items.now }
    ensures text { MatchResult result
        (λ r. (text_fault items.now ≡ None) × (shape_of r ≡ resolved_of items.now))
        (λ fault. fault ≢ CheckFault.Memory → text_fault items.now ≡ Some fault) }
{
    let mut scope = Scope::new(alloc);
    let mut variables = VecDeque::new(alloc);
    let resolved = resolve_from(alloc, &mut scope, &mut variables, items);
    drop(variables);
    drop(scope);
    resolved
}

// Resolves items from a scope in which nothing is known. The caller keeps what is large: its drop at each `?` would be
// long to prove.
fn resolve_from(
    alloc: Global,
    scope: &mut Scope,
    variables: &mut VecDeque<Names>,
    items: &[Item],
) -> Result<Resolved, CheckFault>
    requires form { HasForm items.now }
    requires start { scope.old ≡ start }
    requires none { variables.old.items ≡ [] }
    ensures text { MatchResult result
        (λ r. (text_fault items.now ≡ None) × (shape_of r ≡ resolved_of items.now))
        (λ fault. fault ≢ CheckFault.Memory → text_fault items.now ≡ Some fault) }
{
    check_items(alloc, scope, variables, items)?;
    Ok(numbered(alloc, scope, variables, items)?)
}

// Replaces the names of a script whose text was walked.
fn numbered(
    alloc: Global,
    scope: &Scope,
    variables: &mut VecDeque<Names>,
    items: &[Item],
) -> Result<Resolved, AllocError>
    requires form { HasForm items.now }
    requires texts { AreFaultless (templates_in items.now) }
    requires objects { length scope.now.objects ≤ most_objects }
    requires variables { variables.old.items ≡ variable_lists items.now }
    requires limit { AllByRecursion (λ v. length v ≤ most_variables) variables.old.items }
    ensures objects { IfOk result (λ r. r.objects.items ≡ objects_of items.now) }
    ensures clients { IfOk result (λ r. r.clients.items ≡ clients_of (templates_in items.now) scope.now.objects scope.now.kinds items.now) }
{
    let objects = resolve_objects(alloc, items)?;
    match resolve_clients(alloc, scope.objects(), scope.kinds(), variables, items) {
        Ok(clients) => Ok(Resolved { objects, clients }),
        Err(fault) => {
            drop(objects);
            Err(fault)
        }
    }
}

// Tests the load, then the weight.
fn sized(resolved: Resolved) -> Result<Program, CheckFault>
    requires sound { whole_load (shape_of resolved) ≤ most_requests → whole_weight (shape_of resolved) ≤ most_steps → IsSound (shape_of resolved) }
    ensures size { MatchResult result
        (λ p. (excess_of (shape_of resolved) ≡ None) × (p ≡ shape_of resolved))
        (λ fault. excess_of (shape_of resolved) ≡ Some fault) }
{
    let load = all_load(resolved.clients.as_slice());
    if load > MOST_REQUESTS {
        return Err(CheckFault::Load);
    }
    let weight = all_weight(resolved.clients.as_slice());
    if weight > MOST_STEPS {
        return Err(CheckFault::Weight);
    }
    Ok(Program::new(resolved.objects, resolved.clients, load, weight))
}

// Checks the items of a script one after another from a scope, and gathers the variables of each client with blocks of
// its own. The first fault of their text comes as an error, or `Memory` where an allocation failed; what an error
// leaves of the scope is of no use.
fn check_items(
    alloc: Global,
    scope: &mut Scope,
    variables: &mut VecDeque<Names>,
    items: &[Item],
) -> Result<(), CheckFault>
    ensures meets { Meets result (over (scope_or_fault scope.old (script_places items.now))) (without_variables scope.new) }
    ensures variables { OnOk result (variables.new.items ≡ variables.old.items ++ variable_lists items.now) }
{
    for item in items {
        match item {
            Item::Object(object) => check_object(scope, object)?,
            Item::Client(client) => {
                check_client(alloc, scope, client)?;
                add_variables(variables, scope.end_client(alloc))?;
            }
            Item::Template(template) => check_template(alloc, scope, template)?,
            Item::Started(started) => check_started(alloc, scope, started)?,
        }
    }
    Ok(())
}

fn add_variables(all: &mut VecDeque<Names>, variables: Names) -> Result<(), AllocError>
    ensures added { OnOk result (all.new.items ≡ all.old.items ++ variables ∷ []) }
{
    all.push_back(variables)?;
    Ok(())
}
