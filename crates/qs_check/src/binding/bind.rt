//! Blocks over formals, with each formal replaced by its object.

ghost use Rattle.std.specs.Prelude.{◌≡◌, ◌≤◌, [], ◌∷◌, ◌++◌, if◌then◌else◌, IfOk, OnOk, map};
ghost use Rattle.std.specs.List.{AllByRecursion};
ghost use Rattle.qs_script.specs.audit.tree.Limits.{most_levels};
ghost use Rattle.qs_program.specs.audit.Binding.{bound as object_of, bound_call, bound_statements, bound_block, first_of_each};
ghost use Rattle.qs_program.specs.audit.Sound.{is_in};
ghost use Rattle.qs_program.specs.Sound.{levels_of};
ghost use Rattle.qs_program.specs.Views.{single};

use qs_program::{Block, Body, Call, Stmt};
use std::alloc::{AllocError, Global};

// The object that a name stands for.
fn bound(binding: &[u8], name: u8) -> u8
    ensures value { result ≡ object_of binding.now name }
{
    binding.get(usize::from(name)).copied().unwrap_or(name)
}

/// The blocks, with each formal replaced by the object that stands at its place of the binding.
pub fn bind_blocks(
    alloc: Global,
    binding: &[u8],
    blocks: &[Block],
) -> Result<Vec<Block>, AllocError>
    requires levels { AllByRecursion (λ b. levels_of b.body ≤ most_levels) blocks.now }
    ensures blocks { IfOk result (λ v. v.items ≡ map (bound_block binding.now) blocks.now) }
{
    let mut all = Vec::new(alloc);
    for block in blocks {
        all.push(bind_block(alloc, binding, block)?)?;
    }
    Ok(all)
}

fn bind_block(alloc: Global, binding: &[u8], block: &Block) -> Result<Block, AllocError>
    requires levels { levels_of block.now.body ≤ most_levels }
    ensures block { IfOk result (λ b. b ≡ bound_block binding.now block.now) }
{
    let reserved = bind_list(alloc, binding, block.reserved())?;
    let body = bind_body(alloc, binding, block.body())?;
    Ok(Block::new(reserved, body))
}

// Each object where it comes first.
fn bind_list(alloc: Global, binding: &[u8], names: &[u8]) -> Result<Vec<u8>, AllocError>
    ensures list { IfOk result (λ v. v.items ≡ first_of_each (map (object_of binding.now) names.now)) }
{
    let mut reserved = Vec::new(alloc);
    for name in names {
        add_first(&mut reserved, bound(binding, *name))?;
    }
    Ok(reserved)
}

// Adds an object that is not there yet.
fn add_first(reserved: &mut Vec<u8>, object: u8) -> Result<(), AllocError>
    ensures added { OnOk result (reserved.new.items ≡ (if is_in reserved.old.items object then reserved.old.items else reserved.old.items ++ object ∷ [])) }
{
    if !reserved.contains(&object) {
        reserved.push(object)?;
    }
    Ok(())
}

// The statements with each formal replaced by its object.
#[cycle(bind)]
fn bind_body(alloc: Global, binding: &[u8], body: &Body) -> Result<Body, AllocError>
    requires levels { levels_of body.now ≤ most_levels }
    ensures body { IfOk result (λ code. code ≡ bound_statements binding.now body.now) }
{
    let mut code = Body::new(alloc);
    for stmt in body.as_slice() {
        code.push(bind_stmt(alloc, binding, stmt)?)?;
    }
    Ok(code)
}

#[cycle(bind)]
fn bind_stmt(alloc: Global, binding: &[u8], stmt: &Stmt) -> Result<Stmt, AllocError>
    requires levels { levels_of (single stmt.now) ≤ most_levels }
    ensures stmt { IfOk result (λ code. single code ≡ bound_statements binding.now (single stmt.now)) }
{
    match stmt {
        Stmt::Command(call) => Ok(Stmt::Command(bind_call(alloc, binding, call)?)),
        Stmt::Query(variable, call) => {
            Ok(Stmt::Query(*variable, bind_call(alloc, binding, call)?))
        }
        Stmt::Assign(variable, expr) => Ok(Stmt::Assign(*variable, *expr)),
        Stmt::If {
            test,
            has_else,
            first,
            other,
        } => Ok(Stmt::If {
            test: *test,
            has_else: *has_else,
            first: bind_body(alloc, binding, first)?,
            other: bind_body(alloc, binding, other)?,
        }),
        Stmt::Repeat(count, body) => Ok(Stmt::Repeat(*count, bind_body(alloc, binding, body)?)),
        Stmt::Leave => Ok(Stmt::Leave),
    }
}

fn bind_call(alloc: Global, binding: &[u8], call: &Call) -> Result<Call, AllocError>
    ensures call { IfOk result (λ c. c ≡ bound_call binding.now call.now) }
{
    let args = call.args.copied(alloc)?;
    Ok(Call {
        object: bound(binding, call.object),
        op: call.op,
        args,
    })
}
