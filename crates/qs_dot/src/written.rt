// What the statement of a node says, as a script writes it.

ghost use Rattle.std.specs.Prelude.{◌≡◌, ◌<◌, ◌++◌, codes, flat_map, length, OnOk};
ghost use Rattle.qs_text.specs.Words.{name_of};
ghost use Rattle.qs_dot.specs.Written.{action_text, atom_text, atoms_text, call_text, choice_text, expression_text, names_of_variables, opened_text, operator_text, relation_text, test_text, written};

use itoa::Buffer;
use qs_graph::{Action, Choice, Node};
use qs_objects::Op;
use qs_program::{Atom, Atoms, Call, Expr, Names, Program, Test};
use qs_script::tree::{Operator, Relation};
use qs_text::{declared_name, put, put_all, put_number, variable_name};
use std::alloc::AllocError;

fn operator_word(operator: Operator) -> &'static [u8]
    ensures word { result.now ≡ operator_text operator }
{
    match operator {
        Operator::Plus => b"+",
        Operator::Minus => b"-",
        Operator::Times => b"*",
    }
}

fn relation_word(relation: Relation) -> &'static [u8]
    ensures word { result.now ≡ relation_text relation }
{
    match relation {
        Relation::Equal => b"==",
        Relation::Unequal => b"!=",
        Relation::Less => b"<",
        Relation::AtMost => b"<=",
        Relation::Greater => b">",
        Relation::AtLeast => b">=",
    }
}

fn put_atom(out: &mut Vec<u8>, variables: &Names, atom: Atom) -> Result<(), AllocError>
    ensures ok { OnOk result (out.new.items ≡ out.old.items ++ atom_text variables.now atom) }
{
    match atom {
        Atom::Variable(number) => put(out, variable_name(variables, usize::from(number))),
        Atom::Number(number) => put_number(out, number),
    }
}

// Further values, each after a comma.
fn put_others(out: &mut Vec<u8>, variables: &Names, atoms: &[Atom]) -> Result<(), AllocError>
    ensures ok { OnOk result (out.new.items
        ≡ out.old.items ++ flat_map (λ atom. codes "," ++ atom_text variables.now atom) atoms.now) }
{
    for atom in atoms {
        put(out, b",")?;
        put_atom(out, variables, *atom)?;
    }
    Ok(())
}

// Values, joined by commas.
fn put_atoms(out: &mut Vec<u8>, variables: &Names, atoms: &[Atom]) -> Result<(), AllocError>
    ensures ok { OnOk result (out.new.items ≡ out.old.items ++ atoms_text variables.now atoms.now) }
{
    match atoms {
        [] => Ok(()),
        [first, others @ ..] => {
            put_atom(out, variables, *first)?;
            put_others(out, variables, others)
        }
    }
}

// Two values with a sign between them.
fn put_pair(
    out: &mut Vec<u8>,
    variables: &Names,
    left: Atom,
    sign: &[u8],
    right: Atom,
) -> Result<(), AllocError>
    ensures ok { OnOk result (out.new.items
        ≡ out.old.items ++ (atom_text variables.now left ++ codes " " ++ sign.now ++ codes " " ++ atom_text variables.now right)) }
{
    put_atom(out, variables, left)?;
    put_all(out, &[b" ", sign, b" "])?;
    put_atom(out, variables, right)
}

fn put_expression(out: &mut Vec<u8>, variables: &Names, expression: &Expr) -> Result<(), AllocError>
    ensures ok { OnOk result (out.new.items ≡ out.old.items ++ expression_text variables.now expression.now) }
{
    match expression {
        Expr::Plain(atom) => put_atom(out, variables, *atom),
        Expr::Binary(left, operator, right) => {
            put_pair(out, variables, *left, operator_word(*operator), *right)
        }
    }
}

fn put_test(out: &mut Vec<u8>, variables: &Names, test: &Test) -> Result<(), AllocError>
    ensures ok { OnOk result (out.new.items ≡ out.old.items ++ test_text variables.now test.now) }
{
    put_pair(
        out,
        variables,
        test.left,
        relation_word(test.relation),
        test.right,
    )
}

fn put_action(out: &mut Vec<u8>, variables: &Names, action: &Action) -> Result<(), AllocError>
    ensures ok { OnOk result (out.new.items ≡ out.old.items ++ action_text variables.now action.now) }
{
    match action {
        Action::Assign(variable, expression) => {
            put_all(
                out,
                &[variable_name(variables, usize::from(*variable)), b" = "],
            )?;
            put_expression(out, variables, expression)
        }
        Action::SetCount(count) => {
            let mut buffer = Buffer::new();
            put_all(out, &[b"repeat ", buffer.format(*count).as_bytes()])
        }
        Action::Nothing => put(out, b"leave"),
    }
}

fn put_choice(out: &mut Vec<u8>, variables: &Names, choice: &Choice) -> Result<(), AllocError>
    ensures ok { OnOk result (out.new.items ≡ out.old.items ++ choice_text variables.now choice.now) }
{
    match choice {
        Choice::If(test) => {
            put(out, b"if ")?;
            put_test(out, variables, test)
        }
        Choice::Repeat => put(out, b"again"),
    }
}

// The name of an object in a client's own text.
fn put_object(
    out: &mut Vec<u8>,
    program: &Program,
    client: u8,
    object: u8,
) -> Result<(), AllocError>
    requires client { client < length program.now.clients }
    ensures ok { OnOk result (out.new.items ≡ out.old.items ++ name_of program.now client object) }
{
    put(out, declared_name(program, client, object))
}

// The word of an operation, between its object and its arguments.
fn put_opened(out: &mut Vec<u8>, op: Op) -> Result<(), AllocError>
    ensures ok { OnOk result (out.new.items ≡ out.old.items ++ opened_text op) }
{
    put(out, op.opening())
}

// The arguments of a client's call.
fn put_arguments(
    out: &mut Vec<u8>,
    program: &Program,
    client: u8,
    args: &Atoms,
) -> Result<(), AllocError>
    requires client { client < length program.now.clients }
    ensures ok { OnOk result (out.new.items ≡ out.old.items ++ atoms_text (names_of_variables program.now client) args.now) }
{
    put_atoms(out, program.variables(client), args.as_slice())
}

// A call of a client, with its own names.
fn put_call(out: &mut Vec<u8>, program: &Program, client: u8, call: &Call) -> Result<(), AllocError>
    requires client { client < length program.now.clients }
    ensures ok { OnOk result (out.new.items ≡ out.old.items ++ call_text program.now client call.now) }
{
    put_object(out, program, client, call.object)?;
    put_opened(out, call.op)?;
    put_arguments(out, program, client, &call.args)?;
    put(out, b")")
}

/// Puts at the end what a node of a client does, as a script writes it.
pub(crate) fn put_written(
    out: &mut Vec<u8>,
    program: &Program,
    client: u8,
    node: &Node,
) -> Result<(), AllocError>
    requires client { client < length program.now.clients }
    ensures ok { OnOk result (out.new.items ≡ out.old.items ++ written program.now client node.now) }
{
    let variables = program.variables(client);
    match node {
        Node::Entry => put(out, b"entry"),
        Node::Local(action) => put_action(out, variables, action),
        Node::Branch(choice) => put_choice(out, variables, choice),
        Node::Sync(handler) => {
            put(out, b"sync ")?;
            put_object(out, program, client, *handler)
        }
        Node::Query(variable, call) => {
            let name = variable_name(variables, usize::from(*variable));
            put_all(out, &[name, b" = "])?;
            put_call(out, program, client, call)
        }
        Node::Call(call) => put_call(out, program, client, call),
        Node::Exit => put(out, b"exit"),
    }
}
