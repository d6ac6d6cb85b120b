// What a line and an input ask for: settings and the program of a script, or what is due without one.

ghost use Rattle.std.specs.Prelude.{◌≡◌, ◌+◌, ◌≤◌, false, length, map, Err, IfErr, IfOk, None};
ghost use Rattle.qs_line.specs.audit.Line.{asks};
ghost use Rattle.qs_line.specs.Line.{line_in, request_by, request_of};
ghost use Rattle.qs_dot.specs.node_lines.NodeLines.{node_lines};
ghost use Rattle.qs_report.specs.declared.faults.Fault.TheVariants as fault;
ghost use Rattle.qs_script.specs.audit.Reads.{IsScriptText};
ghost use Rattle.qs_script.specs.Reads.{IsReadOf};
ghost use Rattle.qs_script.specs.audit.tree.Limits.{longest_text};
ghost use Rattle.qs_messages.specs.Templates.{template_use};
ghost use Rattle.qs_serve.specs.Prepared.{prepared_by};
ghost use Rattle.qs_serve.specs.audit.Due.{longest};
ghost use Rattle.qs_serve.specs.Due.{AreLinesFor, AreWholeSettings, IsAsked, IsDue, IsFormat, IsFoundBefore, IsKeptBy, IsProgramOf, IsProgramRead, IsTextKept, IsTextRead, IsUnbegun, IsUnreadable, claims_of_script, with_claims};
ghost use Rattle.qs_serve.specs.declared.due.Due.TheVariants.{Refused};

use crate::due::{Due, due_of_fault};
use crate::input::{Counted, InputFault, gather};
use qs_check::{CheckFault, Program, check};
use qs_dot::node_lines::{NodeLines, node_lines};
use qs_line::{Format, GraphFormat, Question, Settings, claims_in, read_line};
use qs_messages::{TemplateUse, template_use};
use qs_report::Fault;
use qs_script::tree::{LONGEST_TEXT, Script};
use qs_script::{ReadFault, read};
use std::alloc::{AllocError, Global};
use std::io::Read;
use std::mem;

/// The program of a script's text, what the script uses of the limits on templates, and the lines of the text for the
/// nodes of its graphs, where these are to be drawn.
#[derive(Drop)]
pub(crate) struct PreparedText {
    pub program: Program,
    pub templates: TemplateUse,
    pub lines: NodeLines,
}

// The lines of a script's text for the nodes of its graphs, where these are to be drawn; else none are looked for.
fn lines_for(
    alloc: Global,
    settings: &Settings,
    text: &[u8],
    script: &Script,
) -> Result<NodeLines, AllocError>
    requires short { length text.now ≤ longest_text }
    ensures lines { IfOk result (λ lines. AreLinesFor (request_of settings.now) lines (node_lines text.now script.now)) }
{
    match settings {
        Settings::Graph {
            format: GraphFormat::Dot,
        } => node_lines(alloc, text, script),
        _ => Ok(NodeLines::none(alloc)),
    }
}

// The program of a script that was checked, with its templates and the lines for its nodes, or the fault by which it
// was refused.
fn prepared_checked(
    lines: NodeLines,
    templates: TemplateUse,
    checked: Result<Program, CheckFault>,
) -> Result<PreparedText, Fault>
    ensures exact { result ≡ prepared_by lines templates checked }
    ensures before { IfErr result IsFoundBefore }
{
    match checked {
        Ok(program) => Ok(PreparedText {
            program,
            templates,
            lines,
        }),
        Err(fault) => Err(Fault::Check(fault)),
    }
}

// The program of a script.
fn prepared_script(
    alloc: Global,
    settings: &Settings,
    text: &[u8],
    script: Script,
) -> Result<PreparedText, Fault>
    requires script { IsScriptText text.now script }
    ensures program { IfOk result (λ it. IsProgramOf (request_of settings.now) text.now it.lines it.program) }
    ensures templates { IfOk result (λ it. it.templates ≡ template_use script) }
    ensures fault { IfErr result (IsUnreadable text.now) }
    ensures before { IfErr result IsFoundBefore }
{
    let Ok(lines) = lines_for(alloc, settings, text, &script) else {
        return Err(Fault::Memory);
    };
    let templates = template_use(script.as_slice());
    let checked = check(alloc, script);
    prepared_checked(lines, templates, checked)
}

// The program of a text that was read, or the fault by which it was refused.
fn prepared_read(
    alloc: Global,
    settings: &Settings,
    text: &[u8],
    script: Result<Script, ReadFault>,
) -> Result<PreparedText, Fault>
    requires read { IsReadOf text.now script }
    ensures program { IfOk result (λ it. IsProgramOf (request_of settings.now) text.now it.lines it.program) }
    ensures fault { IfErr result (IsUnreadable text.now) }
    ensures before { IfErr result IsFoundBefore }
    ensures unread { IfErr script (λ f. result ≡ Err (fault.Read f)) }
{
    match script {
        Ok(script) => prepared_script(alloc, settings, text, script),
        Err(fault) => Err(Fault::Read(fault)),
    }
}

// The program of a script's text, and the lines for the nodes of its graphs, where the settings ask for a drawing of
// these. An error says why the text is no script, why its script is refused, or that an allocation failed.
fn prepared(alloc: Global, settings: &Settings, text: &[u8]) -> Result<PreparedText, Fault>
    ensures program { IfOk result (λ it. IsProgramOf (request_of settings.now) text.now it.lines it.program) }
    ensures fault { IfErr result (IsUnreadable text.now) }
    ensures before { IfErr result IsFoundBefore }
{
    let script = read(alloc, text);
    prepared_read(alloc, settings, text, script)
}

// The claims of a script's text; none where one of them can't be read.
fn claims_of_script(alloc: Global, text: &[u8]) -> Result<Vec<Question>, AllocError>
    ensures claims { IfOk result (λ claims. claims.items ≡ claims_of_script text.now) }
{
    match claims_in(alloc, text)? {
        Some(claims) => Ok(claims),
        None => Ok(Vec::new(alloc)),
    }
}

// The settings with the claims of a script's text, where they ask questions and have none.
fn with_claims(alloc: Global, settings: Settings, text: &[u8]) -> Result<Settings, AllocError>
    ensures whole { IfOk result (λ whole. request_of whole ≡ with_claims (request_of settings) (claims_of_script text.now)) }
{
    match settings {
        Settings::Ask {
            questions,
            format,
            limit,
            threads,
            front,
        } => {
            let questions = if questions.is_empty() {
                claims_of_script(alloc, text)?
            } else {
                questions
            };
            Ok(Settings::Ask {
                questions,
                format,
                limit,
                threads,
                front,
            })
        }
        settings => Ok(settings),
    }
}

/// The settings with the claims of a script's text, where they ask questions and have none; and what `prepared` makes of
/// the text.
pub(crate) fn prepared_whole(
    alloc: Global,
    settings: Settings,
    text: &[u8],
) -> Result<(Settings, PreparedText), Fault>
    ensures whole { IfOk result (λ it. request_of it.0 ≡ with_claims (request_of settings) (claims_of_script text.now)) }
    ensures program { IfOk result (λ it. IsProgramOf (request_of it.0) text.now it.1.lines it.1.program) }
    ensures fault { IfErr result (IsUnreadable text.now) }
    ensures before { IfErr result IsFoundBefore }
{
    let Ok(settings) = with_claims(alloc, settings, text) else {
        return Err(Fault::Memory);
    };
    let it = prepared(alloc, &settings, text)?;
    Ok((settings, it))
}

// One byte more than a script may have shows that a text is longer.
const LONGEST: usize = LONGEST_TEXT + 1;

// The program of the input's script, with the settings that have its claims where it asks questions and has none, or the fault for which
// there is none. The text is kept, where it was read.
fn prepared_input<R: Read>(
    alloc: Global,
    settings: Settings,
    input: &mut Counted<R>,
    kept: &mut Vec<u8>,
) -> Result<(Settings, PreparedText), Fault>
    requires fine { input.old.has_failed ≡ false }
    ensures whole { IfOk result (λ it. AreWholeSettings (request_of settings) input.old.remaining it.0) }
    ensures program { IfOk result (λ it. IsProgramRead (request_of it.0) input.old.remaining input.new.has_failed it.1.lines it.1.program) }
    ensures read { IfOk result (λ it. IsTextRead input.old.remaining kept.new.items) }
    ensures due { IfErr result (λ f. IsDue (asks (request_of settings)) input.old.remaining input.new.has_failed (Refused f)) }
    ensures before { IfErr result IsFoundBefore }
    ensures kept { IfErr result (λ f. IsTextKept input.old.remaining (Refused f) kept.new.items) }
    ensures reads { input.new.reads ≤ input.old.reads + longest }
{
    match gather(alloc, input, LONGEST) {
        Ok(text) => {
            let it = prepared_whole(alloc, settings, text.as_slice());
            drop(mem::replace(kept, text));
            it
        }
        Err(InputFault::Read) => Err(Fault::Input),
        Err(InputFault::Memory) => Err(Fault::Memory),
    }
}

/// What a command line and an input ask for. The line comes first: where it is refused nothing is read. Else the input
/// is read up to its end or 65,537 bytes, by at most 65,537 reads, and a read that fails is the input's fault. The text
/// that was read is kept. The settings have the script's claims, where the line asks questions and has none. An error is what is due without a program: the text of help or of the version, or a fault of
/// the line, of the input or of its script; and the format in which it is due, which is text where the line asks for
/// none or where memory ran out before the line was read.
pub(crate) fn asked_by<'a, R: Read>(
    alloc: Global,
    words: &'a [&'a str],
    input: &mut Counted<R>,
    kept: &mut Vec<u8>,
) -> Result<(Settings, PreparedText), (Due, Format)>
    requires fine { input.old.has_failed ≡ false }
    ensures asked { IfOk result (λ it. IsAsked (line_in (map (λ word. word.now) words.entry.now)) input.old.remaining input.new.has_failed it.0 it.1.lines it.1.program) }
    ensures read { IfOk result (λ it. IsTextRead input.old.remaining kept.new.items) }
    ensures due { IfErr result (λ it. IsDue (line_in (map (λ word. word.now) words.entry.now)) input.old.remaining input.new.has_failed it.0) }
    ensures unbegun { IfErr result (λ it. IsUnbegun (line_in (map (λ word. word.now) words.entry.now)) it.0) }
    ensures format { IfErr result (λ it. IsFormat (line_in (map (λ word. word.now) words.entry.now)) input.old input.new it.0 it.1) }
    ensures kept { IfErr result (λ it. IsKeptBy (line_in (map (λ word. word.now) words.entry.now)) input.old.remaining it.0 kept.new.items) }
    ensures unread { request_by (line_in (map (λ word. word.now) words.entry.now)) ≡ None → input.new ≡ input.old }
    ensures reads { input.new.reads ≤ input.old.reads + longest }
{
    let line = read_line(alloc, words);
    match line {
        Ok(settings) => {
            let format = settings.format();
            match prepared_input(alloc, settings, input, kept) {
                Ok(it) => Ok(it),
                Err(fault) => Err((Due::Refused(fault), format)),
            }
        }
        Err(fault) => Err((due_of_fault(fault), Format::Text)),
    }
}
