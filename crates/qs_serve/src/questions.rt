// Answers to questions: one behind another, or side by side.

ghost use Rattle.std.specs.Prelude.{◌≡◌, ◌≢◌, ◌+◌, ◌≤◌, ◌⊎◌, ◌&&◌, ◌++◌, [], false, true, length, take, drop, Ok, IfErr, IfOk, IfSome};
ghost use Rattle.std.specs.List.{AllByRecursion};
ghost use denote.Param.Send.{IsSync};
ghost use Rattle.qs_line.specs.audit.Line.{ask};
ghost use Rattle.qs_line.specs.audit.Named.{clients_of as clients_in};
ghost use Rattle.qs_line.specs.declared.question.Question.TheVariants as Question;
ghost use Rattle.qs_outcomes.specs.Outcomes.{HasPlaces};
ghost use Rattle.qs_report.specs.declared.faults.Fault.TheVariants as fault;
ghost use Rattle.qs_serve.specs.Due.{AreAnswersDue, HasParts, IsAnswerAfterDue, IsAnswered, IsDueOfProgram, IsJoinedDue, IsOfProgram, IsOutOfMemory, IsRefusedBy};
ghost use Rattle.qs_standings.specs.Lists.{HasOne};

use crate::due::{Due, due_of_list};
use crate::fronts::add;
use crate::values::due_of_values_after;
use qs_check::Program;
use qs_conditions::Claim;
use qs_json::answer_json;
use qs_line::{Format, Part, Question, clients_of};
use qs_outcomes::{Answer, Unwatched, Watcher};
use qs_questions::{answer, first_unknown, first_unknown_in_sum};
use qs_report::{Fault, answer_text, is_yes};
use std::alloc::Global;
use std::thread;
use std::thread::Threads;

/// What is asked of a program: questions, in which format their answers are written, over how many configurations each
/// is answered at most, and how many of them side by side.
#[derive(Clone, Copy)]
pub(crate) struct Asked<'a> {
    pub questions: &'a [Question],
    pub format: Format,
    pub limit: u32,
    pub threads: u32,
}

// The answer to a claim, in a format.
fn due_of_answer(
    alloc: Global,
    program: &Program,
    claim: &Claim,
    format: Format,
    answer: Answer,
) -> Due
    requires places { IfSome answer.witness (HasPlaces program.now) }
    ensures due { IsAnswered format program.now claim.now answer result }
{
    let text = match format {
        Format::Text => answer_text(alloc, program, claim.line, claim.quantifier, &answer),
        Format::Json => answer_json(alloc, program, claim.line, claim.quantifier, &answer),
    };
    let holds = is_yes(claim.quantifier, &answer);
    drop(answer);
    match text {
        Ok(bytes) if holds => Due::Text(bytes),
        Ok(bytes) => Due::No(bytes),
        Err(_) => Due::Refused(Fault::Memory),
    }
}

// The answer to a claim after the blocks of some clients, found over so many configurations at most; a watcher is told
// of each.
fn due_of_claim_after<P: Watcher>(
    alloc: Global,
    program: &Program,
    claim: &Claim,
    format: Format,
    limit: u32,
    clients: &[u8],
    watcher: &mut P,
) -> Due
    ensures not_input { ¬ IsRefusedBy fault.Input result }
    ensures due { IsAnswerAfterDue format program.now (Question.Claim claim.now) limit clients.now result }
{
    match answer(alloc, program, claim, clients, limit, watcher) {
        Ok(answer) => due_of_answer(alloc, program, claim, format, answer),
        Err(fault) => Due::Refused(Fault::Outcomes(fault)),
    }
}

// What is due of a question after the blocks of some clients, found over so many configurations at most; a watcher is
// told of each.
fn due_of_question_after<P: Watcher>(
    alloc: Global,
    program: &Program,
    question: &Question,
    format: Format,
    limit: u32,
    clients: &[u8],
    watcher: &mut P,
) -> Due
    ensures not_input { ¬ IsRefusedBy fault.Input result }
    ensures due { IsAnswerAfterDue format program.now question.now limit clients.now result }
{
    match question {
        Question::Claim(claim) => {
            due_of_claim_after(alloc, program, claim, format, limit, clients, watcher)
        }
        Question::Values(sum) => {
            due_of_values_after(alloc, program, sum, format, limit, clients, watcher)
        }
    }
}

// An answer in parts: its text, and whether it is yes.
fn parts_of(due: Due) -> Result<(Vec<u8>, bool), Fault>
    ensures parts { HasParts due result }
{
    match due {
        Due::Text(text) => Ok((text, true)),
        Due::No(text) => Ok((text, false)),
        Due::Refused(fault) => Err(fault),
    }
}

// Whether both are so.
fn both(one: bool, other: bool) -> bool
    ensures both { result ≡ (one && other) }
{
    one && other
}

// Whether a question asks for what the program does not have.
fn is_unknown(program: &Program, question: &Question) -> bool
    ensures known { result ≡ false → IsOfProgram program.now question.now }
    ensures unknown { result ≡ true → ¬ IsOfProgram program.now question.now }
{
    match question {
        Question::Claim(claim) => first_unknown(&claim.condition, program).is_some(),
        Question::Values(sum) => first_unknown_in_sum(sum, program).is_some(),
    }
}

// Whether some question asks for what the program does not have.
fn has_unknown(program: &Program, questions: &[Question]) -> bool
    ensures known { result ≡ false → AllByRecursion (IsOfProgram program.now) questions.now }
    ensures unknown { result ≡ true → HasOne (λ question. ¬ IsOfProgram program.now question) questions.now }
{
    for question in questions {
        if is_unknown(program, question) {
            return true;
        }
    }
    false
}

// The answers to questions after the blocks of some clients, one behind another; a watcher is told of each
// configuration.
fn due_of_questions_after<P: Watcher>(
    alloc: Global,
    program: &Program,
    asked: Asked<'_>,
    clients: &[u8],
    watcher: &mut P,
) -> Due
    ensures not_input { ¬ IsRefusedBy fault.Input result }
    ensures due { AreAnswersDue asked.entry.format program.now asked.entry.questions.now asked.entry.limit clients.now result }
{
    let Asked {
        questions,
        format,
        limit,
        ..
    } = asked;
    let mut text = Vec::new(alloc);
    let mut hold = true;
    for question in questions {
        let due = due_of_question_after(alloc, program, question, format, limit, clients, watcher);
        match parts_of(due) {
            Ok((own, holds)) => {
                hold = both(hold, holds);
                let Ok(()) = add(&mut text, own) else {
                    return Due::Refused(Fault::Memory);
                };
            }
            Err(fault) => return Due::Refused(fault),
        }
    }
    if hold { Due::Text(text) } else { Due::No(text) }
}

// Two answers, one behind the other: yes where both are.
#[tactic(auto, using(crate::proofs::ClaimsDues::first_fault, crate::proofs::ClaimsDues::second_fault, crate::proofs::ClaimsDues::parts_joined))]
fn joined(one: Due, other: Due) -> Due
    ensures not_input { ¬ IsRefusedBy fault.Input one → ¬ IsRefusedBy fault.Input other → ¬ IsRefusedBy fault.Input result }
    ensures joined { IsJoinedDue one other result }
{
    let (mut text, holds) = match parts_of(one) {
        Ok(parts) => parts,
        Err(fault) => return Due::Refused(fault),
    };
    let (rest, others) = match parts_of(other) {
        Ok(parts) => parts,
        Err(fault) => return Due::Refused(fault),
    };
    let Ok(()) = add(&mut text, rest) else {
        return Due::Refused(Fault::Memory);
    };
    if both(holds, others) {
        Due::Text(text)
    } else {
        Due::No(text)
    }
}

// The answers to questions after the blocks of some clients, by so many threads at most: one half of the questions by a
// new thread with half of the threads, and the other half by this one with the others.
#[cycle(side)]
fn due_side_by_side<T: Threads + Sync>(
    rt: &T,
    alloc: Global,
    program: &Program,
    asked: Asked<'_>,
    clients: &[u8],
) -> Due
    ensures not_input { ¬ IsRefusedBy fault.Input result }
    ensures due { AreAnswersDue asked.entry.format program.now asked.entry.questions.now asked.entry.limit clients.now result }
{
    let Asked {
        questions,
        format,
        limit,
        threads,
    } = asked;
    if threads < 2 || questions.len() < 2 {
        return due_of_questions_after(alloc, program, asked, clients, &mut Unwatched);
    }
    let (front, back) = questions.split_at(questions.len() / 2);
    let first = Asked {
        questions: front,
        format,
        limit,
        threads: threads / 2,
    };
    let second = Asked {
        questions: back,
        format,
        limit,
        threads: threads - threads / 2,
    };
    let one = move || -> Due
        requires { IsSync T.row }
        ensures { (¬ IsRefusedBy fault.Input result)
            × AreAnswersDue first.entry.format program.entry.now first.entry.questions.now first.entry.limit clients.entry.now result }
    { due_side_by_side(rt, alloc, program, first, clients) };
    let other = move || -> Due
        requires { IsSync T.row }
        ensures { (¬ IsRefusedBy fault.Input result)
            × AreAnswersDue second.entry.format program.entry.now second.entry.questions.now second.entry.limit clients.entry.now result }
    { due_side_by_side(rt, alloc, program, second, clients) };
    let (one, other) = thread::join(rt, one, other);
    joined(one, other)
}

// The clients after whose blocks something is asked; or what is due where nothing is, where a question asks for what the
// program does not have, or where the list does not name clients.
#[tactic(auto, using(crate::proofs::ClaimsDues::not_empty))]
fn asked_after(
    alloc: Global,
    program: &Program,
    asked: Asked<'_>,
    front: &[Part],
) -> Result<Vec<u8>, Due>
    ensures some { IfOk result (λ clients. asked.entry.questions.now ≢ []) }
    ensures known { IfOk result (λ clients. AllByRecursion (IsOfProgram program.now) asked.entry.questions.now) }
    ensures clients { IfOk result (λ clients. clients_in program.now front.now ≡ Ok clients.items) }
    ensures not_input { IfErr result (λ due. ¬ IsRefusedBy fault.Input due) }
    ensures due { IfErr result (λ due. IsOutOfMemory due
        ⊎ IsDueOfProgram (ask asked.entry.questions.now asked.entry.format asked.entry.limit asked.entry.threads front.now) [] program.now due) }
{
    if asked.questions.is_empty() {
        return Err(Due::Refused(Fault::CommandLine));
    }
    if has_unknown(program, asked.questions) {
        return Err(Due::Refused(Fault::CommandLine));
    }
    match clients_of(alloc, program, front) {
        Ok(clients) => Ok(clients),
        Err(fault) => Err(due_of_list(fault)),
    }
}

/// The answers to questions after the blocks of the clients that a list names, one behind another. A question that asks
/// for what the program does not have is refused, and so is to ask nothing.
pub(crate) fn due_of_questions<P: Watcher>(
    alloc: Global,
    program: &Program,
    asked: Asked<'_>,
    front: &[Part],
    watcher: &mut P,
) -> Due
    ensures not_input { ¬ IsRefusedBy fault.Input result }
    ensures due { IsOutOfMemory result ⊎ IsDueOfProgram (ask asked.entry.questions.now asked.entry.format asked.entry.limit asked.entry.threads front.now) [] program.now result }
{
    match asked_after(alloc, program, asked, front) {
        Ok(clients) => due_of_questions_after(alloc, program, asked, clients.as_slice(), watcher),
        Err(due) => due,
    }
}

/// The same, by so many threads: as many questions are answered side by side, and nobody watches. By one thread they are
/// answered one behind another.
pub(crate) fn due_of_questions_by_threads<T: Threads + Sync, P: Watcher>(
    rt: &T,
    alloc: Global,
    program: &Program,
    asked: Asked<'_>,
    front: &[Part],
    watcher: &mut P,
) -> Due
    ensures not_input { ¬ IsRefusedBy fault.Input result }
    ensures due { IsOutOfMemory result ⊎ IsDueOfProgram (ask asked.entry.questions.now asked.entry.format asked.entry.limit asked.entry.threads front.now) [] program.now result }
{
    if asked.threads < 2 {
        return due_of_questions(alloc, program, asked, front, watcher);
    }
    match asked_after(alloc, program, asked, front) {
        Ok(clients) => due_side_by_side(rt, alloc, program, asked, clients.as_slice()),
        Err(due) => due,
    }
}
