// The command as `clap` has it.

ghost use Rattle.std.specs.Prelude.{◌≡◌, IfOk, IsOkAnd, codes, false};
ghost use Rattle.clap.specs.Words.{app_of, new_app, rule_of, with_rule};
ghost use Rattle.clap.specs.declared.Command.TheViews.{out-Command as fields_of};
ghost use Rattle.qs_line.specs.audit.Command.{after_app, ask_app, blocks_rule, check_app, chunk_rule, claimed_app, condition_rule, counted_app, defaulted_rule, estimate_app, flag_rule, fronts_app, graph_app, limit_rule, machine_app, named_app, option_rule, outcomes_app, planned_app, play_app, qs_app, rules_app, run_app, runs_app, scheduled_app, search_app, shared_app, shown_app, syncs_app, threads_rule, times_rule, with_word};

use crate::help;
use clap::{Arg, ArgAction, Command, value_parser};
use std::alloc::{AllocError, Global};

const VERSION: &str = "2.0.0";

fn option<'a>(alloc: Global, name: &'a str, value: &'a str, said: &'a str) -> Arg<'a>
    ensures rule { rule_of result ≡ option_rule name.entry.now }
    ensures local { result.global ≡ false }
{
    Arg::new(alloc, name)
        .long(name)
        .value_name(value)
        .help(said)
        .action(ArgAction::Set)
}

fn question_option<'a>(alloc: Global, name: &'a str, value: &'a str, said: &'a str) -> Arg<'a>
    ensures rule { rule_of result ≡ condition_rule name.entry.now }
    ensures local { result.global ≡ false }
{
    option(alloc, name, value, said)
        .action(ArgAction::Append)
        .help_heading(help::QUESTIONS)
}

fn mode_option<'a>(alloc: Global) -> Arg<'a>
    ensures rule { rule_of result ≡ defaulted_rule (codes "mode") (codes "both") }
    ensures local { result.global ≡ false }
{
    option(alloc, "mode", "M", help::MODE)
        .default_value("both")
        .help_heading(help::MACHINE)
}

fn chunk_option<'a>(alloc: Global) -> Arg<'a>
    ensures rule { rule_of result ≡ chunk_rule }
    ensures local { result.global ≡ false }
{
    option(alloc, "chunk", "N", help::CHUNK)
        .default_value("8")
        .value_parser(value_parser!(u8).range(1..=32))
        .help_heading(help::MACHINE)
}

fn limit_option<'a>(alloc: Global) -> Arg<'a>
    ensures rule { rule_of result ≡ limit_rule }
    ensures local { result.global ≡ false }
{
    option(alloc, "limit", "N", help::LIMIT)
        .default_value("1000000")
        .value_parser(value_parser!(u32).range(1..=4294967295))
        .help_heading(help::SEARCH)
}

fn times_option<'a>(alloc: Global) -> Arg<'a>
    ensures rule { rule_of result ≡ times_rule }
    ensures local { result.global ≡ false }
{
    option(alloc, "times", "N", help::TIMES).value_parser(value_parser!(u32).range(1..=100000))
}

// How many blocks a front has, which stands on the line by itself.
fn blocks_argument<'a>(alloc: Global) -> Arg<'a>
    ensures rule { rule_of result ≡ blocks_rule }
    ensures local { result.global ≡ false }
{
    Arg::new(alloc, "blocks")
        .value_name("K")
        .help(help::BLOCKS)
        .action(ArgAction::Set)
        .value_parser(value_parser!(u32).range(1..=512))
        .required(true)
}

fn threads_option<'a>(alloc: Global, said: &'a str) -> Arg<'a>
    ensures rule { rule_of result ≡ threads_rule }
    ensures local { result.global ≡ false }
{
    option(alloc, "threads", "N", said)
        .value_parser(value_parser!(u32).range(1..=64))
        .help_heading(help::SEARCH)
}

// A flag that says what is shown.
fn shown_flag<'a>(alloc: Global, name: &'a str, said: &'a str) -> Arg<'a>
    ensures rule { rule_of result ≡ flag_rule name.entry.now }
    ensures local { result.global ≡ false }
{
    flag(alloc, name, said).help_heading(help::SHOWN)
}

// A setting that says whose blocks or steps come, or came before.
fn list_option<'a>(alloc: Global, name: &'a str, value: &'a str, said: &'a str) -> Arg<'a>
    ensures rule { rule_of result ≡ option_rule name.entry.now }
    ensures local { result.global ≡ false }
{
    option(alloc, name, value, said).help_heading(help::WHO)
}

fn flag<'a>(alloc: Global, name: &'a str, said: &'a str) -> Arg<'a>
    ensures rule { rule_of result ≡ flag_rule name.entry.now }
    ensures local { result.global ≡ false }
{
    Arg::new(alloc, name)
        .long(name)
        .help(said)
        .action(ArgAction::SetTrue)
}

// With the settings that every word has: the format of what is written, and whether warnings are asked for.
fn shared<'a>(
    alloc: Global,
    command: Command<'a>,
    formats: &'a str,
) -> Result<Command<'a>, AllocError>
    requires local { (fields_of command).has_globals ≡ false }
    ensures app { IfOk result (λ whole. app_of whole ≡ shared_app (app_of command.entry)) }
    ensures local { IfOk result (λ whole. (fields_of whole).has_globals ≡ false) }
{
    let format = option(alloc, "format", "F", formats).default_value("text");
    command.arg(format)?.arg(flag(alloc, "warn", help::WARN))
}

// A word, with what the help says of it at its head and at its end.
fn word<'a>(alloc: Global, name: &'a str, about: &'a str, example: &'a str) -> Command<'a>
    ensures app { app_of result ≡ new_app name.entry.now }
    ensures local { (fields_of result).has_globals ≡ false }
{
    Command::new(alloc, name).about(about).after_help(example)
}

// With the settings that say who goes when.
fn scheduled<'a>(alloc: Global, command: Command<'a>) -> Result<Command<'a>, AllocError>
    requires local { (fields_of command).has_globals ≡ false }
    ensures app { IfOk result (λ whole. app_of whole ≡ scheduled_app (app_of command.entry)) }
    ensures local { IfOk result (λ whole. (fields_of whole).has_globals ≡ false) }
{
    command
        .arg(list_option(alloc, "rounds", "N", help::ROUNDS))?
        .arg(list_option(alloc, "pick", "LIST", help::PICK))?
        .arg(list_option(alloc, "order", "LIST", help::ORDER))
}

// With the settings that say what a report shows beside the requests.
fn shown<'a>(alloc: Global, command: Command<'a>) -> Result<Command<'a>, AllocError>
    requires local { (fields_of command).has_globals ≡ false }
    ensures app { IfOk result (λ whole. app_of whole ≡ shown_app (app_of command.entry)) }
    ensures local { IfOk result (λ whole. (fields_of whole).has_globals ≡ false) }
{
    command
        .arg(shown_flag(alloc, "counts", help::COUNTS))?
        .arg(shown_flag(alloc, "refusals", help::REFUSALS))
}

// With the settings of a run that is played: who goes when, and whether the counts, what was refused, the steps and the
// queues are shown.
fn planned<'a>(alloc: Global, command: Command<'a>) -> Result<Command<'a>, AllocError>
    requires local { (fields_of command).has_globals ≡ false }
    ensures app { IfOk result (λ whole. app_of whole ≡ planned_app (app_of command.entry)) }
    ensures local { IfOk result (λ whole. (fields_of whole).has_globals ≡ false) }
{
    let scheduled = scheduled(alloc, command)?;
    shown(alloc, scheduled)?
        .arg(shown_flag(alloc, "steps", help::STEPS))?
        .arg(shown_flag(alloc, "queues", help::QUEUES))
}

fn check_command<'a>(alloc: Global) -> Result<Command<'a>, AllocError>
    ensures app { IfOk result (λ command. app_of command ≡ check_app) }
    ensures local { IfOk result (λ command. (fields_of command).has_globals ≡ false) }
{
    let check = word(alloc, "check", help::CHECK, help::CHECK_EXAMPLE).arg(flag(
        alloc,
        "verbose",
        help::VERBOSE,
    ))?;
    shared(alloc, check, help::FORMAT)
}

fn graph_command<'a>(alloc: Global) -> Result<Command<'a>, AllocError>
    ensures app { IfOk result (λ command. app_of command ≡ graph_app) }
    ensures local { IfOk result (λ command. (fields_of command).has_globals ≡ false) }
{
    let graph = word(alloc, "graph", help::GRAPH, help::GRAPH_EXAMPLE);
    shared(alloc, graph, help::GRAPH_FORMAT)
}

fn rules_command<'a>(alloc: Global) -> Result<Command<'a>, AllocError>
    ensures app { IfOk result (λ command. app_of command ≡ rules_app) }
    ensures local { IfOk result (λ command. (fields_of command).has_globals ≡ false) }
{
    let rules = planned(
        alloc,
        word(alloc, "rules", help::RULES, help::RULES_EXAMPLE),
    )?;
    shared(alloc, rules, help::REPORT_FORMAT)
}

fn machine_command<'a>(
    alloc: Global,
    name: &'a str,
    about: &'a str,
    example: &'a str,
) -> Result<Command<'a>, AllocError>
    ensures app { IfOk result (λ command. app_of command ≡ machine_app name.entry.now) }
    ensures local { IfOk result (λ command. (fields_of command).has_globals ≡ false) }
{
    word(alloc, name, about, example)
        .arg(mode_option(alloc))?
        .arg(chunk_option(alloc))
}

fn play_command<'a>(alloc: Global) -> Result<Command<'a>, AllocError>
    ensures app { IfOk result (λ command. app_of command ≡ play_app) }
    ensures local { IfOk result (λ command. (fields_of command).has_globals ≡ false) }
{
    let play = planned(
        alloc,
        machine_command(alloc, "play", help::PLAY, help::PLAY_EXAMPLE)?,
    )?;
    shared(alloc, play, help::REPORT_FORMAT)
}

fn syncs_command<'a>(alloc: Global) -> Result<Command<'a>, AllocError>
    ensures app { IfOk result (λ command. app_of command ≡ syncs_app) }
    ensures local { IfOk result (λ command. (fields_of command).has_globals ≡ false) }
{
    let syncs = word(alloc, "syncs", help::SYNCS, help::SYNCS_EXAMPLE);
    let ordered = syncs.arg(list_option(alloc, "order", "LIST", help::ORDER))?;
    shared(alloc, ordered, help::FORMAT)
}

fn run_command<'a>(alloc: Global) -> Result<Command<'a>, AllocError>
    ensures app { IfOk result (λ command. app_of command ≡ run_app) }
    ensures local { IfOk result (λ command. (fields_of command).has_globals ≡ false) }
{
    let machine = machine_command(alloc, "run", help::RUN, help::RUN_EXAMPLE)?;
    let run = shown(alloc, machine)?.arg(times_option(alloc))?;
    shared(alloc, run, help::REPORT_FORMAT)
}

// With a setting that takes a condition or a sum.
fn with_question<'a>(
    alloc: Global,
    command: Command<'a>,
    name: &'a str,
    value: &'a str,
    said: &'a str,
) -> Result<Command<'a>, AllocError>
    requires local { (fields_of command).has_globals ≡ false }
    ensures app { IfOk result (λ whole. app_of whole ≡ with_rule (app_of command.entry) (condition_rule name.entry.now)) }
    ensures local { IfOk result (λ whole. (fields_of whole).has_globals ≡ false) }
{
    command.arg(question_option(alloc, name, value, said))
}

// With the settings that take a condition or a sum.
fn claimed<'a>(alloc: Global, command: Command<'a>) -> Result<Command<'a>, AllocError>
    requires local { (fields_of command).has_globals ≡ false }
    ensures app { IfOk result (λ whole. app_of whole ≡ claimed_app (app_of command.entry)) }
    ensures local { IfOk result (λ whole. (fields_of whole).has_globals ≡ false) }
{
    let always = with_question(alloc, command, "always", "COND", help::ALWAYS)?;
    let some = with_question(alloc, always, "some", "COND", help::SOME)?;
    let throughout = with_question(alloc, some, "throughout", "COND", help::THROUGHOUT)?;
    let ever = with_question(alloc, throughout, "ever", "COND", help::EVER)?;
    let never = with_question(alloc, ever, "never", "COND", help::NEVER)?;
    with_question(alloc, never, "values", "SUM", help::VALUES)
}

// With whose blocks were run before.
fn after<'a>(alloc: Global, command: Command<'a>) -> Result<Command<'a>, AllocError>
    requires local { (fields_of command).has_globals ≡ false }
    ensures app { IfOk result (λ whole. app_of whole ≡ after_app (app_of command.entry)) }
    ensures local { IfOk result (λ whole. (fields_of whole).has_globals ≡ false) }
{
    command.arg(list_option(alloc, "after", "LIST", help::AFTER))
}

// With the settings of a search.
fn search<'a>(alloc: Global, command: Command<'a>) -> Result<Command<'a>, AllocError>
    requires local { (fields_of command).has_globals ≡ false }
    ensures app { IfOk result (λ whole. app_of whole ≡ search_app (app_of command.entry)) }
    ensures local { IfOk result (λ whole. (fields_of whole).has_globals ≡ false) }
{
    after(alloc, command.arg(limit_option(alloc))?)
}

fn outcomes_command<'a>(alloc: Global) -> Result<Command<'a>, AllocError>
    ensures app { IfOk result (λ command. app_of command ≡ outcomes_app) }
    ensures local { IfOk result (λ command. (fields_of command).has_globals ≡ false) }
{
    let outcomes = word(alloc, "outcomes", help::OUTCOMES, help::OUTCOMES_EXAMPLE);
    let listed = search(alloc, outcomes)?
        .arg(shown_flag(alloc, "ends", help::ENDS))?
        .arg(shown_flag(alloc, "alike", help::ALIKE))?
        .arg(threads_option(alloc, help::THREADS))?;
    shared(alloc, listed, help::OUTCOMES_FORMAT)
}

fn ask_command<'a>(alloc: Global) -> Result<Command<'a>, AllocError>
    ensures app { IfOk result (λ command. app_of command ≡ ask_app) }
    ensures local { IfOk result (λ command. (fields_of command).has_globals ≡ false) }
{
    let ask = word(alloc, "ask", help::ASK, help::ASK_EXAMPLE);
    let claimed = search(alloc, claimed(alloc, ask)?)?.arg(threads_option(
        alloc,
        help::ASK_THREADS,
    ))?;
    shared(alloc, claimed, help::FORMAT)
}

fn fronts_command<'a>(alloc: Global) -> Result<Command<'a>, AllocError>
    ensures app { IfOk result (λ command. app_of command ≡ fronts_app) }
    ensures local { IfOk result (λ command. (fields_of command).has_globals ≡ false) }
{
    let fronts = word(alloc, "fronts", help::FRONTS, help::FRONTS_EXAMPLE).arg(blocks_argument(
        alloc,
    ))?;
    let led = search(alloc, fronts)?.arg(list_option(alloc, "leads", "LISTS", help::LEADS))?;
    shared(alloc, led, help::FORMAT)
}

fn estimate_command<'a>(alloc: Global) -> Result<Command<'a>, AllocError>
    ensures app { IfOk result (λ command. app_of command ≡ estimate_app) }
    ensures local { IfOk result (λ command. (fields_of command).has_globals ≡ false) }
{
    let estimate = word(alloc, "estimate", help::ESTIMATE, help::ESTIMATE_EXAMPLE);
    shared(alloc, after(alloc, estimate)?, help::FORMAT)
}

// The program, before its words.
fn named_command<'a>(alloc: Global) -> Command<'a>
    ensures app { app_of result ≡ named_app }
    ensures local { (fields_of result).has_globals ≡ false }
{
    word(alloc, "qs", help::ABOUT, help::EXAMPLES)
        .version(VERSION)
        .disable_help_subcommand(true)
}

// With the word of a command of its own, where there was memory for that.
fn with_word<'a>(
    command: Command<'a>,
    word: Result<Command<'a>, AllocError>,
) -> Result<Command<'a>, AllocError>
    requires local { IfOk word (λ word. (fields_of word).has_globals ≡ false) }
    ensures app { IfOk result (λ whole. IsOkAnd word.entry (λ word. app_of whole ≡ with_word (app_of command.entry) (app_of word))) }
{
    match word {
        Ok(word) => command.subcommand(word),
        Err(error) => {
            drop(command);
            Err(error)
        }
    }
}

// The program, with the words of texts and of runs.
fn runs_command<'a>(alloc: Global) -> Result<Command<'a>, AllocError>
    ensures app { IfOk result (λ command. app_of command ≡ runs_app) }
{
    let checked = with_word(named_command(alloc), check_command(alloc))?;
    let drawn = with_word(checked, graph_command(alloc))?;
    let ruled = with_word(drawn, rules_command(alloc))?;
    let played = with_word(ruled, play_command(alloc))?;
    with_word(played, run_command(alloc))
}

// The program, with these and the word of the table of synchronisations.
fn counted_command<'a>(alloc: Global) -> Result<Command<'a>, AllocError>
    ensures app { IfOk result (λ command. app_of command ≡ counted_app) }
{
    let runs = runs_command(alloc)?;
    with_word(runs, syncs_command(alloc))
}

/// The whole command.
pub fn command<'a>(alloc: Global) -> Result<Command<'a>, AllocError>
    ensures app { IfOk result (λ command. app_of command ≡ qs_app) }
{
    let counted = counted_command(alloc)?;
    let listed = with_word(counted, outcomes_command(alloc))?;
    let asked = with_word(listed, ask_command(alloc))?;
    let led = with_word(asked, fronts_command(alloc))?;
    with_word(led, estimate_command(alloc))
}
