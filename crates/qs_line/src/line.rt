// The settings of a line.

ghost use Rattle.std.specs.Prelude.{◌≡◌, [], ◌∷◌, Err, IfOk, IfErr, map, option_and_then, option_map, unwrap_or};
ghost use Rattle.clap.specs.Words.{all_of, found_of, kind_of, rows_of, subcommand_of, subcommand_rows_of};
ghost use Rattle.clap.specs.Faults.{fault_of};
ghost use Rattle.std.specs.List.{list_any};
ghost use Rattle.qs_line.specs.declared.line.Asking.TheVariants as Asking;
ghost use Rattle.qs_line.specs.audit.Apart.{both_stand_at, flag_at, has_apart, stands_at};
ghost use Rattle.qs_line.specs.audit.Command.{qs_app};
ghost use Rattle.qs_line.specs.audit.Line.{asks_language, help, chunk_at, has_times, mode_at, number_in, play_at, report_format_at, rules_at, single_run_at, style_at, styled_plan, can_tell};
ghost use Rattle.qs_line.specs.Line.{IsAnswer, IsFault, IsFaultAmong, alike_at, ask_at, blocks_at, check_at, estimate_at, fronts_at, has_threads, list_at, format_at, front_at, graph_at, graph_format_at, is_verbose_in, is_verbose_met, leads_at, limit_at, line_in, outcomes_at, outcomes_format_at, plan_of, question_in, questions_at, questions_by, request_at, request_met, request_of, request_of_word, run_at, setting_name, syncs_at, tally_at, threads_at, threads_beside, times_at, warns_in, warns_met};

use crate::apart::{APART, Setting};
use crate::command::command;
use crate::found::{text_at, texts_at};
use crate::language::language_page;
use crate::limits::{MOST_FRONT, MOST_THREADS, MOST_TIMES};
use crate::parts::Part;
use crate::plan::{Plan, given_plan};
use crate::question::Question;
use crate::reading::{clients_in, orders_in};
use clap::error::ErrorKind;
use clap::{ArgMatches, Error};
use qs_chunk::ChunkSize;
use qs_conditions::{Claim, ConditionFault, Quantifier, read_condition, read_sum};
use qs_syncset::Mode;
use std::alloc::{AllocError, Global};

/// How a result is written.
#[derive(Clone, Copy, Debug)]
pub enum Format {
    /// As lines of words.
    Text,
    /// As JSON, for programs.
    Json,
}

/// How graphs are written.
#[derive(Clone, Copy, Debug)]
pub enum GraphFormat {
    /// As lines of words.
    Text,
    /// As JSON, for programs.
    Json,
    /// As a drawing in the DOT language, which graphviz draws.
    Dot,
}

impl GraphFormat {
    ghost use Rattle.qs_line.specs.Line.{format_beside};

    // In which format a refusal is written where this one is asked for: beside a drawing it is text.
    fn refusals(self) -> Format
        ensures format { result ≡ format_beside self }
    {
        match self {
            GraphFormat::Text | GraphFormat::Dot => Format::Text,
            GraphFormat::Json => Format::Json,
        }
    }
}

/// What is written of outcomes, and how.
#[derive(Clone, Copy, Debug)]
pub enum OutcomesFormat {
    /// Each outcome with its number and an order that comes to it.
    List(Format),
    /// The ends alone, in the order of their texts.
    Ends(Format),
    /// The configurations that lead to them, as a drawing in the DOT language, which graphviz draws.
    Dot,
}

impl OutcomesFormat {
    ghost use Rattle.qs_line.specs.Line.{format_beside_outcomes};

    // In which format a refusal is written where this one is asked for: beside a drawing it is text.
    fn refusals(self) -> Format
        ensures format { result ≡ format_beside_outcomes self }
    {
        match self {
            OutcomesFormat::List(format) | OutcomesFormat::Ends(format) => format,
            OutcomesFormat::Dot => Format::Text,
        }
    }
}

/// How the report of a run is written.
#[derive(Clone, Copy, Debug)]
pub enum ReportFormat {
    /// As lines of words.
    Text,
    /// As JSON, for programs.
    Json,
    /// As a picture in the SVG language, which browsers show.
    Svg,
}

/// What a report shows, and how it is written.
#[derive(Clone, Copy, Debug)]
pub struct ReportStyle {
    /// Whether each block's synchronisations are shown.
    pub counts: bool,
    /// Whether commands that were refused are marked, and queries of what is not there; JSON and pictures always mark
    /// them.
    pub refusals: bool,
    /// As text, as JSON or as a picture.
    pub format: ReportFormat,
    /// Whether a line for each step stands before it: only where the run is played and the report is no picture.
    pub steps: bool,
    /// Whether, after the report, stands what lies where and who waits, in text of a run that has not finished: only
    /// where steps may be told.
    pub queues: bool,
}

/// What an accepted line asks for.
#[derive(Drop)]
pub enum Settings {
    /// Check the script, and count.
    Check {
        /// How the counts are written.
        format: Format,
    },
    /// Check it, and show the graphs of its blocks.
    Graph {
        /// How they are written.
        format: GraphFormat,
    },
    /// Check it, and play it by the plain rules.
    Rules {
        /// How the report is written.
        style: ReportStyle,
        /// Who goes when.
        plan: Plan,
    },
    /// Check it, and play it in the optimised machine.
    Play {
        /// How the report is written.
        style: ReportStyle,
        /// Which synchronisations are left out.
        mode: Mode,
        /// How many commands a chunk takes.
        chunk: ChunkSize,
        /// Who goes when.
        plan: Plan,
    },
    /// Check it, and count the synchronisations that each mode sends for the blocks of an order.
    Syncs {
        /// How the counts are written.
        format: Format,
        /// In which order the blocks run: that of a schedule, where the line has no order.
        plan: Plan,
    },
    /// Check it, and run it on threads.
    Run {
        /// How the report is written.
        style: ReportStyle,
        /// Which synchronisations are left out.
        mode: Mode,
        /// How many commands a chunk takes.
        chunk: ChunkSize,
    },
    /// Check it, run it on threads many times, and count how often each end came.
    Tally {
        /// How the counts are written.
        format: Format,
        /// Which synchronisations are left out.
        mode: Mode,
        /// How many commands a chunk takes.
        chunk: ChunkSize,
        /// How many times it is run.
        times: u32,
    },
    /// Check it, and answer whether conditions hold of all ends, of some, or throughout.
    Ask {
        /// The conditions, and of what they are to hold; none where those of the script are asked.
        questions: Vec<Question>,
        /// How the answers are written.
        format: Format,
        /// How many configurations are looked at for each, at most.
        limit: u32,
        /// How many of them are answered side by side, at most.
        threads: u32,
        /// Whose blocks were run before.
        front: Vec<Part>,
    },
    /// Check it, and say how many configurations there can be.
    Estimate {
        /// How the numbers are written.
        format: Format,
        /// Whose blocks were run before.
        front: Vec<Part>,
    },
    /// Check it, and list the configurations after so many blocks more: fronts from which parts of a search begin.
    Fronts {
        /// How they are written.
        format: Format,
        /// How many blocks.
        blocks: u32,
        /// How many configurations are looked at after each order, at most.
        limit: u32,
        /// Whose blocks were run before, in one order or in several.
        orders: Vec<Vec<Part>>,
    },
    /// Check it, and list one of all outcomes that differ by alike clients in each other's places.
    Alike {
        /// How they are written.
        format: Format,
        /// How many configurations are looked at, at most.
        limit: u32,
    },
    /// Check it, and list all outcomes.
    Outcomes {
        /// What is written of them, and how.
        format: OutcomesFormat,
        /// How many configurations are looked at, at most.
        limit: u32,
        /// How many threads search for them.
        threads: u32,
        /// Whose blocks were run before.
        front: Vec<Part>,
    },
}

impl ReportStyle {
    ghost use Rattle.qs_line.specs.Line.{format_beside_report};

    // In which format a refusal is written where this report is asked for: beside a picture it is text.
    fn refusals(self) -> Format
        ensures format { result ≡ format_beside_report self.format }
    {
        match self.format {
            ReportFormat::Text | ReportFormat::Svg => Format::Text,
            ReportFormat::Json => Format::Json,
        }
    }
}

impl Settings {
    ghost use Rattle.qs_line.specs.Line.{format_of_request, request_of};

    /// In which format the result is asked for, and its refusal: beside a drawing or a picture that is text.
    pub fn format(&self) -> Format
        ensures format { result ≡ format_of_request (request_of self.now) }
    {
        match self {
            Settings::Check { format } => *format,
            Settings::Graph { format } => format.refusals(),
            Settings::Rules { style, .. } => style.refusals(),
            Settings::Play { style, .. } => style.refusals(),
            Settings::Syncs { format, .. } => *format,
            Settings::Run { style, .. } => style.refusals(),
            Settings::Tally { format, .. } => *format,
            Settings::Ask { format, .. } => *format,
            Settings::Estimate { format, .. } => *format,
            Settings::Fronts { format, .. } => *format,
            Settings::Alike { format, .. } => *format,
            Settings::Outcomes { format, .. } => format.refusals(),
        }
    }
}

/// Why a line gives no settings.
#[derive(Debug, Drop)]
pub enum LineFault {
    /// It is no line of the program.
    Refused,
    /// It asks for help, or for the page on the language, which is this text.
    Help(Vec<u8>),
    /// It asks for the version, which is this text.
    Version(String),
    /// Out of memory.
    Memory,
}

impl From<AllocError> for LineFault {
    ghost use Rattle.qs_line.specs.declared.line.LineFault.TheVariants as fault;

    ghost from_gives = { λ _ f. f ≡ fault.Memory };

    fn from(_error: AllocError) -> LineFault {
        LineFault::Memory
    }
}

fn has_flag(found: &ArgMatches<'_>, name: &str) -> bool
    ensures flag { result ≡ flag_at name.now (rows_of (found_of found.now)) }
{
    matches!(text_at(found, name), Some("true"))
}

// Whether a setting stands on the line.
fn stands(found: &ArgMatches<'_>, setting: Setting) -> bool
    ensures stands { result ≡ stands_at setting (rows_of (found_of found.now)) }
{
    if setting.is_flag() {
        has_flag(found, setting.name())
    } else {
        text_at(found, setting.name()).is_some()
    }
}

// Whether both settings of some pair stand on the line.
fn has_pair(found: &ArgMatches<'_>, pairs: &[(Setting, Setting)]) -> bool
    ensures pair { result ≡ list_any (both_stand_at (rows_of (found_of found.now))) pairs.now }
{
    for (one, other) in pairs {
        if stands(found, *one) && stands(found, *other) {
            return true;
        }
    }
    false
}

// Whether settings stand on the line that do not stand together.
fn has_apart(found: &ArgMatches<'_>) -> bool
    ensures apart { result ≡ has_apart (rows_of (found_of found.now)) }
{
    has_pair(found, &APART)
}

fn format_of(found: &ArgMatches<'_>) -> Option<Format>
    ensures format { result ≡ format_at (rows_of (found_of found.now)) }
{
    match text_at(found, "format")? {
        "text" => Some(Format::Text),
        "json" => Some(Format::Json),
        _ => None,
    }
}

fn graph_format_of(found: &ArgMatches<'_>) -> Option<GraphFormat>
    ensures format { result ≡ graph_format_at (rows_of (found_of found.now)) }
{
    match text_at(found, "format")? {
        "text" => Some(GraphFormat::Text),
        "json" => Some(GraphFormat::Json),
        "dot" => Some(GraphFormat::Dot),
        _ => None,
    }
}

// What is written of outcomes, and how: the ends are no drawing.
fn outcomes_format_of(found: &ArgMatches<'_>) -> Option<OutcomesFormat>
    ensures format { result ≡ outcomes_format_at (rows_of (found_of found.now)) }
{
    if has_flag(found, "ends") {
        return Some(OutcomesFormat::Ends(format_of(found)?));
    }
    match graph_format_of(found)? {
        GraphFormat::Text => Some(OutcomesFormat::List(Format::Text)),
        GraphFormat::Json => Some(OutcomesFormat::List(Format::Json)),
        GraphFormat::Dot => Some(OutcomesFormat::Dot),
    }
}

fn report_format_of(found: &ArgMatches<'_>) -> Option<ReportFormat>
    ensures format { result ≡ report_format_at (rows_of (found_of found.now)) }
{
    match text_at(found, "format")? {
        "text" => Some(ReportFormat::Text),
        "json" => Some(ReportFormat::Json),
        "svg" => Some(ReportFormat::Svg),
        _ => None,
    }
}

fn style_of(found: &ArgMatches<'_>) -> Option<ReportStyle>
    ensures style { result ≡ style_at (rows_of (found_of found.now)) }
{
    let format = report_format_of(found)?;
    Some(ReportStyle {
        counts: has_flag(found, "counts"),
        refusals: has_flag(found, "refusals"),
        format,
        steps: has_flag(found, "steps"),
        queues: has_flag(found, "queues"),
    })
}

// Whether steps and queues can be told beside a report: beside one as text alone.
fn can_tell(format: ReportFormat) -> bool
    ensures value { result ≡ can_tell format }
{
    match format {
        ReportFormat::Text | ReportFormat::Json => true,
        ReportFormat::Svg => false,
    }
}

// The plan of a report in a style; None where it has no plan, or its steps or queues are asked for and can't be told.
fn styled_plan(style: ReportStyle, plan: Option<Plan>) -> Option<Plan>
    ensures plan { option_map plan_of result ≡ option_and_then (styled_plan style) (option_map plan_of plan) }
{
    let plan = plan?;
    if (style.steps || style.queues) && !can_tell(style.format) {
        return None;
    }
    Some(plan)
}

fn mode_of(found: &ArgMatches<'_>) -> Option<Mode>
    ensures mode { result ≡ mode_at (rows_of (found_of found.now)) }
{
    match text_at(found, "mode")? {
        "none" => Some(Mode::Plain),
        "dynamic" => Some(Mode::Dynamic),
        "static" => Some(Mode::Static),
        "both" => Some(Mode::Both),
        _ => None,
    }
}

fn chunk_of(found: &ArgMatches<'_>) -> Option<ChunkSize>
    ensures chunk { result ≡ chunk_at (rows_of (found_of found.now)) }
{
    ChunkSize::new(text_at(found, "chunk")?.parse::<u8>().ok()?)
}

// The number of a text, from 1 to the most that there may be.
fn number_of(text: &str, most: u32) -> Option<u32>
    ensures number { result ≡ number_in 1 most text.now }
{
    let number = text.parse::<u32>().ok()?;
    if number == 0 {
        return None;
    }
    if number > most { None } else { Some(number) }
}

fn limit_of(found: &ArgMatches<'_>) -> Option<u32>
    ensures limit { result ≡ limit_at (rows_of (found_of found.now)) }
{
    number_of(text_at(found, "limit")?, u32::MAX)
}

// The number of runs of a line.
fn times_of(found: &ArgMatches<'_>) -> Option<u32>
    ensures times { result ≡ times_at (rows_of (found_of found.now)) }
{
    number_of(text_at(found, "times")?, MOST_TIMES)
}

// How many blocks the fronts of a line have.
fn blocks_of(found: &ArgMatches<'_>) -> Option<u32>
    ensures blocks { result ≡ blocks_at (rows_of (found_of found.now)) }
{
    number_of(text_at(found, "blocks")?, MOST_FRONT)
}

// The threads of a line; one where it has no number of them.
fn threads_of(found: &ArgMatches<'_>) -> Option<u32>
    ensures threads { result ≡ threads_at (rows_of (found_of found.now)) }
{
    match text_at(found, "threads") {
        Some(text) => number_of(text, MOST_THREADS),
        None => Some(1),
    }
}

// Whether the line has a number of threads.
fn has_threads(found: &ArgMatches<'_>) -> bool
    ensures has { result ≡ has_threads (rows_of (found_of found.now)) }
{
    text_at(found, "threads").is_some()
}

// Whether the line has a number of runs.
fn has_times(found: &ArgMatches<'_>) -> bool
    ensures has { result ≡ has_times (rows_of (found_of found.now)) }
{
    text_at(found, "times").is_some()
}

// The clients after whose blocks outcomes are asked for; nobody where the line has no list of them.
fn given_front(alloc: Global, found: &ArgMatches<'_>) -> Result<Option<Vec<Part>>, AllocError>
    ensures front { IfOk result (λ front. option_map (λ list. list.items) front ≡ front_at (rows_of (found_of found.now))) }
{
    match text_at(found, "after") {
        Some(text) => clients_in(alloc, text),
        None => Ok(Some(Vec::new(alloc))),
    }
}

fn check_settings(found: &ArgMatches<'_>) -> Option<Settings>
    ensures settings { option_map request_of result ≡ check_at (rows_of (found_of found.now)) }
{
    let format = format_of(found)?;
    Some(Settings::Check { format })
}

fn graph_settings(found: &ArgMatches<'_>) -> Option<Settings>
    ensures settings { option_map request_of result ≡ graph_at (rows_of (found_of found.now)) }
{
    let format = graph_format_of(found)?;
    Some(Settings::Graph { format })
}

fn rules_settings(alloc: Global, found: &ArgMatches<'_>) -> Result<Option<Settings>, AllocError>
    ensures settings { IfOk result (λ settings. option_map request_of settings ≡ rules_at (rows_of (found_of found.now))) }
{
    let Some(style) = style_of(found) else {
        return Ok(None);
    };
    match styled_plan(style, given_plan(alloc, found)?) {
        Some(plan) => Ok(Some(Settings::Rules { style, plan })),
        None => Ok(None),
    }
}

fn play_settings(alloc: Global, found: &ArgMatches<'_>) -> Result<Option<Settings>, AllocError>
    ensures settings { IfOk result (λ settings. option_map request_of settings ≡ play_at (rows_of (found_of found.now))) }
{
    let (Some(style), Some(mode), Some(chunk)) = (style_of(found), mode_of(found), chunk_of(found))
    else {
        return Ok(None);
    };
    match styled_plan(style, given_plan(alloc, found)?) {
        Some(plan) => Ok(Some(Settings::Play {
            style,
            mode,
            chunk,
            plan,
        })),
        None => Ok(None),
    }
}

// The synchronisations of each mode.
fn syncs_settings(alloc: Global, found: &ArgMatches<'_>) -> Result<Option<Settings>, AllocError>
    ensures settings { IfOk result (λ settings. option_map request_of settings ≡ syncs_at (rows_of (found_of found.now))) }
{
    let (Some(format), Some(plan)) = (format_of(found), given_plan(alloc, found)?) else {
        return Ok(None);
    };
    Ok(Some(Settings::Syncs { format, plan }))
}

// Many runs, whose ends are counted.
fn tally_settings(found: &ArgMatches<'_>) -> Option<Settings>
    ensures settings { option_map request_of result ≡ tally_at (rows_of (found_of found.now)) }
{
    let format = format_of(found)?;
    let mode = mode_of(found)?;
    let chunk = chunk_of(found)?;
    let times = times_of(found)?;
    Some(Settings::Tally {
        format,
        mode,
        chunk,
        times,
    })
}

// A single run.
fn single_run_settings(found: &ArgMatches<'_>) -> Option<Settings>
    ensures settings { option_map request_of result ≡ single_run_at (rows_of (found_of found.now)) }
{
    let style = style_of(found)?;
    let mode = mode_of(found)?;
    let chunk = chunk_of(found)?;
    Some(Settings::Run { style, mode, chunk })
}

// A single run, or many where the line has a number of them.
fn run_settings(found: &ArgMatches<'_>) -> Option<Settings>
    ensures settings { option_map request_of result ≡ run_at (rows_of (found_of found.now)) }
{
    if has_times(found) {
        tally_settings(found)
    } else {
        single_run_settings(found)
    }
}

// What a setting of `ask` asks: claims, or the values of sums.
#[derive(Clone, Copy, Debug)]
pub(crate) enum Asking {
    Claims(Quantifier),
    Values,
}

// The name of such a setting.
fn setting_of(asking: Asking) -> &'static str
    ensures name { result.now ≡ setting_name asking }
{
    match asking {
        Asking::Claims(Quantifier::Always) => "always",
        Asking::Claims(Quantifier::Some) => "some",
        Asking::Claims(Quantifier::Throughout) => "throughout",
        Asking::Claims(Quantifier::Ever) => "ever",
        Asking::Claims(Quantifier::Never) => "never",
        Asking::Values => "values",
    }
}

// The claim of a text: None where it is no condition.
fn claim_of(
    alloc: Global,
    quantifier: Quantifier,
    text: &str,
) -> Result<Option<Question>, AllocError>
    ensures claim { IfOk result (λ claim. claim ≡ question_in (Asking.Claims quantifier) text.now) }
{
    match read_condition(alloc, text.as_bytes()) {
        Ok(condition) => Ok(Some(Question::Claim(Claim {
            line: 0,
            quantifier,
            condition,
        }))),
        Err(ConditionFault::Memory) => Err(AllocError),
        Err(_) => Ok(None),
    }
}

// The question of a sum's text: None where it is no sum.
fn values_of(alloc: Global, text: &str) -> Result<Option<Question>, AllocError>
    ensures values { IfOk result (λ question. question ≡ question_in Asking.Values text.now) }
{
    match read_sum(alloc, text.as_bytes()) {
        Ok(sum) => Ok(Some(Question::Values(sum))),
        Err(ConditionFault::Memory) => Err(AllocError),
        Err(_) => Ok(None),
    }
}

// The question of a text: None where it can't be read.
fn question_of(alloc: Global, asking: Asking, text: &str) -> Result<Option<Question>, AllocError>
    ensures question { IfOk result (λ question. question ≡ question_in asking text.now) }
{
    match asking {
        Asking::Claims(quantifier) => claim_of(alloc, quantifier, text),
        Asking::Values => values_of(alloc, text),
    }
}

// The questions before these, and those of a setting: None where one of them can't be read.
fn with_questions(
    alloc: Global,
    found: &ArgMatches<'_>,
    asking: Asking,
    before: Option<Vec<Question>>,
) -> Result<Option<Vec<Question>>, AllocError>
    ensures questions { IfOk result (λ questions. option_map (λ all. all.items) questions
        ≡ questions_by asking (rows_of (found_of found.now)) (option_map (λ all. all.items) before)) }
{
    let Some(mut questions) = before else {
        return Ok(None);
    };
    let Some(texts) = texts_at(found, setting_of(asking)) else {
        return Ok(Some(questions));
    };
    for text in texts {
        match question_of(alloc, asking, text)? {
            Some(question) => questions.push(question)?,
            None => return Ok(None),
        }
    }
    Ok(Some(questions))
}

// The questions of a line: None where one of them can't be read.
fn given_questions(
    alloc: Global,
    found: &ArgMatches<'_>,
) -> Result<Option<Vec<Question>>, AllocError>
    ensures questions { IfOk result (λ questions. option_map (λ all. all.items) questions ≡ questions_at (rows_of (found_of found.now))) }
{
    let none = Some(Vec::new(alloc));
    let always = with_questions(alloc, found, Asking::Claims(Quantifier::Always), none)?;
    let some = with_questions(alloc, found, Asking::Claims(Quantifier::Some), always)?;
    let throughout = with_questions(alloc, found, Asking::Claims(Quantifier::Throughout), some)?;
    let ever = with_questions(alloc, found, Asking::Claims(Quantifier::Ever), throughout)?;
    let never = with_questions(alloc, found, Asking::Claims(Quantifier::Never), ever)?;
    with_questions(alloc, found, Asking::Values, never)
}

fn ask_settings(alloc: Global, found: &ArgMatches<'_>) -> Result<Option<Settings>, AllocError>
    ensures settings { IfOk result (λ settings. option_map request_of settings ≡ ask_at (rows_of (found_of found.now))) }
{
    let (Some(questions), Some(format), Some(limit), Some(threads), Some(front)) = (
        given_questions(alloc, found)?,
        format_of(found),
        limit_of(found),
        threads_of(found),
        given_front(alloc, found)?,
    ) else {
        return Ok(None);
    };
    Ok(Some(Settings::Ask {
        questions,
        format,
        limit,
        threads,
        front,
    }))
}

// By how many threads outcomes are searched for: a drawing by one alone.
fn threads_beside(format: OutcomesFormat, found: &ArgMatches<'_>) -> Option<u32>
    ensures threads { result ≡ threads_beside format (rows_of (found_of found.now)) }
{
    match format {
        OutcomesFormat::Dot if has_threads(found) => None,
        OutcomesFormat::Dot => Some(1),
        OutcomesFormat::List(_) | OutcomesFormat::Ends(_) => threads_of(found),
    }
}

fn list_settings(alloc: Global, found: &ArgMatches<'_>) -> Result<Option<Settings>, AllocError>
    ensures settings { IfOk result (λ settings. option_map request_of settings ≡ list_at (rows_of (found_of found.now))) }
{
    let Some(format) = outcomes_format_of(found) else {
        return Ok(None);
    };
    let (Some(limit), Some(threads), Some(front)) = (
        limit_of(found),
        threads_beside(format, found),
        given_front(alloc, found)?,
    ) else {
        return Ok(None);
    };
    Ok(Some(Settings::Outcomes {
        format,
        limit,
        threads,
        front,
    }))
}

// An estimate.
fn estimate_settings(alloc: Global, found: &ArgMatches<'_>) -> Result<Option<Settings>, AllocError>
    ensures settings { IfOk result (λ settings. option_map request_of settings ≡ estimate_at (rows_of (found_of found.now))) }
{
    let (Some(format), Some(front)) = (format_of(found), given_front(alloc, found)?) else {
        return Ok(None);
    };
    Ok(Some(Settings::Estimate { format, front }))
}

// One of all alike outcomes.
fn alike_settings(found: &ArgMatches<'_>) -> Option<Settings>
    ensures settings { option_map request_of result ≡ alike_at (rows_of (found_of found.now)) }
{
    let format = format_of(found)?;
    let limit = limit_of(found)?;
    Some(Settings::Alike { format, limit })
}

// One of all alike outcomes where the line asks for these, and else all outcomes.
fn outcomes_settings(alloc: Global, found: &ArgMatches<'_>) -> Result<Option<Settings>, AllocError>
    ensures settings { IfOk result (λ settings. option_map request_of settings ≡ outcomes_at (rows_of (found_of found.now))) }
{
    if has_flag(found, "alike") {
        Ok(alike_settings(found))
    } else {
        list_settings(alloc, found)
    }
}

fn one_order(alloc: Global, order: Vec<Part>) -> Result<Vec<Vec<Part>>, AllocError>
    ensures one { IfOk result (λ orders. map (λ order. order.items) orders.items ≡ order.items ∷ []) }
{
    let mut orders = Vec::with_capacity(alloc, 1)?;
    orders.push(order)?;
    Ok(orders)
}

// The orders after which fronts are looked for: several where the line has them, and else one.
fn given_leads(alloc: Global, found: &ArgMatches<'_>) -> Result<Option<Vec<Vec<Part>>>, AllocError>
    ensures orders { IfOk result (λ orders. option_map (λ orders. map (λ order. order.items) orders.items) orders ≡ leads_at (rows_of (found_of found.now))) }
{
    if let Some(text) = text_at(found, "leads") {
        return orders_in(alloc, text);
    }
    match given_front(alloc, found)? {
        Some(front) => Ok(Some(one_order(alloc, front)?)),
        None => Ok(None),
    }
}

// Fronts.
fn fronts_settings(alloc: Global, found: &ArgMatches<'_>) -> Result<Option<Settings>, AllocError>
    ensures settings { IfOk result (λ settings. option_map request_of settings ≡ fronts_at (rows_of (found_of found.now))) }
{
    let (Some(format), Some(blocks), Some(limit), Some(orders)) = (
        format_of(found),
        blocks_of(found),
        limit_of(found),
        given_leads(alloc, found)?,
    ) else {
        return Ok(None);
    };
    Ok(Some(Settings::Fronts {
        format,
        blocks,
        limit,
        orders,
    }))
}

// What a word asks for, with what clap found after it, whichever settings stand together.
fn settings_of_word(
    alloc: Global,
    name: &str,
    found: &ArgMatches<'_>,
) -> Result<Option<Settings>, AllocError>
    ensures settings { IfOk result (λ settings. option_map request_of settings ≡ request_of_word name.now (rows_of (found_of found.now))) }
{
    match name {
        "check" => Ok(check_settings(found)),
        "graph" => Ok(graph_settings(found)),
        "rules" => rules_settings(alloc, found),
        "play" => play_settings(alloc, found),
        "run" => Ok(run_settings(found)),
        "syncs" => syncs_settings(alloc, found),
        "outcomes" => outcomes_settings(alloc, found),
        "ask" => ask_settings(alloc, found),
        "fronts" => fronts_settings(alloc, found),
        "estimate" => estimate_settings(alloc, found),
        _ => Ok(None),
    }
}

// The same, where no two settings stand on the line that do not stand together.
fn settings_of(
    alloc: Global,
    name: &str,
    found: &ArgMatches<'_>,
) -> Result<Option<Settings>, AllocError>
    ensures settings { IfOk result (λ settings. option_map request_of settings ≡ request_at name.now (rows_of (found_of found.now))) }
{
    if has_apart(found) {
        return Ok(None);
    }
    settings_of_word(alloc, name, found)
}

fn met_settings(alloc: Global, matches: &ArgMatches<'_>) -> Result<Option<Settings>, AllocError>
    ensures settings { IfOk result (λ settings. option_map request_of settings ≡ request_met (subcommand_rows_of matches.now)) }
{
    match matches.subcommand() {
        Some((name, found)) => settings_of(alloc, name, found),
        None => Ok(None),
    }
}

// The fault of a line that clap refuses.
fn line_fault(alloc: Global, error: &Error) -> LineFault
    ensures fault { IsFault (kind_of error.now) result }
{
    match error.kind() {
        ErrorKind::OutOfMemory => LineFault::Memory,
        ErrorKind::DisplayHelp => match error.to_string(alloc) {
            Ok(text) => LineFault::Help(text.into_bytes()),
            Err(_) => LineFault::Memory,
        },
        ErrorKind::DisplayVersion => match error.to_string(alloc) {
            Ok(text) => LineFault::Version(text),
            Err(_) => LineFault::Memory,
        },
        _ => LineFault::Refused,
    }
}

// What clap makes of the words.
fn matches_of<'a>(alloc: Global, words: &'a [&'a str]) -> Result<ArgMatches<'a>, LineFault>
    ensures taken { IfOk result (λ matches. fault_of qs_app (map (λ word. word.now) words.entry.now) ≡ []) }
    ensures entries { IfOk result (λ matches. subcommand_rows_of matches ≡ subcommand_of qs_app (map (λ word. word.now) words.entry.now)) }
    ensures fault { IfErr result (IsFaultAmong (fault_of qs_app (map (λ word. word.now) words.entry.now))) }
{
    match command(alloc)?.try_get_matches_from(words) {
        Ok(matches) => Ok(matches),
        Err(error) => Err(line_fault(alloc, &error)),
    }
}

// Whether the words after the program's name ask for the page on the language.
fn asks_language(words: &[&str]) -> bool
    ensures value { result ≡ asks_language (map (λ word. word.now) words.now) }
{
    if words.len() != 3 {
        return false;
    }
    words[1] == "help" && words[2] == "language"
}

// The page on the language.
fn page(alloc: Global) -> LineFault
    ensures help { IsAnswer help (Err result) }
{
    match language_page(alloc) {
        Ok(page) => LineFault::Help(page),
        Err(_) => LineFault::Memory,
    }
}

/// The settings of a line, whose first word is the program's name: those that `clap` finds, and its defaults. `Refused`
/// comes exactly where `clap` refuses the words by an error, where the two settings of a pair of `APART` stand
/// together, where a format, a mode, a number, a list or a condition does not read, where a number of threads stands beside a drawing, or where steps or queues are asked for beside a picture;
/// `Help` and `Version` come exactly where it answers with help or with the version, and `Help` where the words are
/// `help language`. `Memory` may come in place of each.
pub fn read_line<'a>(alloc: Global, words: &'a [&'a str]) -> Result<Settings, LineFault>
    ensures line { IsAnswer (line_in (map (λ word. word.now) words.entry.now)) result }
{
    if asks_language(words) {
        return Err(page(alloc));
    }
    let matches = matches_of(alloc, words)?;
    met_settings(alloc, &matches)?.ok_or(LineFault::Refused)
}

/// What a line asks to be told on standard error beside its result.
#[derive(Clone, Copy, Debug)]
pub struct Asked {
    /// What may be meant otherwise.
    pub warnings: bool,
    /// How much of each limit is used, and how much is left.
    pub limits: bool,
}

fn asked_of(matches: &ArgMatches<'_>) -> Asked
    ensures warnings { result.warnings ≡ warns_met (subcommand_rows_of matches.now) }
    ensures limits { result.limits ≡ is_verbose_met (subcommand_rows_of matches.now) }
{
    match matches.subcommand() {
        Some((_, found)) => Asked {
            warnings: has_flag(found, "warn"),
            limits: has_flag(found, "verbose"),
        },
        None => Asked {
            warnings: false,
            limits: false,
        },
    }
}

/// What a line that `clap` takes asks for beside its result: warnings where `--warn` stands after its word, and the
/// limits that are left where `--verbose` does. A line that `clap` does not take has the fault of `read_line`.
pub fn asked_for<'a>(alloc: Global, words: &'a [&'a str]) -> Result<Asked, LineFault>
    ensures warnings { IfOk result (λ asked. asked.warnings ≡ warns_in (map (λ word. word.now) words.entry.now)) }
    ensures limits { IfOk result (λ asked. asked.limits ≡ is_verbose_in (map (λ word. word.now) words.entry.now)) }
    ensures fault { IfErr result (IsFaultAmong (fault_of qs_app (map (λ word. word.now) words.entry.now))) }
{
    let matches = matches_of(alloc, words)?;
    Ok(asked_of(&matches))
}
