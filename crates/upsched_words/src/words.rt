//! The words of the command line.

ghost use Rattle.std.specs.Prelude.{◌≡◌, ◌≢◌};
ghost use Rattle.clap.specs.Words.{kind_of};
ghost use Rattle.upsched_ends.specs.declared.status.Status.TheVariants.{Faulted, NotUnderstood};

use crate::commands::program;
use clap::error::ErrorKind;
use clap::{ArgMatches, Command, Error};
use std::alloc::{AllocError, Global};
use std::io::Write;
use upsched_check::{CaptureWords, CheckWords, Form, StatsWords};
use upsched_ends::{
    Fault, LiveWords, MapsWords, NodeWords, RunWords, ScriptWords, ShowWords, Status,
};
use upsched_host::{FolderWords, HostStart, HostWords};
use upsched_resume::ResumeWords;
use upsched_scheduler::ReplyForm;

/// What `node` or `host` is told of its journal.
#[derive(Clone, Copy, Debug)]
pub struct JournalWords<'a> {
    /// The path of its file.
    pub path: &'a str,
    /// Whether the file is synced behind each line and each reply.
    pub is_synced: bool,
}

/// What `host` is told.
#[derive(Clone, Copy, Debug)]
pub struct HostAsked<'a> {
    /// Which host it is.
    pub host: HostWords<'a>,
    /// Its folder, if its records aren't in memory.
    pub folder: Option<FolderWords<'a>>,
    /// Its journal, if it keeps one.
    pub journal: Option<JournalWords<'a>>,
}

/// What `audit` is told.
#[derive(Debug, Drop)]
pub struct AuditWords<'a> {
    /// How many members there are.
    pub members: &'a str,
    /// The paths of their journals, that of node 0 first.
    pub journals: Vec<&'a str>,
    /// Whether it is told how many lives and lines each of them holds.
    pub counts: bool,
}

/// What `check` is told of the files of nodes.
#[derive(Clone, Copy, Debug)]
pub struct StoreWords<'a> {
    /// The path of their folder.
    pub folder: &'a str,
}

/// What `draw` is to draw.
#[derive(Clone, Copy, Debug, PartialEq, Eq)]
pub enum Subject {
    /// What happens in a script.
    Run,
    /// The MAPs of a plan.
    Plan,
    /// The MAPs of a plan, for a terminal.
    PlanText,
    /// The MAPs of what nodes learn in a script.
    Maps,
    /// The same for a terminal.
    MapsText,
}

/// What `draw` is told.
#[derive(Clone, Copy, Debug)]
pub struct DrawWords<'a> {
    /// The path of the script or the plan.
    pub path: &'a str,
    pub subject: Subject,
    /// The number of the first event of a script that is drawn, and that of the last one where it is said.
    pub events: (usize, Option<usize>),
}

/// A command of the program.
#[derive(Debug, Drop)]
pub enum Words<'a> {
    /// Applies a plan's commands and prints their outputs.
    Maps(MapsWords<'a>),
    /// The same, and why commands are refused.
    MapsNamed(MapsWords<'a>),
    /// The outputs as JSON.
    MapsAsJson(MapsWords<'a>),
    /// Applies a plan's commands behind the tables of a file, prints their outputs and leaves the tables in a file.
    Resume(ResumeWords<'a>),
    /// Runs a script and prints its answers.
    Run(RunWords<'a>),
    /// Runs a script and prints its answers and its letters.
    Trace(RunWords<'a>),
    /// The same with the command that each value of a letter spells.
    TraceNamed(RunWords<'a>),
    /// Prints a script with the numbers of the letters that it names.
    PlainScript(RunWords<'a>),
    /// Runs a script and prints its answers as JSON.
    RunAsJson(RunWords<'a>),
    /// The same with the letters of each event, and what is seen of its node.
    TraceAsJson(RunWords<'a>),
    /// Tells what is wrong with a plan or a script.
    Check(CheckWords<'a>),
    /// Tells what the files of nodes are.
    CheckStore(StoreWords<'a>),
    /// Writes a plan's MAPs as a capture file.
    Capture(CaptureWords<'a>),
    /// Prints what a plan's MAPs give.
    Stats(StatsWords<'a>),
    /// The same as JSON.
    StatsAsJson(StatsWords<'a>),
    /// Prints a script that it makes.
    Script(ScriptWords<'a>),
    /// Draws what happens in a script, or the MAPs of a plan.
    Draw(DrawWords<'a>),
    /// Prints a MAP body.
    Show(ShowWords<'a>),
    /// Prints a MAP body with the names of its uses.
    ShowNames(ShowWords<'a>),
    /// The same as JSON.
    ShowAsJson(ShowWords<'a>),
    /// Works on a plan with a thread for each node, and prints whether the records agree.
    Live(LiveWords<'a>),
    /// Is one scheduler over lines, which replies so.
    Scheduler(ReplyForm),
    /// Is one node over lines, which may keep a journal of them.
    Node(NodeWords<'a>, Option<JournalWords<'a>>),
    /// Is one member of a log that goes on, over lines, of which it may keep a journal.
    Host(HostAsked<'a>),
    /// Prints whether journals are those of nodes that kept the rules.
    Audit(AuditWords<'a>),
}

/// What `maps` is told: to print lines, with the reasons of refusals or without, or JSON.
fn maps_words<'a>(words: &ArgMatches<'a>) -> Option<Words<'a>> {
    let plan = words.get_str("PLAN")?;
    let told = MapsWords { plan };
    Some(match (words.get_flag("json"), words.get_flag("names")) {
        (true, _) => Words::MapsAsJson(told),
        (false, true) => Words::MapsNamed(told),
        (false, false) => Words::Maps(told),
    })
}

/// What `resume` is told.
fn resume_words<'a>(words: &ArgMatches<'a>) -> Option<Words<'a>> {
    let plan = words.get_str("PLAN")?;
    let from = words.get_str("from");
    let to = words.get_str("to");
    Some(Words::Resume(ResumeWords { plan, from, to }))
}

/// What `show` is told: as `maps`, or to print names too.
fn show_words<'a>(words: &ArgMatches<'a>) -> Option<Words<'a>> {
    let hex = words.get_str("HEX")?;
    let told = ShowWords { hex };
    Some(match (words.get_flag("json"), words.get_flag("names")) {
        (true, _) => Words::ShowAsJson(told),
        (false, true) => Words::ShowNames(told),
        (false, false) => Words::Show(told),
    })
}

/// What `run` is told: to print lines, with a trace or without one, or JSON, or the script by numbers. Only a trace has
/// names: JSON has them by itself.
fn run_words<'a>(words: &ArgMatches<'a>) -> Option<Words<'a>> {
    let script = words.get_str("SCRIPT")?;
    let verbose = words.get_flag("verbose");
    let store = words.get_str("store");
    let told = RunWords {
        script,
        verbose,
        store,
    };
    if words.get_flag("plain") {
        return Some(Words::PlainScript(told));
    }
    Some(match (words.get_flag("json"), words.get_flag("trace")) {
        (true, true) => Words::TraceAsJson(told),
        (true, false) => Words::RunAsJson(told),
        (false, true) if words.get_flag("names") => Words::TraceNamed(told),
        (false, true) => Words::Trace(told),
        (false, false) => Words::Run(told),
    })
}

/// What `capture` is told.
fn capture_words<'a>(words: &ArgMatches<'a>) -> Option<Words<'a>> {
    let plan = words.get_str("PLAN")?;
    Some(Words::Capture(CaptureWords { plan }))
}

/// What `stats` is told: to print lines or JSON.
fn stats_words<'a>(words: &ArgMatches<'a>) -> Option<Words<'a>> {
    let plan = words.get_str("PLAN")?;
    let told = StatsWords { plan };
    Some(if words.get_flag("json") {
        Words::StatsAsJson(told)
    } else {
        Words::Stats(told)
    })
}

/// What `scheduler` is told: to reply by lines or by JSON.
fn scheduler_words<'a>(words: &ArgMatches<'a>) -> Words<'a> {
    Words::Scheduler(if words.get_flag("json") {
        ReplyForm::Json
    } else {
        ReplyForm::Plain
    })
}

/// What `draw` is told.
fn draw_words<'a>(words: &ArgMatches<'a>) -> Option<Words<'a>> {
    let path = words.get_str("FILE")?;
    let is_text = words.get_flag("text");
    let subject = match (words.get_flag("plan"), words.get_flag("maps")) {
        (true, _) if is_text => Subject::PlanText,
        (true, _) => Subject::Plan,
        (false, true) if is_text => Subject::MapsText,
        (false, true) => Subject::Maps,
        (false, false) => Subject::Run,
    };
    let from = words.get_one::<u64>("from").unwrap_or(0) as usize;
    let to = words.get_one::<u64>("to").map(|last| last as usize);
    Some(Words::Draw(DrawWords {
        path,
        subject,
        events: (from, to),
    }))
}

/// What `node` is told.
fn node_words<'a>(words: &ArgMatches<'a>) -> Option<Words<'a>> {
    let number = words.get_str("K")?;
    let members = words.get_str("members")?;
    let store = words.get_str("store");
    let is_new = words.get_flag("new");
    let told = NodeWords {
        number,
        members,
        store,
        is_new,
    };
    Some(Words::Node(told, journal_words(words)))
}

/// What `host` is told of its folder, if it has one.
fn folder_words<'a>(words: &ArgMatches<'a>) -> Option<FolderWords<'a>> {
    let path = words.get_str("store")?;
    let start = match (words.get_flag("new"), words.get_flag("join")) {
        (true, _) => HostStart::New,
        (false, true) => HostStart::Join,
        (false, false) => HostStart::Left,
    };
    Some(FolderWords { path, start })
}

/// What `host` is told.
fn host_words<'a>(words: &ArgMatches<'a>) -> Option<Words<'a>> {
    let number = words.get_str("K")?;
    let members = words.get_str("members")?;
    let places = words.get_str("places");
    let host = HostWords {
        number,
        members,
        places,
    };
    Some(Words::Host(HostAsked {
        host,
        folder: folder_words(words),
        journal: journal_words(words),
    }))
}

/// What `script` is told.
fn script_words<'a>(words: &ArgMatches<'a>) -> Option<Words<'a>> {
    let members = words.get_str("members")?;
    let plan = words.get_str("plan");
    let modems = words.get_str("modems");
    let told = ScriptWords {
        members,
        plan,
        seed: words.get_one::<u64>("seed")?,
        lose: words.get_one::<u8>("lose")?,
        repeat: words.get_one::<u8>("repeat")?,
        crashes: words.get_one::<u32>("crash")?,
        takeovers: words.get_one::<u32>("takeover")?,
        modems,
    };
    Some(Words::Script(told))
}

/// What `node` or `host` is told of its journal, if it keeps one.
fn journal_words<'a>(words: &ArgMatches<'a>) -> Option<JournalWords<'a>> {
    let path = words.get_str("journal")?;
    let is_synced = words.get_flag("journal-sync");
    Some(JournalWords { path, is_synced })
}

/// What `audit` is told.
fn audit_words<'a>(alloc: Global, words: &ArgMatches<'a>) -> Result<Option<Words<'a>>, AllocError> {
    let (Some(members), Some(given)) = (words.get_str("members"), words.get_strs("JOURNAL")) else {
        return Ok(None);
    };
    let journals = Vec::from_slice(alloc, given)?;
    let counts = words.get_flag("counts");
    Ok(Some(Words::Audit(AuditWords {
        members,
        journals,
        counts,
    })))
}

/// What `live` is told.
fn live_words<'a>(words: &ArgMatches<'a>) -> Option<Words<'a>> {
    let plan = words.get_str("PLAN")?;
    let turns = words.get_one::<u32>("turns")?;
    let verbose = words.get_flag("verbose");
    Some(Words::Live(LiveWords {
        plan,
        turns,
        verbose,
    }))
}

/// What `check` is told: a text, or the folder of nodes' files.
fn check_words<'a>(words: &ArgMatches<'a>) -> Option<Words<'a>> {
    if let Some(folder) = words.get_str("store") {
        return Some(Words::CheckStore(StoreWords { folder }));
    }
    let path = words.get_str("FILE")?;
    let form = match (words.get_flag("plan"), words.get_flag("script")) {
        (true, _) => Some(Form::Plan),
        (false, true) => Some(Form::Script),
        (false, false) => None,
    };
    Some(Words::Check(CheckWords { path, form }))
}

/// What the command's words say.
fn command_of<'a>(
    alloc: Global,
    matches: &ArgMatches<'a>,
) -> Result<Option<Words<'a>>, AllocError> {
    let Some((name, words)) = matches.subcommand() else {
        return Ok(None);
    };
    Ok(match name {
        "maps" => maps_words(words),
        "resume" => resume_words(words),
        "run" => run_words(words),
        "check" => check_words(words),
        "capture" => capture_words(words),
        "stats" => stats_words(words),
        "script" => script_words(words),
        "draw" => draw_words(words),
        "show" => show_words(words),
        "live" => live_words(words),
        "scheduler" => Some(scheduler_words(words)),
        "node" => node_words(words),
        "host" => host_words(words),
        "audit" => audit_words(alloc, words)?,
        _ => None,
    })
}

/// The command that the words name, where they name one.
fn named_command<'a>(
    alloc: Global,
    program: &mut Command<'a>,
    words: &'a [String],
) -> Result<Option<Words<'a>>, Error> {
    let matches = program.try_get_matches_from_mut(words)?;
    Ok(command_of(alloc, &matches)?)
}

/// Reads the words, the program's own name first. What it doesn't understand, and what asks for help or
/// for the version, is an error, for `refused` to tell.
pub fn read_words<'a>(alloc: Global, words: &'a [String]) -> Result<Words<'a>, Error> {
    let mut program = program(alloc)?;
    match named_command(alloc, &mut program, words)? {
        Some(command) => Ok(command),
        None => Err(program.error(ErrorKind::MissingSubcommand, "no command")?),
    }
}

/// Writes why the words aren't read on standard error, or on standard output the help or the version that
/// they ask for.
pub fn refused<O: Write, E: Write>(error: &Error, output: &mut O, errors: &mut E) -> Status
    ensures memory { kind_of error.now ≡ ErrorKind.OutOfMemory → result ≡ Faulted }
    ensures help { kind_of error.now ≡ ErrorKind.DisplayHelp → result ≢ NotUnderstood }
    ensures version { kind_of error.now ≡ ErrorKind.DisplayVersion → result ≢ NotUnderstood }
    ensures mistake { kind_of error.now ≢ ErrorKind.OutOfMemory → kind_of error.now ≢ ErrorKind.DisplayHelp
        → kind_of error.now ≢ ErrorKind.DisplayVersion → result ≡ NotUnderstood }
{
    if error.kind() == ErrorKind::OutOfMemory {
        return Fault::Memory.told(errors);
    }
    if error.use_stderr() {
        let _ = write!(errors, "{error}");
        return Status::NotUnderstood;
    }
    match write!(output, "{error}") {
        Ok(()) => Status::Done,
        Err(_) => Fault::Output.told(errors),
    }
}
