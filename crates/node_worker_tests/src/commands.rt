//! The program's words, a writer that is full, and what is logged.

use log::sink::Memory;
use log::{Level, Logged};
use std::alloc::Global;
use std::io;
use std::io::Write;
use std::process::Abort;
use std::test::Fail;
use upsched_ends::{MapsWords, RunWords, Status};
use upsched_maps::maps;
use upsched_run::run_script;
use upsched_words::{read_words, refused};

/// A writer that is full.
#[derive(Drop)]
struct Full;

impl Write for Full {
    fn write(&mut self, _buf: &[u8]) -> io::Result<usize> {
        Err(io::Error::from(io::ErrorKind::StorageFull))
    }

    fn flush(&mut self) -> io::Result<()> {
        Ok(())
    }
}

#[test]
fn a_full_output(rt: HostRuntime) {
    let mut errors = Vec::new(rt.alloc());
    let words = MapsWords { plan: "plan.toml" };
    let mut plan = "command = [{kind = 'noop'}]".as_bytes();
    let status = maps(rt.alloc(), &mut plan, &words, &mut Full, &mut errors);
    assert_eq!(rt; status, Status::Faulted);
    assert_eq!(rt; errors.as_slice(), b"upsched: output\n".as_slice());
}

fn listed(alloc: Global, words: &[&str]) -> Result<Vec<String>, Fail> {
    let mut list = Vec::new(alloc);
    list.push(String::from_str(alloc, "upsched")?)?;
    for word in words {
        list.push(String::from_str(alloc, word)?)?;
    }
    Ok(list)
}

/// What words are read as, or how the program ends by them.
fn read_as(alloc: Global, words: &[&str]) -> Result<String, Fail> {
    let given = listed(alloc, words)?;
    match read_words(alloc, given.as_slice()) {
        Ok(words) => Ok(format!(in alloc; "{words:?}")?),
        Err(error) => {
            let status = refused(&error, &mut io::sink(), &mut io::sink());
            Ok(format!(in alloc; "{status:?}")?)
        }
    }
}

static RUN_WORDS: [(&[&str], &str); 20] = [
    (
        &["maps", "a plan.toml"],
        "Maps(MapsWords { plan: \"a plan.toml\" })",
    ),
    (
        &["resume", "plan.toml"],
        "Resume(ResumeWords { plan: \"plan.toml\", from: None, to: None })",
    ),
    (
        &["resume", "--to", "b.rows", "plan.toml", "--from=a.rows"],
        "Resume(ResumeWords { plan: \"plan.toml\", from: Some(\"a.rows\"), to: Some(\"b.rows\") })",
    ),
    (&["show", "00fF"], "Show(ShowWords { hex: \"00fF\" })"),
    (
        &["show", "00", "--names"],
        "ShowNames(ShowWords { hex: \"00\" })",
    ),
    (&["show", "00", "--names", "--json"], "NotUnderstood"),
    (
        &["maps", "plan.toml", "--json"],
        "MapsAsJson(MapsWords { plan: \"plan.toml\" })",
    ),
    (
        &["show", "--json", "00"],
        "ShowAsJson(ShowWords { hex: \"00\" })",
    ),
    (
        &["run", "script.toml", "--json"],
        "RunAsJson(RunWords { script: \"script.toml\", verbose: false, store: None })",
    ),
    (
        &["run", "--json", "script.toml", "--store", "a folder"],
        "RunAsJson(RunWords { script: \"script.toml\", verbose: false, store: Some(\"a folder\") })",
    ),
    (
        &["run", "--json", "script.toml", "--trace"],
        "TraceAsJson(RunWords { script: \"script.toml\", verbose: false, store: None })",
    ),
    (
        &["run", "--json", "script.toml", "--verbose"],
        "NotUnderstood",
    ),
    (
        &["run", "script.toml"],
        "Run(RunWords { script: \"script.toml\", verbose: false, store: None })",
    ),
    (
        &["run", "script.toml", "--verbose"],
        "Run(RunWords { script: \"script.toml\", verbose: true, store: None })",
    ),
    (
        &["run", "script.toml", "--trace"],
        "Trace(RunWords { script: \"script.toml\", verbose: false, store: None })",
    ),
    (
        &["run", "script.toml", "--names", "--trace"],
        "TraceNamed(RunWords { script: \"script.toml\", verbose: false, store: None })",
    ),
    (&["run", "script.toml", "--names"], "NotUnderstood"),
    (
        &["run", "--trace", "script.toml", "--verbose", "--store=dir"],
        "Trace(RunWords { script: \"script.toml\", verbose: true, store: Some(\"dir\") })",
    ),
    (
        &["run", "--verbose", "script.toml"],
        "Run(RunWords { script: \"script.toml\", verbose: true, store: None })",
    ),
    (
        &["run", "script.toml", "--store", "a folder"],
        "Run(RunWords { script: \"script.toml\", verbose: false, store: Some(\"a folder\") })",
    ),
];

static NODE_WORDS: [(&[&str], &str); 14] = [
    (
        &["live", "plan.toml"],
        "Live(LiveWords { plan: \"plan.toml\", turns: 2000, verbose: false })",
    ),
    (
        &["live", "plan.toml", "--verbose"],
        "Live(LiveWords { plan: \"plan.toml\", turns: 2000, verbose: true })",
    ),
    (
        &["live", "--turns", "0", "plan.toml"],
        "Live(LiveWords { plan: \"plan.toml\", turns: 0, verbose: false })",
    ),
    (
        &["live", "plan.toml", "--turns=1000000"],
        "Live(LiveWords { plan: \"plan.toml\", turns: 1000000, verbose: false })",
    ),
    (&["scheduler"], "Scheduler(Plain)"),
    (&["scheduler", "--json"], "Scheduler(Json)"),
    (&["scheduler", "lines"], "NotUnderstood"),
    (
        &["node", "0", "--members", "3"],
        "Node(NodeWords { number: \"0\", members: \"3\", store: None, is_new: false }, None)",
    ),
    (
        &["node", "--members=5", "4"],
        "Node(NodeWords { number: \"4\", members: \"5\", store: None, is_new: false }, None)",
    ),
    (
        &["node", "1", "--members", "3", "--store", "n.db", "--new"],
        "Node(NodeWords { number: \"1\", members: \"3\", store: Some(\"n.db\"), is_new: true }, None)",
    ),
    (&["node", "1", "--members", "3", "--new"], "NotUnderstood"),
    (
        &["node", "0", "--members", "3", "--journal", "n.txt"],
        "Node(NodeWords { number: \"0\", members: \"3\", store: None, is_new: false }, \
         Some(JournalWords { path: \"n.txt\", is_synced: false }))",
    ),
    (
        &[
            "node",
            "0",
            "--members",
            "3",
            "--journal=n.txt",
            "--journal-sync",
        ],
        "Node(NodeWords { number: \"0\", members: \"3\", store: None, is_new: false }, \
         Some(JournalWords { path: \"n.txt\", is_synced: true }))",
    ),
    (
        &["node", "0", "--members", "3", "--journal-sync"],
        "NotUnderstood",
    ),
];

static HOST_WORDS: [(&[&str], &str); 9] = [
    (
        &["host", "0", "--members", "3"],
        "Host(HostAsked { host: HostWords { number: \"0\", members: \"3\", places: None }, folder: None, journal: None })",
    ),
    (
        &["host", "--places=5", "4", "--members", "5"],
        "Host(HostAsked { host: HostWords { number: \"4\", members: \"5\", places: Some(\"5\") }, \
         folder: None, journal: None })",
    ),
    (
        &["host", "0", "--members", "3", "--store", "d"],
        "Host(HostAsked { host: HostWords { number: \"0\", members: \"3\", places: None }, \
         folder: Some(FolderWords { path: \"d\", start: Left }), journal: None })",
    ),
    (
        &["host", "0", "--members", "3", "--store=d", "--new"],
        "Host(HostAsked { host: HostWords { number: \"0\", members: \"3\", places: None }, \
         folder: Some(FolderWords { path: \"d\", start: New }), journal: None })",
    ),
    (
        &[
            "host",
            "0",
            "--members",
            "3",
            "--join",
            "--store=d",
            "--journal=n.txt",
        ],
        "Host(HostAsked { host: HostWords { number: \"0\", members: \"3\", places: None }, \
         folder: Some(FolderWords { path: \"d\", start: Join }), \
         journal: Some(JournalWords { path: \"n.txt\", is_synced: false }) })",
    ),
    (
        &[
            "host",
            "0",
            "--members",
            "3",
            "--store=d",
            "--new",
            "--join",
        ],
        "NotUnderstood",
    ),
    (&["host", "0", "--members", "3", "--new"], "NotUnderstood"),
    (&["host", "0", "--members", "3", "--join"], "NotUnderstood"),
    (
        &["host", "0", "--members", "3", "--journal-sync"],
        "NotUnderstood",
    ),
];

static CHECK_WORDS: [(&[&str], &str); 21] = [
    (
        &["audit", "--members", "3", "a", "b c"],
        "Audit(AuditWords { members: \"3\", journals: [\"a\", \"b c\"], counts: false })",
    ),
    (
        &["audit", "--members", "3", "--counts", "a"],
        "Audit(AuditWords { members: \"3\", journals: [\"a\"], counts: true })",
    ),
    (&["audit", "--members", "3"], "NotUnderstood"),
    (&["audit", "a"], "NotUnderstood"),
    (
        &["check", "a plan.toml"],
        "Check(CheckWords { path: \"a plan.toml\", form: None })",
    ),
    (
        &["check", "--plan", "plan.toml"],
        "Check(CheckWords { path: \"plan.toml\", form: Some(Plan) })",
    ),
    (
        &["check", "script.toml", "--script"],
        "Check(CheckWords { path: \"script.toml\", form: Some(Script) })",
    ),
    (&["check", "a.toml", "--plan", "--script"], "NotUnderstood"),
    (
        &["check", "--store", "a folder"],
        "CheckStore(StoreWords { folder: \"a folder\" })",
    ),
    (&["check", "a.toml", "--store", "a folder"], "NotUnderstood"),
    (&["check", "--plan", "--store", "a folder"], "NotUnderstood"),
    (&["check"], "NotUnderstood"),
    (
        &["capture", "plan.toml"],
        "Capture(CaptureWords { plan: \"plan.toml\" })",
    ),
    (&["capture"], "NotUnderstood"),
    (
        &["stats", "plan.toml"],
        "Stats(StatsWords { plan: \"plan.toml\" })",
    ),
    (
        &["stats", "plan.toml", "--json"],
        "StatsAsJson(StatsWords { plan: \"plan.toml\" })",
    ),
    (&["stats"], "NotUnderstood"),
    (
        &["script", "--members", "3"],
        "Script(ScriptWords { members: \"3\", plan: None, seed: 0, lose: 0, repeat: 0, crashes: 0, takeovers: 0, modems: None })",
    ),
    (
        &[
            "script",
            "--members",
            "5",
            "--plan",
            "p.toml",
            "--seed",
            "7",
            "--lose",
            "10",
            "--repeat",
            "20",
            "--crash",
            "2",
            "--takeover",
            "3",
            "--modems",
            "50,51",
        ],
        "Script(ScriptWords { members: \"5\", plan: Some(\"p.toml\"), seed: 7, lose: 10, repeat: 20, crashes: 2, takeovers: 3, modems: Some(\"50,51\") })",
    ),
    (&["script"], "NotUnderstood"),
    (
        &["script", "--members", "3", "--lose", "101"],
        "NotUnderstood",
    ),
];

static OTHER_WORDS: [(&[&str], &str); 22] = [
    (&[], "NotUnderstood"),
    (&["maps"], "NotUnderstood"),
    (&["show"], "NotUnderstood"),
    (&["run"], "NotUnderstood"),
    (&["maps", "one", "two"], "NotUnderstood"),
    (&["maps", "plan.toml", "--verbose"], "NotUnderstood"),
    (&["run", "script.toml", "--store"], "NotUnderstood"),
    (
        &["draw", "script.toml"],
        "Draw(DrawWords { path: \"script.toml\", subject: Run, events: (0, None) })",
    ),
    (
        &["draw", "script.toml", "--from", "5", "--to", "9"],
        "Draw(DrawWords { path: \"script.toml\", subject: Run, events: (5, Some(9)) })",
    ),
    (
        &["draw", "script.toml", "--maps", "--to", "9"],
        "NotUnderstood",
    ),
    (&["live"], "NotUnderstood"),
    (&["live", "plan.toml", "--turns"], "NotUnderstood"),
    (&["live", "plan.toml", "--turns", "many"], "NotUnderstood"),
    (&["live", "plan.toml", "--turns=-1"], "NotUnderstood"),
    (
        &["live", "plan.toml", "--turns", "1000001"],
        "NotUnderstood",
    ),
    (&["node", "0"], "NotUnderstood"),
    (&["node", "--members", "3"], "NotUnderstood"),
    (&["host", "0", "--places", "5"], "NotUnderstood"),
    (&["--help"], "Done"),
    (&["node", "--help"], "Done"),
    (&["run", "--help"], "Done"),
    (&["--version"], "Done"),
];

/// The words of each row are read as it says.
fn are_read_so(rt: &impl Abort, alloc: Global, rows: &[(&[&str], &str)]) -> Result<(), Fail> {
    for (words, want) in rows {
        assert_eq!(rt; read_as(alloc, words)?.as_str(), *want, "{words:?}");
    }
    Ok(())
}

#[test]
fn words_that_show_and_run(rt: HostRuntime) -> Result<(), Fail> {
    are_read_so(&rt, rt.alloc(), &RUN_WORDS)
}

#[test]
fn words_of_nodes(rt: HostRuntime) -> Result<(), Fail> {
    are_read_so(&rt, rt.alloc(), &NODE_WORDS)
}

#[test]
fn words_of_hosts(rt: HostRuntime) -> Result<(), Fail> {
    are_read_so(&rt, rt.alloc(), &HOST_WORDS)
}

#[test]
fn words_that_check_and_make(rt: HostRuntime) -> Result<(), Fail> {
    are_read_so(&rt, rt.alloc(), &CHECK_WORDS)
}

#[test]
fn other_words(rt: HostRuntime) -> Result<(), Fail> {
    are_read_so(&rt, rt.alloc(), &OTHER_WORDS)
}

/// Whether words that name no command print this among other things on standard output.
fn prints(alloc: Global, words: &[&str], part: &str) -> Result<bool, Fail> {
    let mut output = Vec::new(alloc);
    let given = listed(alloc, words)?;
    if let Err(error) = read_words(alloc, given.as_slice()) {
        let _ = refused(&error, &mut output, &mut io::sink());
    }
    Ok(std::str::from_utf8(output.as_slice())?.contains(part))
}

/// Words, and a part of what they print.
static PARTS: [(&[&str], &str); 4] = [
    (&["--version"], "upsched 0.1.0\n"),
    (
        &["run", "--help"],
        "on standard error; what is printed stays the same",
    ),
    (&["--help"], "docs/formats.md"),
    (&["--help"], "docs/node.md"),
];

#[test]
fn help_and_version(rt: HostRuntime) -> Result<(), Fail> {
    for (words, part) in &PARTS {
        assert!(rt; prints(rt.alloc(), words, part)?, "{part}");
    }
    Ok(())
}

const SCRIPT: &str =
    "members = 3\nevent = [{kind = 'deliver', letter = 0}, {kind = 'offer', node = 2, value = '00'}]";

const PRINTED: &[u8] =
    b"0 refused 1 NoLetter\n1 fault 1 NotLeading\nletters 0 outputs 0 transmissions 0\n";

#[test]
fn faults_are_logged(rt: HostRuntime) {
    for verbose in [false, true] {
        let logged = Logged::new(&rt, Level::Info, Memory::new(rt.alloc()));
        let words = RunWords {
            script: "script.toml",
            verbose,
            store: None,
        };
        let mut output = Vec::new(rt.alloc());
        let mut errors = Vec::new(rt.alloc());
        let mut script = SCRIPT.as_bytes();
        let status = run_script(&logged, &mut script, &words, &mut output, &mut errors);
        assert_eq!(rt; status, Status::Done);
        assert_eq!(rt; output.as_slice(), PRINTED);
        assert!(rt; errors.is_empty());
        let (_, sink) = logged.into_parts();
        assert_eq!(rt; sink.into_lines().len(), usize::from(verbose));
    }
}
