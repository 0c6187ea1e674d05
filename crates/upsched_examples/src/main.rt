//! Runs each example of the folders below as the program would, and tells which prints anything
//! but what stands beside it: `NAME.stdout` where all goes well, `NAME.stderr` where it faults. Parts of plans leave the
//! tables that stand beside them too, from those of the part that `NAME.from` names. Scripts
//! run a second time with `--store` and a third time over files in memory, plans of `live` with fewer turns and
//! `--verbose`, and plans with a fault by `live` too. `check --store` is run on folders of databases.
#![tactic(auto)]

mod in_memory;
mod run;
mod stores;

use in_memory::run_in_memory;
use run::{Beside, Run, Wanted, is_as_wanted};
use std::alloc::{AllocError, Global};
use std::io::Write;
use std::path::AsPath;
use std::process::ExitCode;
use std::sync::Wait;
use std::thread::Threads;
use std::time::Clock;
use std::{fs, io};
use stores::{EMPTY, STRANGE, VOTED, make_folders, strange_stays};
use upsched_commands::run_words;
use upsched_ends::Status;

/// What the examples of a folder are.
#[derive(Clone, Copy)]
enum Kind {
    Plan,
    Script,
    ScriptWithFault,
    Body,
    Lines,
    SchedulerLines,
    Live,
    LiveWithFault,
    Part,
    RowsWithFault,
}

/// A folder of examples.
#[derive(Clone, Copy)]
struct Folder {
    path: &'static str,
    kind: Kind,
    /// What an example's name ends with.
    ending: &'static str,
}

const FOLDERS: [Folder; 13] = [
    Folder {
        path: "plans",
        kind: Kind::Plan,
        ending: ".toml",
    },
    Folder {
        path: "scripts",
        kind: Kind::Script,
        ending: ".toml",
    },
    Folder {
        path: "exercises",
        kind: Kind::Script,
        ending: ".toml",
    },
    Folder {
        path: "bodies",
        kind: Kind::Body,
        ending: ".hex",
    },
    Folder {
        path: "nodes",
        kind: Kind::Lines,
        ending: ".lines",
    },
    Folder {
        path: "schedulers",
        kind: Kind::SchedulerLines,
        ending: ".lines",
    },
    Folder {
        path: "faults/plans",
        kind: Kind::Plan,
        ending: ".toml",
    },
    Folder {
        path: "live",
        kind: Kind::Live,
        ending: ".toml",
    },
    Folder {
        path: "faults/plans",
        kind: Kind::LiveWithFault,
        ending: ".toml",
    },
    Folder {
        path: "faults/scripts",
        kind: Kind::ScriptWithFault,
        ending: ".toml",
    },
    Folder {
        path: "faults/bodies",
        kind: Kind::Body,
        ending: ".hex",
    },
    Folder {
        path: "parts",
        kind: Kind::Part,
        ending: ".toml",
    },
    Folder {
        path: "faults/rows",
        kind: Kind::RowsWithFault,
        ending: ".rows",
    },
];

/// The node that replies to lines.
const NODE: [&str; 4] = ["node", "0", "--members", "3"];

/// The file in which a part leaves its tables.
const LEFT: &str = "left.rows";

/// Folders in which no run can keep its records, and what a run tells of them.
const REFUSED: [(&str, &str); 5] = [
    ("scripts/one_leader.store", "upsched: store not fresh\n"),
    ("no_folder", "upsched: store\n"),
    ("scripts/one_leader.toml", "upsched: store\n"),
    (STRANGE, "upsched: store\n"),
    (VOTED, "upsched: store not fresh\n"),
];

/// Folders, how `check --store` ends with them, and what it prints.
const SURVEYED: [(&str, Status, &str); 4] = [
    (
        STRANGE,
        Status::Faulted,
        "strange.store/node-1.db: log missing: strange.store/node-1.db-wal isn't there\n",
    ),
    (
        VOTED,
        Status::Faulted,
        "voted.store/node-0.db: log missing: voted.store/node-0.db-wal isn't there\n",
    ),
    (
        "fresh.store",
        Status::Done,
        "fresh.store/node-0.db: fresh\n",
    ),
    (EMPTY, Status::Faulted, "empty.store: no file of a node\n"),
];

/// The words of a command line, the program's own name first.
fn words_given(alloc: Global, words: &[&str]) -> Result<Vec<String>, AllocError> {
    let mut given = Vec::new(alloc);
    given.push(String::from_str(alloc, "upsched")?)?;
    for word in words {
        given.push(String::from_str(alloc, word)?)?;
    }
    Ok(given)
}

/// What the program runs on: its files, and what makes its threads.
#[derive(Clone, Copy)]
struct Host<'a, T> {
    rt: &'a HostRuntime,
    threads: &'a T,
}

impl<T: Threads + Wait + Clock + Sync + AllocGlobal> Host<'_, T> {
    /// What the program does with these words and this standard input.
    fn run_of(&self, words: &[&str], input: &[u8]) -> io::Result<Run> {
        let alloc = self.rt.alloc();
        let given = words_given(alloc, words)?;
        let mut output = Vec::new(alloc);
        let mut errors = Vec::new(alloc);
        let status = run_words(
            self.rt,
            self.threads,
            given.as_slice(),
            input,
            &mut output,
            &mut errors,
        );
        Ok(Run {
            status,
            output,
            errors,
        })
    }

    /// Whether the program does so with these words and this standard input. It is told where it doesn't.
    fn agrees_on<O: Write>(
        &self,
        words: &[&str],
        input: &[u8],
        wanted: Wanted<'_>,
        output: &mut O,
    ) -> io::Result<bool> {
        let run = self.run_of(words, input)?;
        is_as_wanted(words, &run, wanted, output)
    }

    /// The same without standard input.
    fn agrees<O: Write>(
        &self,
        words: &[&str],
        wanted: Wanted<'_>,
        output: &mut O,
    ) -> io::Result<bool> {
        self.agrees_on(words, &[], wanted, output)
    }

    /// Whether a script prints so with records in memory, in a new folder, and in tables in memory.
    fn script_agrees<O: Write>(
        &self,
        path: &str,
        stem: &str,
        wanted: Wanted<'_>,
        output: &mut O,
    ) -> io::Result<bool> {
        let mut agree = self.agrees(&["run", path], wanted, output)?;
        let folder = format!(in self.rt.alloc(); "{stem}.store")?;
        fs::create_dir(self.rt, folder.as_str())?;
        let stored = ["run", path, "--store", folder.as_str()];
        agree &= self.agrees(stored.as_slice(), wanted, output)?;
        let run = run_in_memory(self.rt, path)?;
        agree &= is_as_wanted(&[path, "over tables in memory"], &run, wanted, output)?;
        Ok(agree)
    }

    /// Whether the body whose digits are in a file prints so.
    fn body_agrees<O: Write>(
        &self,
        path: &str,
        wanted: Wanted<'_>,
        output: &mut O,
    ) -> io::Result<bool> {
        let digits = fs::read_to_string(self.rt, path)?;
        self.agrees(&["show", digits.trim_end()], wanted, output)
    }

    /// Whether the program that these words name replies so to the lines of a file.
    fn lines_agree<O: Write>(
        &self,
        words: &[&str],
        path: &str,
        wanted: Wanted<'_>,
        output: &mut O,
    ) -> io::Result<bool> {
        let lines = fs::read(self.rt, path)?;
        self.agrees_on(words, lines.as_slice(), wanted, output)
    }

    /// Whether a plan prints so by `live`, also with fewer turns.
    fn live_agrees<O: Write>(
        &self,
        path: &str,
        wanted: Wanted<'_>,
        output: &mut O,
    ) -> io::Result<bool> {
        let mut agree = self.agrees(&["live", path], wanted, output)?;
        let words = ["live", path, "--turns", "200", "--verbose"];
        agree &= self.agrees(words.as_slice(), wanted, output)?;
        Ok(agree)
    }

    /// What a part of a plan prints and leaves, behind the tables that `NAME.from` names where it is there.
    fn part_of(&self, path: &str, stem: &str) -> io::Result<Run> {
        let named = format!(in self.rt.alloc(); "{stem}.from")?;
        if !fs::exists(self.rt, named.as_str())? {
            return self.run_of(&["resume", path, "--to", LEFT], &[]);
        }
        let from = fs::read_to_string(self.rt, named.as_str())?;
        let words = ["resume", path, "--from", from.trim_end(), "--to", LEFT];
        self.run_of(words.as_slice(), &[])
    }

    /// Whether a part of a plan prints so, and leaves the tables that stand beside it.
    fn part_agrees<O: Write>(
        &self,
        path: &str,
        stem: &str,
        wanted: Wanted<'_>,
        output: &mut O,
    ) -> io::Result<bool> {
        let run = self.part_of(path, stem)?;
        let mut agree = is_as_wanted(&["resume", path], &run, wanted, output)?;
        let rows = format!(in self.rt.alloc(); "{stem}.rows")?;
        if fs::read(self.rt, rows.as_str())? != fs::read(self.rt, LEFT)? {
            writeln!(output, "{path} leaves other tables")?;
            agree = false;
        }
        Ok(agree)
    }

    /// Whether a file of tables is refused so.
    fn rows_agree<O: Write>(
        &self,
        path: &str,
        wanted: Wanted<'_>,
        output: &mut O,
    ) -> io::Result<bool> {
        let words = ["resume", "parts/day_two.toml", "--from", path];
        self.agrees(words.as_slice(), wanted, output)
    }

    /// Whether the example of this path, which is this one without its ending, prints what stands beside it.
    fn example_agrees<O: Write>(
        &self,
        kind: Kind,
        path: &str,
        stem: &str,
        output: &mut O,
    ) -> io::Result<bool> {
        let beside = Beside::read(self.rt, stem)?;
        let wanted = beside.wanted();
        match kind {
            Kind::Plan => self.agrees(&["maps", path], wanted, output),
            Kind::Script => self.script_agrees(path, stem, wanted, output),
            Kind::ScriptWithFault => self.agrees(&["run", path], wanted, output),
            Kind::Body => self.body_agrees(path, wanted, output),
            Kind::Lines => self.lines_agree(&NODE, path, wanted, output),
            Kind::SchedulerLines => self.lines_agree(&["scheduler"], path, wanted, output),
            Kind::Live => self.live_agrees(path, wanted, output),
            Kind::LiveWithFault => self.agrees(&["live", path], wanted, output),
            Kind::Part => self.part_agrees(path, stem, wanted, output),
            Kind::RowsWithFault => self.rows_agree(path, wanted, output),
        }
    }

    /// Whether a folder has examples and all of them agree.
    fn folder_agrees<O: Write>(&self, folder: Folder, output: &mut O) -> io::Result<bool> {
        let mut has_examples = false;
        let mut all_agree = true;
        for entry in fs::read_dir(self.rt, folder.path)? {
            let entry = entry?;
            let path = entry.path();
            let path = path.path_text();
            if let Some(stem) = path.strip_suffix(folder.ending) {
                has_examples = true;
                all_agree &= self.example_agrees(folder.kind, path, stem, output)?;
            }
        }
        if !has_examples {
            writeln!(output, "{} has no example", folder.path)?;
        }
        Ok(has_examples && all_agree)
    }

    /// Whether the one script is refused so with this folder.
    fn is_refused<O: Write>(&self, folder: &str, line: &str, output: &mut O) -> io::Result<bool> {
        let words = ["run", "scripts/one_leader.toml", "--store", folder];
        let wanted = Wanted::faulted(line.as_bytes());
        self.agrees(words.as_slice(), wanted, output)
    }

    /// Whether `check --store` ends so of a folder.
    fn is_surveyed<O: Write>(
        &self,
        folder: &str,
        status: Status,
        lines: &str,
        output: &mut O,
    ) -> io::Result<bool> {
        let words = ["check", "--store", folder];
        let wanted = Wanted {
            status,
            output: lines.as_bytes(),
            errors: &[],
        };
        self.agrees(words.as_slice(), wanted, output)
    }

    /// Whether folders that can't be used are refused.
    fn refusals_agree<O: Write>(&self, output: &mut O) -> io::Result<bool> {
        let mut agree = true;
        for (folder, line) in REFUSED {
            agree &= self.is_refused(folder, line, output)?;
        }
        Ok(agree)
    }

    /// Whether a database of version 1 is used where it is a fresh node's.
    fn older_store_agrees<O: Write>(&self, output: &mut O) -> io::Result<bool> {
        let words = ["run", "scripts/one_leader.toml", "--store", "older.store"];
        let beside = Beside::read(self.rt, "scripts/one_leader")?;
        self.agrees(words.as_slice(), beside.wanted(), output)
    }

    /// Whether `check --store` tells what the files of these folders are.
    fn surveys_agree<O: Write>(&self, output: &mut O) -> io::Result<bool> {
        let mut agree = true;
        for (folder, status, lines) in SURVEYED {
            agree &= self.is_surveyed(folder, status, lines, output)?;
        }
        Ok(agree)
    }

    /// Whether folders of databases are used, refused and told of so.
    fn stores_agree<O: Write>(&self, output: &mut O) -> io::Result<bool> {
        make_folders(self.rt)?;
        let mut agree = self.refusals_agree(output)?;
        agree &= self.older_store_agrees(output)?;
        agree &= self.surveys_agree(output)?;
        Ok(agree)
    }

    fn all_agree<O: Write>(&self, output: &mut O) -> io::Result<bool> {
        let mut agree = true;
        for folder in FOLDERS {
            agree &= self.folder_agrees(folder, output)?;
        }
        agree &= self.stores_agree(output)?;
        if !strange_stays(self.rt)? {
            writeln!(output, "files were left in {STRANGE}")?;
            agree = false;
        }
        Ok(agree)
    }
}

fn main(rt: HostRuntime) -> ExitCode {
    let mut output = rt.stdout();
    let host = Host {
        rt: &rt,
        threads: &rt,
    };
    match host.all_agree(&mut output) {
        Ok(true) => {
            let _ = writeln!(output, "each example prints what stands beside it");
            ExitCode::SUCCESS
        }
        Ok(false) => ExitCode::FAILURE,
        Err(error) => {
            let _ = writeln!(output, "an example can't be run: {error}");
            ExitCode::FAILURE
        }
    }
}
