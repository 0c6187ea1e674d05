//! The commands of the program, and the words that each takes.

use Beside::{Any, NoneOf, Only};
use Given::{Flag, MaybeNumber, NeededValue, Number, Place, PlaceWithout, Places, Value};
use Numbers::{Counts, Percents, Seeds, Turns};

/// The numbers that an option may have.
#[derive(Clone, Copy)]
pub(crate) enum Numbers {
    /// 0 to 100.
    Percents,
    /// 0 to 1,000,000.
    Turns,
    /// Those of 32 bits.
    Counts,
    /// Those of 64 bits.
    Seeds,
}

/// How an argument is given.
#[derive(Clone, Copy)]
pub(crate) enum Given {
    /// At its place, where it has to be.
    Place,
    /// At its place and those behind it, once or more.
    Places,
    /// At its place, where it has to be unless this option is there.
    PlaceWithout(&'static str),
    /// By its name alone.
    Flag,
    /// By its name and a value, which the help calls so.
    Value(&'static str),
    /// The same, and it has to be there.
    NeededValue(&'static str),
    /// By its name and one of these numbers, which the help calls so.
    MaybeNumber(&'static str, Numbers),
    /// The same. It is the last one where the words don't say.
    Number(&'static str, Numbers, &'static str),
}

/// Beside what an argument may be there.
#[derive(Clone, Copy)]
pub(crate) enum Beside {
    Any,
    /// Beside none of these.
    NoneOf(&'static [&'static str]),
    /// Not without this one, or without one of this group.
    Only(&'static str),
}

/// An argument of a command: its name, how it is given, beside what, and what the help says of it.
#[derive(Clone, Copy)]
pub(crate) struct Argument(pub &'static str, pub Given, pub Beside, pub &'static str);

/// Arguments of which one at most may be there, under a name.
#[derive(Clone, Copy)]
pub(crate) struct Group {
    pub name: &'static str,
    pub arguments: &'static [&'static str],
}

/// A command.
#[derive(Clone, Copy)]
pub(crate) struct Usage {
    pub name: &'static str,
    pub about: &'static str,
    /// What its help ends with.
    pub example: Option<&'static str>,
    pub arguments: &'static [Argument],
    pub group: Option<Group>,
}

/// Percents, seeds and counts of `script` where the words don't say.
const NONE_GIVEN: &str = "0";

/// What the help says of the flag with which a command prints JSON.
const JSON_HELP: &str = "Prints JSON, an object a line (docs/formats.md, \"JSON lines\")";

/// The path of a plan.
const PLAN: Argument = Argument(
    "PLAN",
    Place,
    Any,
    "A file of commands in TOML (docs/formats.md, \"Plans\")",
);

/// The flag with which a command prints JSON.
const JSON: Argument = Argument("json", Flag, Any, JSON_HELP);

/// How many nodes there are.
const MEMBERS: Argument = Argument(
    "members",
    NeededValue("M"),
    Any,
    "How many nodes there are, 3 or 5",
);

/// The file of a journal.
const JOURNAL: Argument = Argument(
    "journal",
    Value("FILE"),
    Any,
    "Appends each line to this file before it is obeyed, and its reply before it goes out",
);

/// The flag with which a journal is synced.
const JOURNAL_SYNC: Argument = Argument(
    "journal-sync",
    Flag,
    Only("journal"),
    "Syncs the journal behind each line and each reply, for where the power may fail",
);

const MAPS: Usage = Usage {
    name: "maps",
    about: "Applies a plan's commands to one scheduler and prints their outputs",
    example: Some("Example: upsched maps examples/plans/refusals.toml --names"),
    arguments: &[
        PLAN,
        Argument(
            "names",
            Flag,
            NoneOf(&["json"]),
            "Also prints of each refusal its name, and which value it is and what it may be",
        ),
        JSON,
    ],
    group: None,
};

const RESUME: Usage = Usage {
    name: "resume",
    about: "Applies a plan's commands as maps does, from the tables of a file on, and leaves the tables in a file",
    example: Some(
        "Example: upsched resume examples/parts/day_one.toml --to day.rows && upsched resume examples/parts/day_two.toml --from day.rows",
    ),
    arguments: &[
        PLAN,
        Argument(
            "from",
            Value("FILE"),
            Any,
            "Begins at the tables of this file, which --to left; without it no channel is set",
        ),
        Argument(
            "to",
            Value("FILE"),
            Any,
            "Leaves the tables behind the plan in this file, whole or not at all; it may be that of --from",
        ),
    ],
    group: None,
};

const RUN: Usage = Usage {
    name: "run",
    about: "Runs a script over three or five nodes and their modems and prints its answers",
    example: Some("Example: upsched run examples/scripts/one_leader.toml --trace"),
    arguments: &[
        Argument(
            "SCRIPT",
            Place,
            Any,
            "A file of events in TOML (docs/formats.md, \"Scripts\", and docs/node.md, \"Events\")",
        ),
        Argument(
            "store",
            Value("DIR"),
            Any,
            "Keeps the records of node K in DIR/node-K.db, a SQLite database that is made if it isn't there",
        ),
        Argument(
            "trace",
            Flag,
            Any,
            "Also prints for each event its letters, by the numbers that deliver takes, and what its node does from then on",
        ),
        Argument(
            "names",
            Flag,
            Only("trace"),
            "Also prints behind each value of a letter the command that it spells, as JSON has it by itself",
        ),
        Argument(
            "verbose",
            Flag,
            Any,
            "Also logs each fault and crash of a node, and why files are refused, on standard error; what is printed stays the same",
        ),
        Argument("json", Flag, NoneOf(&["verbose"]), JSON_HELP),
        Argument(
            "plain",
            Flag,
            NoneOf(&["store", "trace", "verbose", "json"]),
            "Prints the script instead, with the number of each letter that it names",
        ),
    ],
    group: None,
};

const CHECK: Usage = Usage {
    name: "check",
    about: "Tells whether a plan or a script is good and, if not, what is wrong where",
    example: Some("Example: upsched check examples/faults/plans/key_missing.toml"),
    arguments: &[
        Argument(
            "FILE",
            PlaceWithout("store"),
            Any,
            "A plan or a script in TOML (docs/formats.md); a script is known by its keys",
        ),
        Argument(
            "plan",
            Flag,
            Any,
            "Looks at it as a plan, whatever its keys",
        ),
        Argument(
            "script",
            Flag,
            NoneOf(&["plan"]),
            "Looks at it as a script, whatever its keys",
        ),
        Argument(
            "store",
            Value("DIR"),
            NoneOf(&["FILE", "plan", "script"]),
            "Tells of each DIR/node-K.db whether it is fresh, used, foreign, locked or of another node",
        ),
    ],
    group: None,
};

const CAPTURE: Usage = Usage {
    name: "capture",
    about: "Writes a plan's MAPs as DOCSIS frames, in a capture file that Wireshark opens",
    example: Some("Example: upsched capture examples/plans/first_grant.toml > maps.pcap"),
    arguments: &[PLAN],
    group: None,
};

const STATS: Usage = Usage {
    name: "stats",
    about: "Prints what a plan's MAPs give, by channel, by use (IUC) and by SID",
    example: Some("Example: upsched stats examples/plans/voice_and_poll.toml"),
    arguments: &[PLAN, JSON],
    group: None,
};

const SCRIPT: Usage = Usage {
    name: "script",
    about: "Makes a script that runs as the words say, and prints it",
    example: Some(
        "Example: upsched script --members 3 --plan examples/plans/polls.toml --takeover 1",
    ),
    arguments: &[
        Argument(
            "seed",
            Number("S", Seeds, NONE_GIVEN),
            Any,
            "Which of the many such scripts it is",
        ),
        Argument(
            "lose",
            Number("P", Percents, NONE_GIVEN),
            Any,
            "How many letters in a hundred are lost",
        ),
        Argument(
            "repeat",
            Number("P", Percents, NONE_GIVEN),
            Any,
            "How many letters in a hundred come again",
        ),
        Argument(
            "crash",
            Number("N", Counts, NONE_GIVEN),
            Any,
            "How many times a node crashes",
        ),
        Argument(
            "takeover",
            Number("N", Counts, NONE_GIVEN),
            Any,
            "How many times another node takes over, fewer than the plan has commands",
        ),
        MEMBERS,
        Argument(
            "plan",
            Value("PLAN"),
            Any,
            "A plan whose commands are offered in order (docs/formats.md, \"Plans\")",
        ),
        Argument(
            "modems",
            Value("IDS"),
            Any,
            "The ids of modems that hear, want and tick, as in 50,51",
        ),
    ],
    group: None,
};

const DRAW: Usage = Usage {
    name: "draw",
    about: "Draws what happens in a script, or the MAPs of a plan or a script, as a picture (SVG)",
    example: Some("Example: upsched draw examples/scripts/takeover.toml > takeover.svg"),
    arguments: &[
        Argument(
            "FILE",
            Place,
            Any,
            "A script in TOML, or a plan where --plan says so (docs/formats.md)",
        ),
        Argument(
            "plan",
            Flag,
            Any,
            "Draws the MAPs of a plan, and what became of its requests",
        ),
        Argument(
            "maps",
            Flag,
            Any,
            "Draws the MAPs of the commands that nodes learn in a script",
        ),
        Argument(
            "text",
            Flag,
            Only("MAPS"),
            "Prints these MAPs for a terminal of 100 columns",
        ),
        Argument(
            "from",
            MaybeNumber("A", Seeds),
            NoneOf(&["plan", "maps"]),
            "Draws a script from event A on; what was sent before comes from the upper edge",
        ),
        Argument(
            "to",
            MaybeNumber("B", Seeds),
            NoneOf(&["plan", "maps"]),
            "Draws a script up to event B",
        ),
    ],
    group: Some(Group {
        name: "MAPS",
        arguments: &["plan", "maps"],
    }),
};

const SHOW: Usage = Usage {
    name: "show",
    about: "Prints what a MAP body holds",
    example: Some(
        "Example: upsched show 01070300000003e8000003e30205030800058000fffc40140001c064 --names",
    ),
    arguments: &[
        Argument(
            "HEX",
            Place,
            Any,
            "A MAP body in hexadecimal, without spaces",
        ),
        Argument(
            "names",
            Flag,
            NoneOf(&["json"]),
            "Also prints the name of each element's use (IUC), behind its number",
        ),
        JSON,
    ],
    group: None,
};

const LIVE: Usage = Usage {
    name: "live",
    about: "Has three nodes, each in a thread, work on a plan's commands and audits their records",
    example: None,
    arguments: &[
        PLAN,
        Argument(
            "turns",
            Number("T", Turns, "2000"),
            Any,
            "How many turns each node has, 0 to 1000000; one that finds nothing to do sleeps a millisecond",
        ),
        Argument(
            "verbose",
            Flag,
            Any,
            "Also logs on standard error what each node recorded and learned; what is printed stays the same",
        ),
    ],
    group: None,
};

const SCHEDULER: Usage = Usage {
    name: "scheduler",
    about: "Is one scheduler that applies the commands on standard input and replies to each line",
    example: Some("Example: echo apply 00 | upsched scheduler"),
    arguments: &[JSON],
    group: None,
};

const NODE: Usage = Usage {
    name: "node",
    about: "Is one node that reads lines on standard input and replies to each",
    example: Some("Example: upsched node 0 --members 3 --store node-0.db --new"),
    arguments: &[
        Argument("K", Place, Any, "The node's number, from 0 on and below M"),
        MEMBERS,
        Argument(
            "store",
            Value("FILE"),
            Any,
            "Keeps its records in this SQLite database; without it they are in memory, and end with the process",
        ),
        Argument(
            "new",
            Flag,
            Only("store"),
            "Begins with a new database; one that has this node's tables, even with nothing in them, is refused",
        ),
        JOURNAL,
        JOURNAL_SYNC,
    ],
    group: None,
};

const HOST: Usage = Usage {
    name: "host",
    about: "Is one member of a log that goes on, which reads lines on standard input and replies to each",
    example: Some("Example: echo release 0 | upsched host 0 --members 3 --places 5"),
    arguments: &[
        Argument("K", Place, Any, "The host's number, from 0 on and below M"),
        MEMBERS,
        Argument(
            "places",
            Value("P"),
            Any,
            "How many places of each epoch count, the same for all hosts, 1 to 999000; 65536 where it isn't given",
        ),
        Argument(
            "store",
            Value("DIR"),
            Any,
            "Keeps its records and its state in this folder; without it they are in memory, and end with the process",
        ),
        Argument(
            "new",
            Flag,
            Only("store"),
            "Begins as a new host; a folder that has a state, or records of anything, is refused",
        ),
        Argument(
            "join",
            Flag,
            Only("store"),
            "Waits for a state to begin by, which the line join gives; a folder that has one is refused",
        ),
        JOURNAL,
        JOURNAL_SYNC,
    ],
    group: Some(Group {
        name: "START",
        arguments: &["new", "join"],
    }),
};

const AUDIT: Usage = Usage {
    name: "audit",
    about: "Tells whether journals are the lines of nodes that kept the rules",
    example: Some(
        "Example: upsched audit --members 3 node-0.journal node-1.journal node-2.journal",
    ),
    arguments: &[
        MEMBERS,
        Argument(
            "JOURNAL",
            Places,
            Any,
            "The journal of each node, that of node 0 first",
        ),
        Argument(
            "counts",
            Flag,
            Any,
            "Prints how many lives and lines each journal holds, too",
        ),
    ],
    group: None,
};

/// The commands, in the order in which the help tells of them.
pub(crate) const USAGES: [Usage; 14] = [
    MAPS, RESUME, RUN, CHECK, CAPTURE, STATS, SCRIPT, DRAW, SHOW, LIVE, SCHEDULER, NODE, HOST,
    AUDIT,
];
