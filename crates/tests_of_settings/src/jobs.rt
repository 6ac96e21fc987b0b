//! Words on the command line, and the jobs that they ask for.
use procure_config::fault::exit_code;
use procure_config::job::{Job, job_of};
use std::alloc::Global;

// A version of the program.
const VERSION: &str = "1.2.3";

// Words, with the job that they ask for.
type Asked<'a> = (&'a [&'a str], Job<'a>);

// Words that ask for a desk.
const DESKS: &[Asked<'_>] = &[(
    &["procure", "desk", "office.toml"],
    Job::Desk {
        config: "office.toml",
    },
)];

// Words that ask to serve an office.
const SERVED: &[Asked<'_>] = &[
    (
        &["procure", "serve", "office.toml", "office.db", "1", "1"],
        Job::Serve {
            config: "office.toml",
            store: "office.db",
            port: 1,
            count: 1,
        },
    ),
    (
        &[
            "procure",
            "serve",
            "office.toml",
            "office.db",
            "65535",
            "1000000",
        ],
        Job::Serve {
            config: "office.toml",
            store: "office.db",
            port: 65535,
            count: 1_000_000,
        },
    ),
    (
        &[
            "procure",
            "serve",
            "office.toml",
            "office.db",
            "+8080",
            "007",
        ],
        Job::Serve {
            config: "office.toml",
            store: "office.db",
            port: 8080,
            count: 7,
        },
    ),
];

// Words that ask for a text about a whole office.
const LEDGERS: &[Asked<'_>] = &[
    (
        &["procure", "ledger", "office.toml", "office.db"],
        Job::Ledger {
            config: "office.toml",
            store: "office.db",
        },
    ),
    (
        &["procure", "notices", "office.toml", "office.db"],
        Job::Notices {
            config: "office.toml",
            store: "office.db",
        },
    ),
];

// Words that ask for a text about a notice.
const PAPERS: &[Asked<'_>] = &[
    (
        &["procure", "minutes", "office.toml", "office.db", "N1"],
        Job::Minutes {
            config: "office.toml",
            store: "office.db",
            notice: "N1",
        },
    ),
    (
        &["procure", "record", "office.toml", "office.db", "no id"],
        Job::Record {
            config: "office.toml",
            store: "office.db",
            notice: "no id",
        },
    ),
    (
        &["procure", "evaluation", "office.toml", "office.db", "N1"],
        Job::Evaluation {
            config: "office.toml",
            store: "office.db",
            notice: "N1",
        },
    ),
];

// Words that ask what the office reads in a file.
const FILES: &[Asked<'_>] = &[
    (
        &["procure", "read-tender", "lot.json", "tender.csv"],
        Job::ReadTender {
            items: "lot.json",
            file: "tender.csv",
        },
    ),
    (
        &["procure", "read-budget", "budget.csv"],
        Job::ReadBudget { file: "budget.csv" },
    ),
];

// Words that ask for no job, each with a part of the reported text.
const NO_JOBS: &[(&[&str], &str)] = &[
    (&[], "Usage: procure <COMMAND>"),
    (&["procure"], "Usage: procure <COMMAND>"),
    (&["procure", "--help"], "A public procurement office"),
    (&["procure", "help"], "A public procurement office"),
    (&["procure", "--help"], "Print version"),
    (&["procure", "--version"], "procure 1.2.3\n"),
    (&["procure", "-V"], "procure 1.2.3\n"),
    (
        &["procure", "ledger", "--version"],
        "unexpected argument '--version'",
    ),
    (&["procure", "desk"], "<CONFIG>"),
    (&["procure", "desk", "--help"], "a TOML file"),
    (&["procure", "shop", "a"], "unrecognized subcommand 'shop'"),
    (&["procure", "desk", "a", "b"], "unexpected argument 'b'"),
    (&["procure", "-x", "desk", "a"], "unexpected argument '-x'"),
    (&["procure", "ledger"], "<DB>"),
    (&["procure", "ledger", "a"], "<DB>"),
    (&["procure", "minutes", "a", "b"], "<NOTICE>"),
    (&["procure", "record", "a", "b"], "<NOTICE>"),
    (&["procure", "notices", "a"], "<DB>"),
    (
        &["procure", "notices", "a", "b", "c"],
        "unexpected argument 'c'",
    ),
    (&["procure", "evaluation", "a", "b"], "<NOTICE>"),
    (&["procure", "read-tender", "a"], "<FILE>"),
    (
        &["procure", "read-budget", "a", "b"],
        "unexpected argument 'b'",
    ),
    (&["procure", "read-tender", "--help"], "lot.json tender.csv"),
    (&["procure", "read-budget", "--help"], "budget.csv"),
];

// Words that ask to serve with a port or a count out of bounds, each with a part of the reported text.
const OUT_OF_BOUNDS: &[(&[&str], &str)] = &[
    (
        &["procure", "serve", "a", "b", "0", "1"],
        "0 is not in 1..=65535",
    ),
    (
        &["procure", "serve", "a", "b", "65536", "1"],
        "65536 is not in 1..=65535",
    ),
    (
        &["procure", "serve", "a", "b", "80", "0"],
        "0 is not in 1..=1000000",
    ),
    (
        &["procure", "serve", "a", "b", "80", "1000001"],
        "1000001 is not in 1..=1000000",
    ),
    (
        &["procure", "serve", "a", "b", "http", "1"],
        "invalid digit",
    ),
    (&["procure", "serve", "a", "b", "80", ""], "empty string"),
    (
        &["procure", "serve", "a", "b", "99999999999999999999", "1"],
        "too large",
    ),
];

// The words of a job in their order, and "" for each that it hasn't.
fn words_of<'a>(job: &Job<'a>) -> (&'a str, &'a str, &'a str) {
    match *job {
        Job::Desk { config } => (config, "", ""),
        Job::Serve { config, store, .. } => (config, store, ""),
        Job::Ledger { config, store } | Job::Notices { config, store } => (config, store, ""),
        Job::Minutes {
            config,
            store,
            notice,
        } => (config, store, notice),
        Job::Record {
            config,
            store,
            notice,
        } => (config, store, notice),
        Job::Evaluation {
            config,
            store,
            notice,
        } => (config, store, notice),
        Job::ReadTender { items, file } => (items, file, ""),
        Job::ReadBudget { file } => (file, "", ""),
    }
}

// The kind of a job, with its port and its count, or 0.
fn numbers_of(job: &Job<'_>) -> (u8, u16, u32) {
    match *job {
        Job::Desk { .. } => (0, 0, 0),
        Job::Serve { port, count, .. } => (1, port, count),
        Job::Ledger { .. } => (2, 0, 0),
        Job::Minutes { .. } => (3, 0, 0),
        Job::Record { .. } => (4, 0, 0),
        Job::Notices { .. } => (5, 0, 0),
        Job::Evaluation { .. } => (6, 0, 0),
        Job::ReadTender { .. } => (7, 0, 0),
        Job::ReadBudget { .. } => (8, 0, 0),
    }
}

fn is_asked(alloc: Global, words: &[&str], wanted: &Job<'_>) -> bool {
    match job_of(alloc, VERSION, words) {
        Ok(job) => words_of(&job) == words_of(wanted) && numbers_of(&job) == numbers_of(wanted),
        Err(_) => false,
    }
}

fn are_asked(alloc: Global, rows: &[Asked<'_>]) -> bool {
    for (words, wanted) in rows {
        if !is_asked(alloc, words, wanted) {
            return false;
        }
    }
    true
}

#[test]
fn asks_for_a_desk(rt: HostRuntime) {
    assert!(rt; are_asked(rt.alloc(), DESKS));
}

#[test]
fn asks_to_serve(rt: HostRuntime) {
    assert!(rt; are_asked(rt.alloc(), SERVED));
}

#[test]
fn asks_for_what_is_of_an_office(rt: HostRuntime) {
    assert!(rt; are_asked(rt.alloc(), LEDGERS));
}

#[test]
fn asks_what_is_read_in_a_file(rt: HostRuntime) {
    assert!(rt; are_asked(rt.alloc(), FILES));
}

#[test]
fn asks_for_papers_of_a_notice(rt: HostRuntime) {
    assert!(rt; are_asked(rt.alloc(), PAPERS));
}

// Whether the words name no job, and this is a part of the reported text. Status 2 is that of `Arguments`, so this isn't too little memory.
fn is_told(alloc: Global, words: &[&str], part: &str) -> bool {
    let Err(fault) = job_of(alloc, VERSION, words) else {
        return false;
    };
    match format!(in alloc; "{fault}") {
        Ok(text) => exit_code(&fault) == 2 && text.as_str().contains(part),
        Err(_) => false,
    }
}

fn are_told(alloc: Global, rows: &[(&[&str], &str)]) -> bool {
    for (words, part) in rows {
        if !is_told(alloc, words, part) {
            return false;
        }
    }
    true
}

#[test]
fn asks_for_no_job(rt: HostRuntime) {
    assert!(rt; are_told(rt.alloc(), NO_JOBS));
}

#[test]
fn serves_within_bounds(rt: HostRuntime) {
    assert!(rt; are_told(rt.alloc(), OUT_OF_BOUNDS));
}
