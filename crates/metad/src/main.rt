//! The volume manager of one host over image files: it reads the table of drives and a script, and
//! tells a reply to each line.
#![tactic(auto)]

mod help;

use mdv_files::{BOOT_ID, FileBench, FileSource, JOURNAL, SystemStart, open_table};
use mdv_run::run;
use mdv_run_law::RunStatus;
use std::fs::File;
use std::io::{self, ErrorKind};
use std::process::ExitCode;
use std::time::{SystemTime, UNIX_EPOCH};
use std::{env, fs};

const TABLE: &str = "drives.tab";

const NOTHING: &str = "/dev/null";

fn main(rt: HostRuntime) -> ExitCode {
    let ending = match fill_descriptors(&rt) {
        Ok(_held) => answer(&rt),
        Err(_) => Ending::of(&rt, RunStatus::ReadFault),
    };
    ending.tell(&rt);
    ExitCode::from(ending.status.number())
}

// How a run ended, and what standard error has behind a failure: what doesn't fit in a faulty use, and the
// drives that were lost from the start.
#[derive(Drop)]
struct Ending {
    status: RunStatus,
    misfit: Option<String>,
    lost: Vec<String>,
}

impl Ending {
    fn of(rt: &HostRuntime, status: RunStatus) -> Ending {
        Ending {
            status,
            misfit: None,
            lost: Vec::new(rt.alloc()),
        }
    }

    fn tell(&self, rt: &HostRuntime) {
        if self.status.is_failure() {
            let _told = rt.eprintln(self.status);
        }
        if let (RunStatus::Usage, Some(misfit)) = (self.status, &self.misfit) {
            let _told = rt.eprintln(misfit.as_str());
        }
        for line in &self.lost {
            let _told = rt.eprintln(line.as_str());
        }
    }
}

// Where the program is begun without standard input, output or error, a file that it opens would take
// that place, and replies would be written into an image. So three files are held that take it first,
// from which nothing comes and to which nothing can be written.
fn fill_descriptors(rt: &HostRuntime) -> io::Result<(File, File, File)> {
    let first = File::open(rt, NOTHING)?;
    let second = File::open(rt, NOTHING)?;
    let third = File::open(rt, NOTHING)?;
    Ok((first, second, third))
}

fn answer(rt: &HostRuntime) -> Ending {
    match words(rt) {
        Ok(words) => answer_words(rt, &words),
        Err(ending) => ending,
    }
}

// The words behind the program's own name.
fn words(rt: &HostRuntime) -> Result<Vec<String>, Ending> {
    let words = env::args(rt).map_err(|error| unread(rt, "words", &error))?;
    words
        .skip(1)
        .collect(rt.alloc())
        .map_err(|_| Ending::of(rt, RunStatus::NoMemory))
}

fn answer_words(rt: &HostRuntime, words: &[String]) -> Ending {
    match page(words) {
        Some(text) => Ending::of(rt, show(rt, text)),
        None => match fs::read(rt, TABLE) {
            Ok(table) => run_with(rt, words, &table),
            Err(error) => unread(rt, TABLE, &error),
        },
    }
}

// What is asked for above a run.
fn page(words: &[String]) -> Option<&'static str> {
    match words {
        [word] if word.as_str() == "--help" => Some(help::HELP),
        [word] if word.as_str() == "--version" => Some(help::VERSION),
        _ => None,
    }
}

fn show(rt: &HostRuntime, text: &str) -> RunStatus {
    match rt.print(text) {
        Ok(()) => RunStatus::Done,
        Err(_) => RunStatus::WriteFault,
    }
}

// The end of a run whose words or table can't be read.
fn unread(rt: &HostRuntime, what: &str, error: &io::Error) -> Ending {
    if error.kind() == ErrorKind::OutOfMemory {
        return Ending::of(rt, RunStatus::NoMemory);
    }
    Ending {
        status: RunStatus::Usage,
        misfit: format!(in rt.alloc(); "{what}: {error}").ok(),
        lost: Vec::new(rt.alloc()),
    }
}

// The run over that table of drives.
fn run_with(rt: &HostRuntime, words: &[String], table: &[u8]) -> Ending {
    let Ok(fresh) = nanoseconds(rt) else {
        return Ending::of(rt, RunStatus::ReadFault);
    };
    let system = SystemStart::read(rt, JOURNAL, BOOT_ID);
    let Ok(start) = open_table(rt, words, table, &system) else {
        return Ending::of(rt, RunStatus::NoMemory);
    };
    let mut bench = FileBench::new(start.images, rt.stdout());
    let mut script = FileSource::new(rt.stdin());
    Ending {
        status: run(words, table, &mut bench, &mut script, fresh),
        misfit: start.misfit,
        lost: start.lost,
    }
}

// The system clock, since 1970: it tells one run from another.
fn nanoseconds(rt: &HostRuntime) -> Result<u64, RunStatus> {
    let Ok(now) = SystemTime::now(rt) else {
        return Err(RunStatus::ReadFault);
    };
    match now.duration_since(UNIX_EPOCH) {
        Ok(since) => Ok(
            since
                .as_secs()
                .wrapping_mul(1_000_000_000)
                .wrapping_add(u64::from(since.subsec_nanos())),
        ),
        Err(_) => Err(RunStatus::ReadFault),
    }
}
