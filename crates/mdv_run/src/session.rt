ghost use Rattle.std.specs.Prelude.{◌≡◌, Err, IfOk, ◌<◌, ◌≤◌, ◌+◌, ◌^◌, ℕ, List, length, map, string_bytes, Some};
ghost use Rattle.mdv_shelf.specs.Shelves.{AtEachTale, Kept, KeptInTime};
ghost use Rattle.mdv_port.specs.Script.{Script, line as line_of};
ghost use Rattle.mdv_items.specs.Items.{IsItem, asked_before};
ghost use Rattle.mdv_words.specs.Line.{Boot, IsLine, tab_text};
ghost use Rattle.mdv_engine_law.specs.Hosts.{IsReady};
ghost use Rattle.mdv_engine.specs.Engine.{IsWell};
ghost use Rattle.mdv_name.specs.declared.geometry.Geometry.{Geometry};
ghost use Rattle.mdv_name.specs.Geometry.{IsGeometry as IsTable};
ghost use Rattle.mdv_name.specs.Sound.{IsSound};
ghost use Rattle.mdv_run_law.specs.Lives.{host_of};
ghost use Rattle.mdv_run_law.specs.Run.{status_at, status_of};
ghost use Rattle.mdv_run_law.specs.Standing.{LinesMoment};
ghost use Rattle.mdv_run.specs.Calls.{ItemCalls, TextCalls};
ghost use Rattle.mdv_run.specs.Promise.{BootReplies, HasRun, HaveRun, IsSeen, IsStart, IsUntouched, IsUsageOf, LineEnds, LineReplies, LineStaysAs, LinesStay, OfEachUse, TurnAnswers, TurnEnds, TurnStays};
ghost use Rattle.mdv_run.specs.Turns.{turn_of as spec_turn_of};

use mdv_base::{Failed, Key, Name, Refusal};
use mdv_engine::Engine;
use mdv_engine_law::{Ended, Host, Reply, reply_at};
use mdv_home::{OwnDrives, has_drives, host_in};
use mdv_items::{GatherFault, ItemEnd, ItemReader};
use mdv_name::{Geometry, GeometryFault};
use mdv_port::Source;
use mdv_run_law::RunStatus;
use mdv_shelf::Bench;
use mdv_shown::{Site, site_of};
use mdv_words::{Line, WordsFault, read_line};
use std::alloc::Global;

/// Runs one host: it boots from its drives, then answers the lines of the script one by one. The words
/// are the host's name alone, which the table of drives has. On the slices of the host's own drives that are marked `db`
/// the replicas of its database may lie: there may be none, one or many of them, and one that shares a block with another or has fewer than
/// 32 blocks is passed over. No call is made on drives that aren't the host's own, and their blocks stay as they are.
/// `fresh` has to differ between the runs of one host: it is part of the identity of each database that the run makes, and a boot takes
/// databases of one identity for one and the same. Memory is taken for the table of drives and by boots, without which
/// the run ends, and to read lines and blocks and by commands, which are refused without it.
#[tactic(auto, using(mdv_shelf::proofs::Noted::kept_more))]
pub fn run<B: Bench, I: Source>(
    words: &[String],
    geometry: &[u8],
    bench: &mut B,
    script: &mut I,
    fresh: u64,
) -> RunStatus
    // A faulty use is told exactly where the words, the table and the drives are none of a host's, but for
    // want of memory, and nothing was done then.
    ensures usage { IsUsageOf (OfEachUse (map string_bytes words.now) geometry.now (B.sizes bench.old) (λ _ _. ⊥)) (IsUntouched bench.old script.old bench.new script.new) result }

    // Else all is as the run of that host promises: what is told and its status, what holds at each moment, and the cause of
    // each status.
    ensures used { OfEachUse (map string_bytes words.now) geometry.now (B.sizes bench.old) (λ d h. HasRun B.Shelf I.Source (host_of d h fresh) bench.old script.old bench.new script.new result) }
    ensures kept { Kept B.Shelf bench.old bench.new }
{
    match usable(words, geometry, bench) {
        Ok(start) => {
            let host = Host {
                drives: start.drives,
                site: start.site,
                fresh,
            };
            run_host(host, start.alloc, bench, script)
        }
        Err(Unusable::Usage) => RunStatus::Usage,
        Err(Unusable::Memory) => RunStatus::NoMemory,
    }
}

// The run of this host on its drives.
fn run_host<B: Bench, I: Source>(
    host: Host,
    alloc: Global,
    bench: &mut B,
    script: &mut I,
) -> RunStatus
    requires { IsReady host (B.sizes bench.old) }
    ensures has_run { HasRun B.Shelf I.Source host bench.old script.old bench.new script.new result }
    ensures kept { Kept B.Shelf bench.old bench.new }
{
    match Engine::boot(bench, alloc, host) {
        Ok(mut engine) => run_lines(&mut engine, alloc, bench, script),
        Err(end) => over(end),
    }
}

// The status of a run that is over with a boot.
fn over(end: Ended) -> RunStatus
    ensures { result ≡ status_at end }
{
    match end {
        Ended::NoQuorum { readable, needed } => RunStatus::NoQuorum { readable, needed },
        Ended::TwoDatabases { a, b } => RunStatus::TwoDatabases { a, b },
        Ended::Lost { active, listed } => RunStatus::Panic { active, listed },
        Ended::Spent => RunStatus::NumbersSpent,
        Ended::Memory => RunStatus::NoMemory,
    }
}

// What a run begins with: what the host sees of the table of drives, and where its replicas may lie.
#[derive(Drop)]
struct Start {
    alloc: Global,
    drives: Geometry,
    site: Site,
}

// Why no run begins.
enum Unusable {
    Usage,
    Memory,
}

// What a run begins with, where the words and the table of drives are of their form and fit each other and the
// drives.
fn usable<B: Bench>(words: &[String], table: &[u8], bench: &B) -> Result<Start, Unusable>
    ensures value { IfOk result (λ used. IsStart (map string_bytes words.now) table.now (B.sizes bench.now) used.drives used.site) }
    ensures none { result ≡ Err Unusable.Usage → OfEachUse (map string_bytes words.now) table.now (B.sizes bench.now) (λ _ _. ⊥) }
{
    let [host] = words else {
        return Err(Unusable::Usage);
    };
    let alloc = *host.allocator();
    let table = read_table(alloc, table)?;
    let Some(name) = host_in(table.hosts.as_slice(), host.as_bytes()) else {
        return Err(Unusable::Usage);
    };
    if !has_drives(bench, &table) {
        return Err(Unusable::Usage);
    }
    seen_by(alloc, name, table)
}

// What the host of this name sees of the table, and where its replicas may lie.
fn seen_by(alloc: Global, name: Name, table: Geometry) -> Result<Start, Unusable>
    requires { IsSound table }
    ensures value { IfOk result (λ used. IsSeen table name used.drives used.site) }
    ensures never { result ≡ Err Unusable.Usage → ⊥ }
{
    let own = OwnDrives::of(&table, name.as_bytes());
    let Ok(drives) = own.view_of(alloc, table) else {
        return Err(Unusable::Memory);
    };
    match site_of(alloc, &drives, Key::Local(name)) {
        Ok(site) => Ok(Start {
            alloc,
            drives,
            site,
        }),
        Err(_) => Err(Unusable::Memory),
    }
}

fn read_table(alloc: Global, text: &[u8]) -> Result<Geometry, Unusable>
    ensures value { IfOk result (IsTable text.now) }
    ensures none { result ≡ Err Unusable.Usage → (table : Geometry) → IsTable text.now table → ⊥ }
{
    match Geometry::read(alloc, text) {
        Ok(table) => Ok(table),
        Err(GeometryFault::BadLine(_)) => Err(Unusable::Usage),
        Err(GeometryFault::Memory) => Err(Unusable::Memory),
    }
}

fn run_lines<B: Bench, I: Source>(
    engine: &mut Engine,
    alloc: Global,
    bench: &mut B,
    script: &mut I,
) -> RunStatus
    requires ready { IsReady engine.old.host (B.sizes bench.old) }
    requires well { IsWell engine.old.host engine.old.state }
    requires begun { engine.old.state.begun ≡ 0 }
    ensures lines { HaveRun B.Shelf I.Source engine.old.host engine.old.state bench.old script.old bench.new script.new result }
    ensures kept { Kept B.Shelf bench.old bench.new }
{
    let mut reader = ItemReader::new(alloc);
    let mut any_refused = false;
    loop {
        match take_turn(engine, alloc, bench, script, &mut reader, any_refused) {
            Turn::On { refused } => any_refused = refused,
            Turn::Over(status) => return status,
        }
    }
}

// Whether the run goes on, and then whether a reply so far was a refusal.
enum Turn {
    On { refused: bool },
    Over(RunStatus),
}

// One item: it is taken, carried out and answered.
fn take_turn<B: Bench, I: Source>(
    engine: &mut Engine,
    alloc: Global,
    bench: &mut B,
    script: &mut I,
    reader: &mut ItemReader,
    any_refused: bool,
) -> Turn
    requires ready { IsReady engine.old.host (B.sizes bench.old) }
    requires well { IsWell engine.old.host engine.old.state }
    requires begun { engine.old.state.begun ≤ reader.old.reader.lines }
    ensures moments { (lines : Script) → asked_before reader.old.reader (I.left script.old) ≡ Some lines → AtEachTale B.Shelf (LinesMoment engine.old.host lines engine.old.state) bench.old bench.new }
    ensures end { TurnEnds B.Shelf I.Source engine.old engine.new bench.old bench.new script.old script.new reader.old.reader reader.new.reader any_refused result }
    ensures stays { TurnStays B.Shelf I.Source engine.old bench.old bench.new script.old reader.old.reader any_refused result }
    ensures answer { TurnAnswers B.Shelf I.Source engine.old.host engine.new bench.old bench.new script.old script.new reader.old.reader reader.new.reader result }
    ensures kept { KeptInTime B.Shelf bench.old bench.new }
{
    match reader.next(script) {
        Ok(ItemEnd::Item) => turn_of(answer_item(engine, alloc, bench, reader), any_refused),
        Ok(ItemEnd::TooLong) => turn_of(engine.refuse(bench, &Refusal::LineTooLong), any_refused),
        Ok(ItemEnd::End) => Turn::Over(ended(any_refused)),
        Ok(ItemEnd::Spent { lines, bytes }) => Turn::Over(RunStatus::ScriptTooLong {
            lines,
            bytes,
        }),
        Err(Failed) => Turn::Over(RunStatus::ReadFault),
    }
}

// Carries the item out that the reader shows, and replies to it. It is refused where its text isn't there.
fn answer_item<B: Bench>(
    engine: &mut Engine,
    alloc: Global,
    bench: &mut B,
    reader: &ItemReader,
) -> Reply
    requires ready { IsReady engine.old.host (B.sizes bench.old) }
    requires well { IsWell engine.old.host engine.old.state }
    requires begun { engine.old.state.begun + 1 < 2 ^ 32 }
    ensures moments { (text : List ℕ) → IsItem text reader.now.item → (more : Script) → AtEachTale B.Shelf (LinesMoment engine.old.host (line_of text more) engine.old.state) bench.old bench.new }
    ensures end { (text : List ℕ) → IsItem text reader.now.item → LineEnds B.Shelf bench.old bench.new engine.old.host text engine.old.state engine.new.state result }
    ensures stays { LinesStay B.Shelf engine.old (λ text. text) (λ text. IsItem text reader.now.item) bench.old bench.new result }
    ensures answer { LineReplies B.Shelf engine.old bench.old bench.new (ItemCalls engine.old.host reader.now.item) engine.new result }
    ensures kept { KeptInTime B.Shelf bench.old bench.new }
{
    match reader.item() {
        Ok(line) => answer(engine, alloc, bench, line),
        Err(GatherFault::TooMany) => refuse_tab(engine, bench),
        Err(GatherFault::Memory) => refuse_unread(engine, bench),
    }
}

// Carries a line or a `tab` block out, and replies to it.
fn answer<B: Bench>(engine: &mut Engine, alloc: Global, bench: &mut B, line: &[u8]) -> Reply
    requires ready { IsReady engine.old.host (B.sizes bench.old) }
    requires well { IsWell engine.old.host engine.old.state }
    requires begun { engine.old.state.begun + 1 < 2 ^ 32 }
    ensures moments { (more : Script) → AtEachTale B.Shelf (LinesMoment engine.old.host (line_of line.now more) engine.old.state) bench.old bench.new }
    ensures end { LineEnds B.Shelf bench.old bench.new engine.old.host line.now engine.old.state engine.new.state result }
    ensures stays { LineStaysAs B.Shelf engine.old line.now bench.old bench.new result }
    ensures answer { LineReplies B.Shelf engine.old bench.old bench.new (TextCalls engine.old.host line.now) engine.new result }
    ensures kept { KeptInTime B.Shelf bench.old bench.new }
{
    match read_line(alloc, line) {
        Ok(Line::Boot) => boot_anew(engine, alloc, bench),
        Ok(Line::Tab(lines)) => engine.keep_tab(bench, alloc, lines),
        Ok(Line::Command(command)) => engine.exec(bench, alloc, &command),
        Err(WordsFault::BadLine) => engine.refuse(bench, &Refusal::BadLine),
        Err(WordsFault::Memory) => refuse_unread(engine, bench),
    }
}

// Refuses a `tab` block with too many bytes.
fn refuse_tab<B: Bench>(engine: &mut Engine, bench: &mut B) -> Reply
    requires { IsWell engine.old.host engine.old.state }
    ensures moments { (lines : List ℕ) (more : Script) → AtEachTale B.Shelf (LinesMoment engine.old.host (line_of (tab_text lines) more) engine.old.state) bench.old bench.new }
    ensures end { (lines : List ℕ) → 65536 < length lines → LineEnds B.Shelf bench.old bench.new engine.old.host (tab_text lines) engine.old.state engine.new.state result }
    ensures stays { LinesStay B.Shelf engine.old tab_text (λ lines. 65536 < length lines) bench.old bench.new result }
    ensures answer { LineReplies B.Shelf engine.old bench.old bench.new (λ n. 1 ≤ n) engine.new result }
    ensures kept { KeptInTime B.Shelf bench.old bench.new }
{
    engine.refuse(bench, &Refusal::TooMany)
}

// Refuses a line or a block that memory was wanting for.
fn refuse_unread<B: Bench>(engine: &mut Engine, bench: &mut B) -> Reply
    requires { IsWell engine.old.host engine.old.state }
    ensures moments { (text : List ℕ) (more : Script) → AtEachTale B.Shelf (LinesMoment engine.old.host (line_of text more) engine.old.state) bench.old bench.new }
    ensures end { (text : List ℕ) → LineEnds B.Shelf bench.old bench.new engine.old.host text engine.old.state engine.new.state result }
    ensures stays { LinesStay B.Shelf engine.old (λ text. text) (λ text. Unit {0}) bench.old bench.new result }
    ensures answer { LineReplies B.Shelf engine.old bench.old bench.new (λ n. 1 ≤ n) engine.new result }
    ensures kept { KeptInTime B.Shelf bench.old bench.new }
{
    engine.refuse(bench, &Refusal::OutOfMemory)
}

// Boots anew, and tells that it did.
fn boot_anew<B: Bench>(engine: &mut Engine, alloc: Global, bench: &mut B) -> Reply
    requires ready { IsReady engine.old.host (B.sizes bench.old) }
    requires well { IsWell engine.old.host engine.old.state }
    ensures moments { (text : List ℕ) (more : Script) → IsLine text Boot → AtEachTale B.Shelf (LinesMoment engine.old.host (line_of text more) engine.old.state) bench.old bench.new }
    ensures end { (text : List ℕ) → IsLine text Boot → LineEnds B.Shelf bench.old bench.new engine.old.host text engine.old.state engine.new.state result }
    ensures stays { LinesStay B.Shelf engine.old (λ text. text) (λ text. IsLine text Boot) bench.old bench.new result }
    ensures answer { BootReplies B.Shelf engine.old bench.old bench.new engine.new result }
{
    match engine.reboot(bench, alloc) {
        Ok(()) => engine.accept(bench),
        Err(end) => reply_at(end),
    }
}

// How the run goes on with a reply.
fn turn_of(reply: Reply, any_refused: bool) -> Turn
    ensures { result ≡ spec_turn_of reply any_refused }
{
    match reply {
        Reply::Ok => Turn::On {
            refused: any_refused,
        },
        Reply::Refused(_) => Turn::On { refused: true },
        Reply::NoQuorum { readable, needed } => Turn::Over(RunStatus::NoQuorum {
            readable,
            needed,
        }),
        Reply::TwoDatabases { a, b } => Turn::Over(RunStatus::TwoDatabases { a, b }),
        Reply::Panic { active, listed } => Turn::Over(RunStatus::Panic { active, listed }),
        Reply::Spent => Turn::Over(RunStatus::NumbersSpent),
        Reply::NoMemory => Turn::Over(RunStatus::NoMemory),
        Reply::Told => Turn::Over(RunStatus::WriteFault),
    }
}

fn ended(refused: bool) -> RunStatus
    ensures { result ≡ status_of refused }
{
    if refused {
        RunStatus::SomeRefused
    } else {
        RunStatus::Done
    }
}
