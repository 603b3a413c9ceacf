//! A host with drives in memory, and the database that it has open there.
ghost use Rattle.std.specs.Prelude.{◌≡◌, All, AllPairs, IfOk, IsTrue};
ghost use Rattle.std.specs.Option.{ForSome};
ghost use Rattle.mdv_name.specs.Sound.{IsSound};
ghost use Rattle.mdv_shelf.specs.Calls.{InDrive};
ghost use Rattle.mdv_shelf.specs.Drives.{AreDrives};
ghost use Rattle.mdv_shelf.specs.MemShelf.{shelf_sizes};
ghost use Rattle.mdv_shown.specs.Sites.{site_of as spec_site_of};
ghost use Rattle.mdv_store.specs.Boot.{IfAdopted};
ghost use Rattle.mdv_acts.specs.Asked.{AreAsked};
ghost use Rattle.mdv_store.specs.Opened.{Opened};
ghost use Rattle.mdv_store.specs.Seats.{AreLaid};
ghost use Rattle.mdv_survey.specs.Replica.{IsOnShelf};
ghost use Rattle.mdv_store_tests.specs.Lines.{EndsWithin, HasRoom};

use crate::numbered::{add_volume, many_volumes, next_table, number_of};
use mdv_base::{Block, DriveNo, DriveSet, Flags, Identity, Key, Mark, Place, Places, ZERO_BLOCK};
use mdv_config::{EachPlace, each_of};
use mdv_encoding::encode;
use mdv_home::has_drives;
use mdv_look::{PeekRefusal, peek};
use mdv_name::{Geometry, SliceLine, read_geometries_are_sound};
use mdv_plan::{Lists, Table};
use mdv_quorum_tests::Draws;
use mdv_replica::{Gate, Master, claim_block, gate_block, master_block};
use mdv_shelf::{MemShelf, Shelf};
use mdv_shown::{Site, site_of, sites_are};
use mdv_store::{BootEnd, CommitFault, CreateFault, Letters, Store, boot, create};
use std::alloc::{AllocError, Global};
use std::test::Fail;

/// Some of the drives: each binary digit is one, the last digit drive 0.
pub type Drives = u32;

/// What a boot came to.
#[derive(Clone, Copy, PartialEq, Eq)]
pub enum End {
    Adopted(Found),
    Empty,
    /// The fresh words of two identities.
    TwoDatabases(u64, u64),
    /// So many places are readable, and so many are needed.
    NoQuorum(u32, u32),
    /// So many places are active, and so many are listed.
    Lost(u32, u32),
    Spent,
    Memory,
}

/// An adopted table: of which database, under which boot number, its own number, and how many places it lists. The number of a table without volumes is 0,
/// and else that of its only volume.
#[derive(Clone, Copy, PartialEq, Eq)]
pub struct Found {
    pub fresh: u64,
    pub boot: u64,
    pub table: u16,
    pub places: usize,
}

/// A boot's end, which drives were up, and whether it was clean.
#[derive(Clone, Copy, PartialEq, Eq)]
pub struct Boot {
    pub end: End,
    pub up: Drives,
    pub clean: bool,
}

/// What a peek told.
#[derive(Clone, Copy, PartialEq, Eq)]
pub enum Peeked {
    /// The table's number, as in `Found`, and how many places it lists.
    Table(u16, usize),
    Empty,
    /// The fresh words of two identities.
    TwoDatabases(u64, u64),
    /// So many places are readable, and so many are needed.
    NoQuorum(u32, u32),
    Memory,
}

/// How a crash picks the values of blocks: what was stable, what was written last, that on these drives alone, or as the numbers from that seed are drawn.
#[derive(Clone, Copy)]
pub enum Image {
    Stable,
    Last,
    LastOn(Drives),
    Drawn(u64),
}

/// What came of a creation.
#[derive(Clone, Copy, PartialEq, Eq)]
pub enum Made {
    Done,
    Failed,
    /// So many places took the table, and so many are listed.
    Lost(u32, u32),
    Memory,
}

/// What came of a commit.
#[derive(Clone, Copy, PartialEq, Eq)]
pub enum Committed {
    Done,
    /// So many places are active, and so many are listed.
    Lost(u32, u32),
    /// So many bytes, and room for so many.
    TooLong(u64, u64),
    Spent,
}

// Counted round, it is the last of up to twelve values.
const LAST: u32 = 27719;

const BLOCKS: u32 = 16;

/// The open database's active places lie on the drives.
#[derive(Drop)]
pub struct Host {
    pub geometry: Geometry,
    pub site: Site,
    pub shelf: MemShelf,
    pub store: Option<Store>,
    letters: Letters,
    ghost sound: { IsSound geometry },
    ghost of: { site ≡ spec_site_of geometry site.key },
    ghost sized: { shelf_sizes shelf ≡ site.sizes },
    ghost laid: { ForSome store (λ (s : Opened). AreLaid site.sizes s.seats) },
}

pub fn has(drives: Drives, drive: u32) -> bool {
    drives.checked_shr(drive).unwrap_or(0) % 2 == 1
}

pub fn bit(drive: u32) -> Drives {
    1u32.checked_shl(drive).unwrap_or(0)
}

fn mask_of(set: &DriveSet) -> Drives {
    let mut mask = 0;
    for drive in 0..32 {
        if set.contains(DriveNo(drive)) {
            mask |= bit(drive);
        }
    }
    mask
}

fn read_geometry(alloc: Global, text: &[u8]) -> Result<Geometry, Fail>
    ensures { IfOk result IsSound }
{
    let geometry = Geometry::read(alloc, text)?;
    read_geometries_are_sound();
    Ok(geometry)
}

fn site_in(alloc: Global, geometry: &Geometry, key: Key) -> Result<Site, AllocError>
    requires { IsSound geometry.now }
    ensures { IfOk result (λ site. site ≡ spec_site_of geometry.now site.key) }
{
    site_of(alloc, geometry, key)
}

// Whether the drives are there, each with a block, and none is named twice.
fn are_drives(shelf: &MemShelf, drives: &[DriveNo]) -> bool
    ensures { IsTrue result → AreDrives (shelf_sizes shelf.now) drives.now }
{
    shelf.drives() <= 256 && have_blocks(shelf, drives) && are_once(drives)
}

fn have_blocks(shelf: &MemShelf, drives: &[DriveNo]) -> bool
    ensures { IsTrue result → All (λ drive. InDrive (shelf_sizes shelf.now) drive.0 0 1) drives.now }
{
    drives.iter().all(|drive| has_block(shelf, *drive))
}

fn are_once(drives: &[DriveNo]) -> bool
    ensures { IsTrue result → AllPairs (λ a b. a ≡ b → ⊥) drives.now }
{
    for place in 0..drives.len() {
        if drives[..place].contains(&drives[place]) {
            return false;
        }
    }
    true
}

fn has_block(shelf: &MemShelf, drive: DriveNo) -> bool
    ensures { IsTrue result → InDrive (shelf_sizes shelf.now) drive.0 0 1 }
{
    drive.0 < shelf.drives() && shelf.blocks(drive) >= 1
}

// Whether each slice ends within its drive.
fn are_within(shelf: &MemShelf, lines: &[SliceLine]) -> bool
    ensures { IsTrue result → All (EndsWithin (shelf_sizes shelf.now)) lines.now }
{
    lines.iter().all(|line| is_within(shelf, line))
}

fn is_within(shelf: &MemShelf, line: &SliceLine) -> bool
    ensures { IsTrue result → EndsWithin (shelf_sizes shelf.now) line.now }
{
    if line.at.drive.0 >= shelf.drives() {
        return false;
    }
    let blocks = shelf.blocks(line.at.drive);
    line.at.blocks <= blocks && line.at.start <= blocks - line.at.blocks
}

// Whether the site lies on these drives.
fn lies_on(geometry: &Geometry, site: &Site, shelf: &MemShelf) -> bool
    requires sound { IsSound geometry.now }
    requires of { site.now ≡ spec_site_of geometry.now site.now.key }
    ensures { IsTrue result → IsOnShelf (shelf_sizes shelf.now) site.now }
{
    sites_are();
    has_drives(shelf, geometry) && are_there(shelf, site)
}

fn are_there(shelf: &MemShelf, site: &Site) -> bool
    ensures drives { IsTrue result → AreDrives (shelf_sizes shelf.now) site.now.drives }
    ensures lines { IsTrue result → All (EndsWithin (shelf_sizes shelf.now)) site.now.lines }
{
    are_drives(shelf, site.drives.as_slice()) && are_within(shelf, site.lines.as_slice())
}

/// Whether these places may be asked for: so many on each slice, each of so many blocks.
pub fn may_ask(shelf: &MemShelf, lines: &[SliceLine], count: u8, blocks: u32) -> bool
    ensures { IsTrue result → AreAsked (shelf_sizes shelf.now) lines.now count blocks }
{
    if lines.is_empty() || lines.len() > 50 || count == 0 || blocks < 16 || blocks > 8192 {
        return false;
    }
    lines.len() * usize::from(count) <= 50
        && have_room(shelf, lines, count, blocks)
        && are_lines_once(lines)
}

// Whether each slice has room for so many places of so many blocks.
fn have_room(shelf: &MemShelf, lines: &[SliceLine], count: u8, blocks: u32) -> bool
    ensures { IsTrue result → All (HasRoom (shelf_sizes shelf.now) count blocks) lines.now }
{
    lines
        .iter()
        .all(|line| has_room(shelf, line, count, blocks))
}

fn has_room(shelf: &MemShelf, line: &SliceLine, count: u8, blocks: u32) -> bool
    ensures { IsTrue result → HasRoom (shelf_sizes shelf.now) count blocks line.now }
{
    is_within(shelf, line) && line.at.blocks >= 16 + u64::from(count) * u64::from(blocks)
}

// Whether no slice is named twice.
fn are_lines_once(lines: &[SliceLine]) -> bool
    ensures { IsTrue result → AllPairs (λ a b. a ≡ b → ⊥) lines.now }
{
    for place in 0..lines.len() {
        if lines[..place].contains(&lines[place]) {
            return false;
        }
    }
    true
}

// These lines of the site, in this order.
fn lines_on(alloc: Global, site: &Site, on: &[usize]) -> Result<Vec<SliceLine>, Fail> {
    let mut lines = Vec::new(alloc);
    for index in on {
        let line = site.lines.as_slice().get(*index).ok_or("a line")?;
        lines.push(*line)?;
    }
    Ok(lines)
}

// The first place of each line.
fn firsts_on(lines: &[SliceLine]) -> Places {
    let mut places = Places::new();
    for line in lines {
        if !places.is_full() {
            places.push(Place {
                slice: line.name,
                start: 16,
                blocks: BLOCKS,
            });
        }
    }
    places
}

fn master_on(line: &SliceLine, key: &Key, fresh: u64) -> Master {
    Master {
        identity: Identity { fresh, number: 0 },
        key: *key,
        slice: line.name,
        start: 16,
        blocks: BLOCKS,
        index: 0,
        count: 1,
    }
}

fn found_in(store: &Store) -> Found {
    Found {
        fresh: store.identity().fresh,
        boot: store.mark().boot,
        table: number_of(store.table()),
        places: places_in(store.table()),
    }
}

// How many places the table lists, one that is in both lists once.
fn places_in(table: &Table) -> usize {
    let places = each_of(&table.plan.lists);
    places.as_slice().len()
}

fn end_of(end: &BootEnd) -> End {
    match end {
        BootEnd::Adopted(store) => End::Adopted(found_in(store)),
        BootEnd::Empty => End::Empty,
        BootEnd::TwoDatabases { a, b } => End::TwoDatabases(a.fresh, b.fresh),
        BootEnd::NoQuorum { readable, needed } => End::NoQuorum(*readable, *needed),
        BootEnd::Lost { active, listed } => End::Lost(*active, *listed),
        BootEnd::Spent => End::Spent,
        BootEnd::Memory => End::Memory,
    }
}

fn told(peeked: Result<Table, PeekRefusal>) -> Peeked {
    match peeked {
        Ok(table) => Peeked::Table(number_of(&table), places_in(&table)),
        Err(PeekRefusal::Empty) => Peeked::Empty,
        Err(PeekRefusal::TwoDatabases { a, b }) => Peeked::TwoDatabases(a.fresh, b.fresh),
        Err(PeekRefusal::NoQuorum { readable, needed }) => Peeked::NoQuorum(readable, needed),
        Err(PeekRefusal::Memory) => Peeked::Memory,
    }
}

fn came_of(answer: Result<(), CommitFault>) -> Committed {
    match answer {
        Ok(()) => Committed::Done,
        Err(CommitFault::Lost { active, listed }) => Committed::Lost(active, listed),
        Err(CommitFault::TooLong(fault)) => Committed::TooLong(fault.bytes, fault.room),
        Err(CommitFault::Spent) => Committed::Spent,
    }
}

fn unmade(fault: CreateFault) -> Made {
    match fault {
        CreateFault::Failed => Made::Failed,
        CreateFault::Lost { active, listed } => Made::Lost(active, listed),
        CreateFault::Memory => Made::Memory,
    }
}

fn store_of(shelf: &MemShelf, end: BootEnd) -> Option<Store>
    requires { IfAdopted end (λ o. AreLaid (shelf_sizes shelf.now) o.seats) }
    ensures { ForSome result (λ (s : Opened). AreLaid (shelf_sizes shelf.now) s.seats) }
{
    let _ = shelf;
    match end {
        BootEnd::Adopted(store) => Some(store),
        _ => None,
    }
}

impl Host {
    /// Drives with zeros, and nothing open.
    pub fn new(alloc: Global, text: &[u8], key: Key) -> Result<Host, Fail> {
        let geometry = read_geometry(alloc, text)?;
        let site = site_in(alloc, &geometry, key)?;
        let shelf = MemShelf::new(alloc, site.sizes.as_slice())?;
        Ok(Host {
            geometry,
            site,
            shelf,
            store: None,
            letters: Letters::none(alloc),
        })
    }

    pub fn drives(&self) -> u32 {
        self.shelf.drives()
    }

    /// A database of this key on these lines of the site, with so many places of 16 blocks on each. It is open then, whosever it is.
    pub fn create(
        &mut self,
        alloc: Global,
        key: &Key,
        fresh: u64,
        on: &[usize],
        count: u8,
    ) -> Result<Made, Fail> {
        let identity = Identity { fresh, number: 0 };
        let lines = lines_on(alloc, &self.site, on)?;
        let lines = lines.as_slice();
        self.store = None;
        if !may_ask(&self.shelf, lines, count, BLOCKS) {
            return Err("places".into());
        }
        let shelf = &mut self.shelf;
        match create(shelf, alloc, key, identity, lines, count, BLOCKS) {
            Ok(store) => {
                let places = each_of(&store.table().plan.lists);
                self.letters = Letters::made(alloc, places.as_slice())?;
                self.store = Some(store);
                Ok(Made::Done)
            }
            Err(fault) => Ok(unmade(fault)),
        }
    }

    /// A change of places under way: on each of these lines the database has a replica of 16 blocks, and each of them shows the table that lists those of the old
    /// lines and those of the new ones, with a volume of that number. Nothing is open then.
    pub fn lay_change(
        &mut self,
        alloc: Global,
        key: &Key,
        fresh: u64,
        [old, new]: [&[usize]; 2],
        number: u16,
    ) -> Result<(), Fail> {
        self.store = None;
        let old = lines_on(alloc, &self.site, old)?;
        let new = lines_on(alloc, &self.site, new)?;
        let mut table = Table::empty(alloc, Places::new());
        table.plan.lists = Lists::Two(firsts_on(old.as_slice()), firsts_on(new.as_slice()));
        add_volume(alloc, &mut table, number)?;
        let mut body = [ZERO_BLOCK; 6];
        let Ok(bytes) = encode(&table, body.as_flattened_mut()) else {
            return Err("a slot".into());
        };
        let gate = Gate::Open {
            mark: Mark { boot: 1, count: 1 },
            bytes: bytes as u32,
        };
        for line in old.iter().chain(new.iter()) {
            self.lay_replica(line, &master_on(line, key, fresh), gate, &body)?;
        }
        Ok(())
    }

    // The only replica of the line, which has this body in its first slot.
    fn lay_replica(
        &mut self,
        line: &SliceLine,
        master: &Master,
        gate: Gate,
        body: &[Block],
    ) -> Result<(), Fail> {
        let first = line.at.start.saturating_add(16);
        let head = [
            master_block(master),
            claim_block(1),
            gate_block(gate),
            gate_block(Gate::Closed),
        ];
        self.put_all(line.at.drive.0, first, &head)?;
        self.put_all(line.at.drive.0, first.saturating_add(4), body)
    }

    fn put_all(&mut self, drive: u32, at: u64, blocks: &[Block]) -> Result<(), Fail> {
        for index in 0..blocks.len() {
            self.put(drive, at.saturating_add(index as u64), blocks[index])?;
        }
        Ok(())
    }

    /// A boot, and whether the drives that aren't lost hold what they held before. That takes a call for each drive before it, and one behind it.
    pub fn boot_watched(&mut self, alloc: Global) -> Result<(Boot, bool), Fail> {
        let before = self.blocks(alloc)?;
        let boot = self.boot(alloc)?;
        Ok((boot, self.holds(alloc, before.as_slice())?))
    }

    /// What was open is forgotten.
    pub fn boot(&mut self, alloc: Global) -> Result<Boot, Fail> {
        self.store = None;
        if !lies_on(&self.geometry, &self.site, &self.shelf) {
            return Err("drives of the table".into());
        }
        let booted = boot(&mut self.shelf, alloc, &self.geometry, &self.site);
        let end = end_of(&booted.end);
        self.store = store_of(&self.shelf, booted.end);
        self.letters = booted.letters;
        Ok(Boot {
            end,
            up: mask_of(&booted.up),
            clean: booted.clean,
        })
    }

    /// What a boot would take, and which drives answered every read. What is open stays open.
    pub fn peek(&mut self, alloc: Global) -> Result<(Peeked, Drives), Fail> {
        if !lies_on(&self.geometry, &self.site, &self.shelf) {
            return Err("drives of the table".into());
        }
        let peeked = peek(&mut self.shelf, alloc, &self.geometry, &self.site);
        let calm = mask_of(&peeked.calm);
        Ok((told(peeked.answer), calm))
    }

    /// The places that the open database lists.
    pub fn places(&self) -> Option<EachPlace> {
        let store = self.store.as_ref()?;
        Some(each_of(&store.table().plan.lists))
    }

    /// The nine letters of a listed place; of none where those that were kept are of other places.
    pub fn flags(&self, place: &Place) -> Option<Flags> {
        let store = self.store.as_ref()?;
        let places = each_of(&store.table().plan.lists);
        if !self.letters.are_of(places.as_slice()) {
            return None;
        }
        store.flags(&self.letters, place)
    }

    pub fn commit(&mut self, alloc: Global, number: u16) -> Result<Committed, Fail> {
        let mut store = self.store.take().ok_or("a database")?;
        let next = next_table(alloc, store.table(), number)?;
        let answer = store.commit(&mut self.shelf, next);
        self.store = Some(store);
        Ok(came_of(answer))
    }

    /// A commit of a table of so many volumes, all of them on one slice.
    pub fn commit_many(&mut self, alloc: Global, count: u16) -> Result<Committed, Fail> {
        let mut store = self.store.take().ok_or("a database")?;
        let next = many_volumes(alloc, store.table(), count)?;
        let answer = store.commit(&mut self.shelf, next);
        self.store = Some(store);
        Ok(came_of(answer))
    }

    pub fn lose(&mut self, drives: Drives) {
        for drive in 0..32 {
            self.lose_one(drives, drive);
        }
    }

    fn lose_one(&mut self, drives: Drives, drive: u32) {
        if has(drives, drive) && drive < self.shelf.drives() {
            self.shelf.lose(DriveNo(drive));
        }
    }

    /// These drives hold what was stable there; what others were given counts as stable then.
    pub fn bring_back(&mut self, drives: Drives) {
        for drive in 0..32 {
            self.bring_one_back(drives, drive);
        }
    }

    fn bring_one_back(&mut self, drives: Drives, drive: u32) {
        if has(drives, drive) && drive < self.shelf.drives() {
            self.shelf.bring_back(DriveNo(drive));
        }
    }

    /// The call of that number fails, counted from the host's first.
    pub fn fail_call(&mut self, number: u64) -> Result<(), AllocError> {
        self.shelf.fail_call(number)
    }

    /// From the call of that number on the drive is lost.
    pub fn lose_at(&mut self, drive: u32, number: u64) -> Result<(), AllocError> {
        if drive < self.shelf.drives() {
            self.shelf.lose_at(DriveNo(drive), number)?;
        }
        Ok(())
    }

    /// So many calls pass, and then every call fails.
    pub fn stop_after(&mut self, calls: u64) {
        self.shelf.stop_after(calls);
    }

    /// The host crashes, and the drives have this image. Nothing is open then.
    pub fn crash(&mut self, alloc: Global, image: Image) -> Result<(), AllocError> {
        self.store = None;
        let choice = choice_of(alloc, &self.site, image)?;
        self.shelf.crash(choice.as_slice());
        Ok(())
    }

    /// A byte of the drive's block is spoiled, and the block is stable.
    pub fn spoil(&mut self, drive: u32, at: u64, byte: usize) -> Result<(), Fail> {
        let mut block = self.read_block(drive, at).ok_or("a block")?;
        if let Some(value) = block.get_mut(byte) {
            *value ^= 0x55;
        }
        self.put(drive, at, block)
    }

    /// The block of the drive is this one from now on.
    pub fn put(&mut self, drive: u32, at: u64, block: Block) -> Result<(), Fail> {
        if drive >= self.shelf.drives() || at >= self.shelf.blocks(DriveNo(drive)) {
            return Err("a block".into());
        }
        let put = self.shelf.write(DriveNo(drive), at, &[block]);
        let stable = self.shelf.sync(DriveNo(drive));
        if put.is_err() || stable.is_err() {
            return Err("a write".into());
        }
        Ok(())
    }

    fn read_block(&mut self, drive: u32, at: u64) -> Option<Block> {
        if drive >= self.shelf.drives() || at >= self.shelf.blocks(DriveNo(drive)) {
            return None;
        }
        let mut blocks = [ZERO_BLOCK];
        if self.shelf.read(DriveNo(drive), at, &mut blocks).is_err() {
            return None;
        }
        let [block] = blocks;
        Some(block)
    }

    /// What the drives that aren't lost hold, one behind another. It takes a call for each drive.
    pub fn blocks(&mut self, alloc: Global) -> Result<Vec<Block>, Fail> {
        let mut all = Vec::new(alloc);
        for drive in 0..self.shelf.drives() {
            self.add_blocks(alloc, drive, &mut all)?;
        }
        Ok(all)
    }

    /// Whether they hold these blocks. It takes a call for each drive.
    pub fn holds(&mut self, alloc: Global, blocks: &[Block]) -> Result<bool, Fail> {
        let all = self.blocks(alloc)?;
        Ok(all.as_slice() == blocks)
    }

    fn add_blocks(&mut self, alloc: Global, drive: u32, all: &mut Vec<Block>) -> Result<(), Fail> {
        if drive >= self.shelf.drives() {
            return Err("a drive".into());
        }
        let count = self.shelf.blocks(DriveNo(drive));
        if count == 0 {
            return Ok(());
        }
        let mut blocks = vec![in alloc; ZERO_BLOCK; count as usize]?;
        if self.shelf.read(DriveNo(drive), 0, &mut blocks).is_ok() {
            all.extend_from_slice(blocks.as_slice())?;
        }
        Ok(())
    }
}

fn choice_of(alloc: Global, site: &Site, image: Image) -> Result<Vec<u32>, AllocError> {
    let mut count = 0u64;
    for blocks in site.sizes.as_slice() {
        count = count.saturating_add(*blocks);
    }
    match image {
        Image::Stable => Ok(Vec::new(alloc)),
        Image::Last => drawn(alloc, count, 0),
        Image::LastOn(drives) => last_on(alloc, site, drives),
        Image::Drawn(seed) => drawn(alloc, count, seed),
    }
}

// The last number for each block of these drives, and the first one for each other.
fn last_on(alloc: Global, site: &Site, drives: Drives) -> Result<Vec<u32>, AllocError> {
    let mut choice = Vec::new(alloc);
    for drive in 0..256u32 {
        let number = if has(drives, drive) { LAST } else { 0 };
        if let Some(blocks) = site.sizes.as_slice().get(drive as usize) {
            push_all(&mut choice, *blocks, number)?;
        }
    }
    Ok(choice)
}

fn push_all(choice: &mut Vec<u32>, count: u64, number: u32) -> Result<(), AllocError> {
    for _ in 0..count {
        choice.push(number)?;
    }
    Ok(())
}

// So many numbers drawn from the seed; of 0 each is the last.
fn drawn(alloc: Global, count: u64, seed: u64) -> Result<Vec<u32>, AllocError> {
    let mut draws = Draws::new(seed);
    let mut choice = Vec::new(alloc);
    for _ in 0..count {
        let number = draws.below(LAST);
        choice.push(if seed == 0 { LAST } else { number })?;
    }
    Ok(choice)
}
