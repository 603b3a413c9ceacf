ghost use Rattle.std.specs.Prelude.{◌≡◌, ◌≤◌, [], false, length, Ok, Err, Some, None, IfOk, IfErr};
ghost use Rattle.mdv_base.specs.Causes.{HasCause};
ghost use Rattle.mdv_port.specs.Script.{Script};
ghost use Rattle.mdv_items.specs.Gather.{item_limit};
ghost use Rattle.mdv_items.specs.Items.{HasPassed, IsItemTurn, IsTaken, asked_before, block_before, items_taken};

use crate::asked::{is_alone, next_asked};
use crate::gather::{GatherFault, TabText};
use mdv_base::Failed;
use mdv_port::{LineEnd, LineReader, Source};
use std::alloc::Global;
use std::marker::Model;

const TAB: &[u8] = b"tab";

const END: &[u8] = b"end";

/// What a call of `ItemReader::next` came to.
#[derive(Clone, Copy, Debug, PartialEq, Eq)]
pub enum ItemEnd {
    /// A line or a `tab` block, which `ItemReader::item` shows.
    Item,
    /// A line of more than 4096 bytes, or a block with such a line.
    TooLong,
    /// The script is at its end.
    End,
    /// So many lines and bytes were taken, one of the two at its limit, and one more byte came.
    Spent { lines: u32, bytes: u64 },
}

// What was taken last.
#[derive(Clone, Copy, PartialEq, Eq)]
enum Shown {
    Line,
    Tab,
    // a block that the script's end cut
    Cut,
}

/// Reads a script item by item: a line that asks for something, or a `tab` block, which goes from a line `tab` to
/// a line `end`. Lines that ask for nothing are passed over between items, and are lines of a block within one.
#[derive(Drop)]
pub struct ItemReader {
    lines: LineReader,
    tab: TabText,
    shown: Shown,
}

impl Model for ItemReader {
    ghost use Rattle.mdv_items.specs.Items.{Items, shown_item};

    ghost Value = { Items };

    ghost view = { λ r. record { reader = r.lines; tab = r.tab; item = shown_item r.shown r.lines.line r.tab } };
}

impl ItemReader {
    pub fn new(alloc: Global) -> ItemReader
        ensures { result.reader ≡ record { unread = []; lines = 0; bytes = 0; line = [] } }
    {
        ItemReader {
            lines: LineReader::new(),
            tab: TabText::new(alloc),
            shown: Shown::Line,
        }
    }

    /// The item that the last call of `next` answered: a line without its newline; or of a block `tab`, a newline,
    /// and its lines, each with its newline. A block that the script's end cuts is the line `tab` alone.
    pub fn item(&self) -> Result<&[u8], GatherFault>
        ensures text { IfOk result (λ text. self.now.item ≡ Ok text.now) }
        ensures fault { IfErr result (λ fault. self.now.item ≡ Err fault) }
        ensures short { IfOk result (λ text. length text.now ≤ item_limit) }
    {
        match self.shown {
            Shown::Line => Ok(self.lines.line()),
            Shown::Tab => self.tab.as_text(),
            Shown::Cut => Ok(TAB),
        }
    }

    /// Takes the next item. A failed call of the source ends the reading.
    pub fn next<I: Source>(&mut self, source: &mut I) -> Result<ItemEnd, Failed>
        ensures reads { (script : Script) → asked_before self.old.reader (I.left source.old) ≡ Some script → IfOk result (λ end. IsItemTurn script end self.new (I.left source.new)) }
        ensures passed { HasPassed self.old.reader self.new.reader (items_taken result) }
        ensures cause { HasCause (I.faults source.old) (I.faults source.new) result }
    {
        self.shown = Shown::Line;
        match next_asked(&mut self.lines, source)? {
            LineEnd::Line => {
                if is_alone(TAB, self.lines.line()) {
                    return self.next_tab(source);
                }
                Ok(ItemEnd::Item)
            }
            LineEnd::TooLong => Ok(ItemEnd::TooLong),
            LineEnd::End => Ok(ItemEnd::End),
            LineEnd::Spent { lines, bytes } => Ok(ItemEnd::Spent { lines, bytes }),
        }
    }

    // Takes the lines of a block, whose line `tab` was taken.
    fn next_tab<I: Source>(&mut self, source: &mut I) -> Result<ItemEnd, Failed>
        ensures reads { (script : Script) → block_before self.old.reader (I.left source.old) ≡ Some script → IfOk result (λ end. IsItemTurn script end self.new (I.left source.new)) }
        ensures passed { HasPassed self.old.reader self.new.reader 0 }
        ensures cause { HasCause (I.faults source.old) (I.faults source.new) result }
    {
        self.tab.begin();
        loop {
            match self.lines.next(source)? {
                LineEnd::Line => {
                    if is_alone(END, self.lines.line()) {
                        return Ok(self.taken(Shown::Tab));
                    }
                    self.tab.push(self.lines.line());
                }
                LineEnd::TooLong => self.tab.pass(),
                LineEnd::End => return Ok(self.taken(Shown::Cut)),
                LineEnd::Spent { lines, bytes } => return Ok(ItemEnd::Spent { lines, bytes }),
            }
        }
    }

    // A block is at its end, or cut.
    fn taken(&mut self, shown: Shown) -> ItemEnd
        ensures { IsTaken shown self.old self.new result }
    {
        self.shown = shown;
        if self.tab.is_long() {
            ItemEnd::TooLong
        } else {
            ItemEnd::Item
        }
    }
}
