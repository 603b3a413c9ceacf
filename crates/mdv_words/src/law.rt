ghost use Rattle.std.specs.Prelude.{◌≡◌, ℕ, List};
ghost use Rattle.mdv_words.specs.declared.command.Command.{Command};
ghost use Rattle.mdv_tab.specs.Text.{IsTab};
ghost use Rattle.mdv_tab.specs.declared.entry.Entry.{Entry};
ghost use Rattle.mdv_words.specs.Line.{Line, IsCommand, IsInForm, IsLine};
ghost use Rattle.mdv_words.specs.Listed.{AreInForm};

/// A text is one line at most.
pub fn reads_one_line()
    ensures { (text : List ℕ) (a b : Line) → IsLine text a → IsLine text b → a ≡ b }
{}

/// A line makes 1 to 50 replicas of 16 to 8192 blocks on one slice or more, a volume has a number below 8192 and rows of slices, a row more for one is of slices, no more names are cleared than a change can have, a line reads or writes one block at least, and drops the places of one slice or more.
pub fn commands_are_in_form()
    ensures { (text : List ℕ) (c : Command) → IsCommand text c → IsInForm c }
{}

/// An entry of replicas that a `tab` block has names one slice or more, and 1 to 50 replicas of 16 to 8192 blocks on each.
pub fn entries_are_in_form()
    ensures { (text : List ℕ) (entries : List Entry) → IsTab text entries → AreInForm entries }
{}
