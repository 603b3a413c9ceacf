ghost use Rattle.std.specs.Prelude.{◌≡◌, ℕ, List, true, false, [], IfOk, IfSome, IfNone, MatchOption};
ghost use Rattle.mdv_grammar.specs.Below.{DriveName, words};
ghost use Rattle.mdv_command.specs.declared.command.SetChange.{SetChange};
ghost use Rattle.mdv_command.specs.declared.command.Command.{Command};
ghost use Rattle.mdv_grammar.specs.Sets.{added_form as spec_added_form, deleted_form as spec_deleted_form, set_form as spec_set_form, form_with as spec_form_with};
ghost use Rattle.mdv_grammar.specs.Sets.{AreNames, AreDrives, IsChange, AsksSets, AsksSet, host_change as spec_host_change};

use mdv_base::{DriveName, Name};
use mdv_command::{Command, Given, SetChange, has, length_given, only, set_given, split_options};
use mdv_name::parse_drive;
use mdv_parts::Items;
use mdv_text::first_word;
use std::alloc::{AllocError, Global};

/// Which line on sets has the options.
#[derive(Clone, Copy, Debug, PartialEq, Eq)]
pub enum SetForm {
    Show,
    Change(ChangeForm),
}

/// Which hosts of a set change, and how.
#[derive(Clone, Copy, Debug, PartialEq, Eq)]
pub enum HostForm {
    AddHosts,
    DeleteHosts,
    AddMediators,
    DeleteMediators,
}

/// Which change of a set.
#[derive(Clone, Copy, Debug, PartialEq, Eq)]
pub enum ChangeForm {
    Hosts(HostForm),
    AddDrives,
    DeleteDrives,
    Take,
    Release,
}

// The form, where no other options are given than these.
fn form_with(letters: &[u8], given: &[Given], form: ChangeForm) -> Option<SetForm>
    ensures { result ≡ spec_form_with letters.now given.now form }
{
    if only(letters, given) {
        Some(SetForm::Change(form))
    } else {
        None
    }
}

fn added_form(given: &[Given]) -> Option<SetForm>
    ensures { result ≡ spec_added_form given.now }
{
    if has(b'h', given) {
        return form_with(b"ahs", given, ChangeForm::Hosts(HostForm::AddHosts));
    }
    if has(b'm', given) {
        return form_with(b"ams", given, ChangeForm::Hosts(HostForm::AddMediators));
    }
    form_with(b"als", given, ChangeForm::AddDrives)
}

fn deleted_form(given: &[Given]) -> Option<SetForm>
    ensures { result ≡ spec_deleted_form given.now }
{
    if has(b'h', given) {
        return form_with(b"dhs", given, ChangeForm::Hosts(HostForm::DeleteHosts));
    }
    if has(b'm', given) {
        return form_with(b"dms", given, ChangeForm::Hosts(HostForm::DeleteMediators));
    }
    form_with(b"dfs", given, ChangeForm::DeleteDrives)
}

fn set_form(given: &[Given]) -> Option<SetForm>
    ensures { result ≡ spec_set_form given.now }
{
    if has(b'a', given) {
        return added_form(given);
    }
    if has(b'd', given) {
        return deleted_form(given);
    }
    if has(b't', given) {
        return form_with(b"fst", given, ChangeForm::Take);
    }
    if has(b'r', given) {
        return form_with(b"rs", given, ChangeForm::Release);
    }
    if only(b"s", given) {
        Some(SetForm::Show)
    } else {
        None
    }
}

// The names that the words are, one or more. Want of memory is the only error, here and below.
fn read_names(alloc: Global, text: &[u8]) -> Result<Option<Items<Name>>, AllocError>
    ensures { IfOk result (λ o. MatchOption o
        ((names : List (List ℕ)) → AreNames (words text.now) names → ⊥)
        (AreNames (words text.now))) }
{
    let mut names = Items::new(alloc);
    let mut rest = text;
    while let Some((word, behind)) = first_word(rest) {
        let Some(name) = Name::new(word) else {
            return Ok(None);
        };
        names.push(name)?;
        rest = behind;
    }
    if names.as_slice().is_empty() {
        return Ok(None);
    }
    Ok(Some(names))
}

// The drives that the words are, one or more.
fn read_drives(alloc: Global, text: &[u8]) -> Result<Option<Items<DriveName>>, AllocError>
    ensures { IfOk result (λ o. MatchOption o
        ((drives : List DriveName) → AreDrives (words text.now) drives → ⊥)
        (AreDrives (words text.now))) }
{
    let mut drives = Items::new(alloc);
    let mut rest = text;
    while let Some((word, behind)) = first_word(rest) {
        let Some(drive) = parse_drive(word) else {
            return Ok(None);
        };
        drives.push(drive)?;
        rest = behind;
    }
    if drives.as_slice().is_empty() {
        return Ok(None);
    }
    Ok(Some(drives))
}

pub(crate) fn has_words(text: &[u8]) -> bool
    ensures yes { result ≡ false → words text.now ≡ [] }
    ensures no { result ≡ true → words text.now ≡ [] → ⊥ }
{
    first_word(text).is_some()
}

fn host_change(form: HostForm, hosts: Items<Name>) -> SetChange
    ensures { result ≡ spec_host_change form hosts }
{
    match form {
        HostForm::AddHosts => SetChange::AddHosts(hosts),
        HostForm::DeleteHosts => SetChange::DeleteHosts(hosts),
        HostForm::AddMediators => SetChange::AddMediators(hosts),
        HostForm::DeleteMediators => SetChange::DeleteMediators(hosts),
    }
}

// The change, where no operands stand behind the options.
fn change_alone(change: SetChange, text: &[u8]) -> Option<SetChange>
    ensures value { IfSome result (λ c. (words text.now ≡ []) × (c ≡ change)) }
    ensures none { IfNone result (words text.now ≡ [] → ⊥) }
{
    if has_words(text) {
        return None;
    }
    Some(change)
}

fn read_change(
    alloc: Global,
    form: ChangeForm,
    given: &[Given],
    text: &[u8],
) -> Result<Option<SetChange>, AllocError>
    ensures { IfOk result (λ o. MatchOption o
        ((change : SetChange) → IsChange form given.now (words text.now) change → ⊥)
        (IsChange form given.now (words text.now))) }
{
    match form {
        ChangeForm::Hosts(form) => match read_names(alloc, text)? {
            Some(hosts) => Ok(Some(host_change(form, hosts))),
            None => Ok(None),
        },
        ChangeForm::AddDrives => match read_drives(alloc, text)? {
            Some(drives) => Ok(Some(SetChange::AddDrives {
                drives,
                blocks: length_given(given),
            })),
            None => Ok(None),
        },
        ChangeForm::DeleteDrives => match read_drives(alloc, text)? {
            Some(drives) => Ok(Some(SetChange::DeleteDrives {
                drives,
                force: has(b'f', given),
            })),
            None => Ok(None),
        },
        ChangeForm::Take => Ok(change_alone(
            SetChange::Take {
                force: has(b'f', given),
            },
            text,
        )),
        ChangeForm::Release => Ok(change_alone(SetChange::Release, text)),
    }
}

fn read_asked(
    alloc: Global,
    form: SetForm,
    given: &[Given],
    text: &[u8],
) -> Result<Option<Command>, AllocError>
    ensures { IfOk result (λ o. MatchOption o
        ((c : Command) → AsksSets form given.now (words text.now) c → ⊥)
        (AsksSets form given.now (words text.now))) }
{
    match form {
        SetForm::Show => {
            if has_words(text) {
                return Ok(None);
            }
            Ok(Some(Command::ShowSets {
                set: set_given(given),
            }))
        }
        SetForm::Change(form) => {
            let Some(set) = set_given(given) else {
                return Ok(None);
            };
            let Some(change) = read_change(alloc, form, given, text)? else {
                return Ok(None);
            };
            Ok(Some(Command::ChangeSet { set, change }))
        }
    }
}

// What stands behind `metaset`.
pub(crate) fn read_metaset(alloc: Global, text: &[u8]) -> Result<Option<Command>, AllocError>
    ensures { IfOk result (λ o. MatchOption o
        ((c : Command) → AsksSet (words text.now) c → ⊥)
        (AsksSet (words text.now))) }
{
    let Some((given, rest)) = split_options(alloc, b"adfhmrt", b"ls", text)? else {
        return Ok(None);
    };
    let Some(form) = set_form(given.as_slice()) else {
        return Ok(None);
    };
    let Some(command) = read_asked(alloc, form, given.as_slice(), rest)? else {
        return Ok(None);
    };
    Ok(Some(command))
}
