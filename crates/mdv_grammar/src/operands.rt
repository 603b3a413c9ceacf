ghost use Rattle.std.specs.Prelude.{◌≡◌, ◌++◌, false, IfOk, MatchOption};
ghost use Rattle.mdv_grammar.specs.Below.{words};
ghost use Rattle.mdv_command.specs.Given.{set_given as spec_set_given};
ghost use Rattle.mdv_grammar.specs.Line.{AsksVerb};
ghost use Rattle.mdv_grammar.specs.Operands.{all_words, begins_with_all, IsSetFor, scope_of as spec_scope_of};
ghost use Rattle.mdv_grammar.specs.Operands.{all_pools_of, plain_of, command_of, AsksParts};
ghost use Rattle.mdv_command.specs.declared.command.Command.{Command};

use crate::verb::{Verb, flags_of, values_of};
use mdv_base::Name;
use mdv_command::{
    Command, Given, read_metaclear, read_metadb, read_metadetach, read_metahs, read_metainit,
    read_metaoffline, read_metaonline, read_metareplace, read_metastat, read_metattach, set_given,
    split_options,
};
use mdv_parts::{Part, Scope, read_parts};
use mdv_tab::set_of;
use mdv_text::first_word;
use std::alloc::{AllocError, Global};

// Whether `all` stands in front, and what stands behind it.
fn split_all(text: &[u8]) -> (bool, &[u8])
    ensures place { words text.now ≡ all_words result.0 ++ words result.1.now }
    ensures none { result.0 ≡ false → begins_with_all (words text.now) → ⊥ }
{
    let Some((word, rest)) = first_word(text) else {
        return (false, text);
    };
    if word == b"all".as_slice() {
        (true, rest)
    } else {
        (false, text)
    }
}

// The set of `-s`, or else that of the first word.
fn set_for(given: &Option<Name>, text: &[u8]) -> Option<Name>
    ensures { IsSetFor given.now (words text.now) result }
{
    if let Some(set) = *given {
        return Some(set);
    }
    let Some((word, _)) = first_word(text) else {
        return None;
    };
    set_of(word)
}

// Which names may stand in the line.
fn scope_of(given: &Option<Name>, set: &Option<Name>) -> Scope
    ensures { result ≡ spec_scope_of given.now set.now }
{
    match *given {
        Some(set) => Scope::Within(set),
        None => Scope::Only(*set),
    }
}

fn read_all_pools(
    alloc: Global,
    verb: Verb,
    given: &[Given],
    set: &Option<Name>,
    parts: &[Part],
) -> Result<Option<Command>, AllocError>
    ensures { IfOk result (λ o. o ≡ all_pools_of verb given.now set.now parts.now) }
{
    match verb {
        Verb::Metahs => read_metahs(alloc, given, set, true, parts),
        _ => Ok(None),
    }
}

fn read_plain(
    alloc: Global,
    verb: Verb,
    given: &[Given],
    set: &Option<Name>,
    parts: &[Part],
) -> Result<Option<Command>, AllocError>
    ensures { IfOk result (λ o. o ≡ plain_of verb given.now set.now parts.now) }
{
    match verb {
        Verb::Metadb => read_metadb(alloc, given, set, parts),
        Verb::Metainit => read_metainit(alloc, given, set, parts),
        Verb::Metaclear => read_metaclear(alloc, given, set, parts),
        Verb::Metattach => read_metattach(alloc, given, set, parts),
        Verb::Metadetach => Ok(read_metadetach(given, set, parts)),
        Verb::Metaoffline => Ok(read_metaoffline(set, parts)),
        Verb::Metaonline => Ok(read_metaonline(set, parts)),
        Verb::Metareplace => Ok(read_metareplace(given, set, parts)),
        Verb::Metahs => read_metahs(alloc, given, set, false, parts),
        Verb::Metastat => read_metastat(alloc, given, set, parts),
    }
}

fn read_command(
    alloc: Global,
    verb: Verb,
    given: &[Given],
    set: &Option<Name>,
    all: bool,
    parts: &[Part],
) -> Result<Option<Command>, AllocError>
    ensures { IfOk result (λ o. o ≡ command_of verb given.now set.now all parts.now) }
{
    if all {
        read_all_pools(alloc, verb, given, set, parts)
    } else {
        read_plain(alloc, verb, given, set, parts)
    }
}

// Want of memory is the only error, here and below.
fn read_operands(
    alloc: Global,
    verb: Verb,
    given: &[Given],
    text: &[u8],
) -> Result<Option<Command>, AllocError>
    ensures { IfOk result (λ o. MatchOption o
        ((c : Command) → AsksParts verb given.now (words text.now) c → ⊥)
        (AsksParts verb given.now (words text.now))) }
{
    let (all, rest) = split_all(text);
    let named = set_given(given);
    let set = set_for(&named, rest);
    let scope = scope_of(&named, &set);
    let Some(parts) = read_parts(alloc, &scope, rest)? else {
        return Ok(None);
    };
    let Some(command) = read_command(alloc, verb, given, &set, all, parts.as_slice())? else {
        return Ok(None);
    };
    Ok(Some(command))
}

// What stands behind the name of a command on replicas, volumes or pools.
pub(crate) fn read_verb(
    alloc: Global,
    verb: Verb,
    text: &[u8],
) -> Result<Option<Command>, AllocError>
    ensures { IfOk result (λ o. MatchOption o
        ((c : Command) → AsksVerb verb (words text.now) c → ⊥)
        (AsksVerb verb (words text.now))) }
{
    let Some((given, rest)) = split_options(alloc, flags_of(verb), values_of(verb), text)? else {
        return Ok(None);
    };
    let Some(command) = read_operands(alloc, verb, given.as_slice(), rest)? else {
        return Ok(None);
    };
    Ok(Some(command))
}
