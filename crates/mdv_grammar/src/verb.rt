ghost use Rattle.std.specs.Prelude.{◌≡◌, IfSome, IfNone};
ghost use Rattle.mdv_grammar.specs.declared.verb.Verb.{Verb};
ghost use Rattle.mdv_grammar.specs.declared.verb.Head.{Head};
ghost use Rattle.mdv_grammar.specs.Verb.{verb_text, head_text, IsNoOther, flags_of as spec_flags_of, values_of as spec_values_of};

/// The first word of a line on replicas, volumes or pools.
#[derive(Clone, Copy, Debug, PartialEq, Eq)]
pub enum Verb {
    Metadb,
    Metainit,
    Metaclear,
    Metattach,
    Metadetach,
    Metaoffline,
    Metaonline,
    Metareplace,
    Metahs,
    Metastat,
}

/// The first word of a line that asks something.
#[derive(Clone, Copy, Debug, PartialEq, Eq)]
pub enum Head {
    OfVerb(Verb),
    OfSets,
    OfRead,
    OfWrite,
    OfFill,
    OfIdle,
}

fn verb_of(word: &[u8]) -> Option<Verb>
    ensures value { IfSome result (λ v. word.now ≡ verb_text v) }
    ensures none { IfNone result ((v : Verb) → word.now ≡ verb_text v → ⊥) }
{
    match word {
        b"metadb" => Some(Verb::Metadb),
        b"metainit" => Some(Verb::Metainit),
        b"metaclear" => Some(Verb::Metaclear),
        b"metattach" => Some(Verb::Metattach),
        b"metadetach" => Some(Verb::Metadetach),
        b"metaoffline" => Some(Verb::Metaoffline),
        b"metaonline" => Some(Verb::Metaonline),
        b"metareplace" => Some(Verb::Metareplace),
        b"metahs" => Some(Verb::Metahs),
        b"metastat" => Some(Verb::Metastat),
        _ => None,
    }
}

// The first word of any other line.
fn other_of(word: &[u8]) -> Option<Head>
    ensures value { IfSome result (λ h. word.now ≡ head_text h) }
    ensures none { IfNone result (IsNoOther word.now) }
{
    if word == b"metaset".as_slice() {
        return Some(Head::OfSets);
    }
    if word == b"read".as_slice() {
        return Some(Head::OfRead);
    }
    if word == b"write".as_slice() {
        return Some(Head::OfWrite);
    }
    if word == b"fill".as_slice() {
        return Some(Head::OfFill);
    }
    if word == b"idle".as_slice() {
        return Some(Head::OfIdle);
    }
    None
}

pub(crate) fn head_of(word: &[u8]) -> Option<Head>
    ensures value { IfSome result (λ h. word.now ≡ head_text h) }
    ensures none { IfNone result ((h : Head) → word.now ≡ head_text h → ⊥) }
{
    if let Some(head) = other_of(word) {
        return Some(head);
    }
    let verb = verb_of(word)?;
    Some(Head::OfVerb(verb))
}

// The letters of the options without a value.
pub(crate) fn flags_of(verb: Verb) -> &'static [u8]
    ensures { result.now ≡ spec_flags_of verb }
{
    match verb {
        Verb::Metadb => b"adfi",
        Verb::Metainit => b"af",
        Verb::Metaclear => b"afr",
        Verb::Metattach | Verb::Metaoffline | Verb::Metaonline => b"",
        Verb::Metadetach => b"f",
        Verb::Metareplace => b"e",
        Verb::Metahs => b"adeir",
        Verb::Metastat => b"p",
    }
}

// The letters of those with one.
pub(crate) fn values_of(verb: Verb) -> &'static [u8]
    ensures { result.now ≡ spec_values_of verb }
{
    match verb {
        Verb::Metadb => b"cls",
        Verb::Metattach => b"is",
        _ => b"s",
    }
}
