ghost use Rattle.std.specs.Prelude.{◌≡◌, ◌<◌, ℕ, List, length};
ghost use Rattle.mdv_base.specs.Causes.{RoseOnce};
ghost use Rattle.mdv_shelf.specs.Calls.{Gives, HasGivingCause, IsCounted, OnReplies};
ghost use Rattle.mdv_shelf.specs.Moments.{Moments, Ends};
ghost use Rattle.mdv_shelf.specs.Shelves.{Keeps, KeptOn};
ghost use Rattle.mdv_shelf.specs.Story.{IsNoted};
ghost use Rattle.mdv_engine_law.specs.Replies.{refusal_line, reply_at as spec_reply_at, reply_to as spec_reply_to, IsPlainAnswer, IsTold, IsTellingCounted, outcome_text, text_of};
ghost use Rattle.mdv_engine_law.specs.Standing.{OnlyReplied, TellMoment};

use crate::answer::{Answer, Ended, Outcome, Reply};
use mdv_base::{Failed, Refusal, ReplyText};
use mdv_shelf::Bench;

const OK: &[u8] = b"ok\n";

/// Tells the reply of an answer, whole and at once; nothing of an answer that ends the run.
pub fn tell<B: Bench>(bench: &mut B, answer: &Answer) -> Reply
    requires { IsPlainAnswer answer.now }
    ensures told { Ends (OnlyReplied (RoseOnce (B.faults bench.old OnReplies) (B.faults bench.new OnReplies)) answer.now result) (B.tale bench.old) (B.tale bench.new) }
    ensures fronts { Moments (TellMoment (text_of answer.now)) (B.tale bench.old) (B.tale bench.new) }
    ensures answers { (piece : List ℕ) × IsTold (RoseOnce (B.faults bench.old OnReplies) (B.faults bench.new OnReplies)) answer.now result piece }
    ensures counted { IsTellingCounted B.Shelf bench.old bench.new result }
    ensures kept { KeptOn B.Shelf bench.old bench.new OnReplies }
{
    match answer {
        Answer::Said(outcome) => match give(bench, outcome) {
            Ok(()) => reply_to(outcome),
            Err(Failed) => Reply::Told,
        },
        Answer::Over(end) => reply_at(*end),
    }
}

// Gives what is told of it.
fn give<B: Bench>(bench: &mut B, outcome: &Outcome) -> Result<(), Failed>
    requires { 0 < length (outcome_text outcome.now) }
    ensures gives { Gives (B.tale bench.old) (outcome_text outcome.now) result (B.tale bench.new) }
    ensures cause { HasGivingCause (B.faults bench.old) (B.faults bench.new) result }
    ensures counted { IsCounted B.calls B.written bench.old bench.new 0 }
    ensures keeps { Keeps B.Shelf bench.old bench.new }
    ensures noted { IsNoted B.story B.faults B.calls B.written OnReplies bench.old bench.new }
{
    match outcome {
        Outcome::Ok => bench.give(OK),
        Outcome::Values(text) => bench.give(text.as_bytes()),
        Outcome::Refused(refusal) => bench.give(line_of(refusal).as_bytes()),
    }
}

// The reply once it was told whole.
fn reply_to(outcome: &Outcome) -> Reply
    ensures { result ≡ spec_reply_to outcome.now }
{
    match outcome {
        Outcome::Ok | Outcome::Values(_) => Reply::Ok,
        Outcome::Refused(refusal) => Reply::Refused(*refusal),
    }
}

/// The reply where the run is over.
pub fn reply_at(end: Ended) -> Reply
    ensures { result ≡ spec_reply_at end }
{
    match end {
        Ended::Lost { active, listed } => Reply::Panic { active, listed },
        Ended::Spent => Reply::Spent,
        Ended::Memory => Reply::NoMemory,
        Ended::NoQuorum { readable, needed } => Reply::NoQuorum { readable, needed },
        Ended::TwoDatabases { a, b } => Reply::TwoDatabases { a, b },
    }
}

fn line_of(refusal: &Refusal) -> ReplyText
    ensures { result.bytes ≡ refusal_line refusal.now }
{
    let mut text = refusal.text();
    text.push_str("\n");
    text
}
