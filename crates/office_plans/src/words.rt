//! The words for the states of tenders and securities, for kinds of entries, and for how contracts ended.
ghost use Rattle.std.specs.Prelude.{◌≡◌, option_map};
ghost use Rattle.office_plans.specs.Words.{entry_word, how_word, security_word};
ghost use Rattle.tender_papers.specs.Register.{state_word};

use office_base::records::{EntryKind, EnvelopeState, SecurityState};
use office_commands::contract::How;

/// The word for the state of a tender.
pub fn state_word(state: EnvelopeState) -> &'static str
    ensures { result.now ≡ state_word state }
{
    match state {
        EnvelopeState::Sealed => "sealed",
        EnvelopeState::Withdrawn => "withdrawn",
        EnvelopeState::Returned => "returned",
        EnvelopeState::Opened => "opened",
    }
}

/// The word for the state of a security.
pub fn security_word(state: SecurityState) -> &'static str
    ensures { result.now ≡ security_word state }
{
    match state {
        SecurityState::Held => "held",
        SecurityState::Returned => "returned",
        SecurityState::Forfeited => "forfeited",
    }
}

/// The word for the kind of an entry.
pub fn entry_word(kind: EntryKind) -> &'static str
    ensures { result.now ≡ entry_word kind }
{
    match kind {
        EntryKind::Raise => "raise",
        EntryKind::Cut => "cut",
        EntryKind::Payment => "payment",
    }
}

/// The word for how a contract ended, if it has ended.
pub fn how_word(how: Option<How>) -> Option<&'static str>
    ensures { option_map (λ word. word.now) result ≡ option_map how_word how }
{
    match how {
        Some(How::Regular) => Some("regular"),
        Some(How::ForDefault) => Some("default"),
        None => None,
    }
}
