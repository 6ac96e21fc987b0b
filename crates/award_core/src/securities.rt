//! Tender securities that are returned.
ghost use Rattle.std.specs.Prelude.{◌≡◌, ◌+◌, ◌≤◌, ◌++◌, length, vec_len, vec_capacity};
ghost use Rattle.office_base.specs.Transitions.{returned, securities_returned};

use office_base::puts::Put;
use office_base::records::{SecurityRow, SecurityState};

// A copy of the security, returned to its tenderer.
fn returned_copy(security: &SecurityRow) -> SecurityRow
    ensures { result ≡ returned security.now }
{
    SecurityRow {
        security: security.security,
        tenderer: security.tenderer,
        notice: security.notice,
        lot: security.lot,
        reference: security.reference,
        amount: security.amount,
        state: SecurityState::Returned,
    }
}

// Appends the changes that return those of these securities that are held. It allocates no memory.
pub(crate) fn push_returned(made: &mut Vec<Put>, securities: &[SecurityRow])
    requires { vec_len made.old + length securities.now ≤ vec_capacity made.old }
    ensures items { made.new.items ≡ made.old.items ++ securities_returned securities.now }
    ensures len { vec_len made.new ≤ vec_len made.old + length securities.now }
    ensures capacity { vec_capacity made.new ≡ vec_capacity made.old }
{
    for security in securities {
        if security.state == SecurityState::Held {
            made.push_reserved(Put::Security(returned_copy(security)));
        }
    }
}
