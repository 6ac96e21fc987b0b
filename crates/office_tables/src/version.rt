//! The version of the office in a database.
ghost use Rattle.std.specs.Prelude.{◌≡◌, ℕ, false, [], IfOk, IfErr};
ghost use Rattle.office_base.specs.declared.records.ClockRow.{ClockRow};
ghost use Rattle.sqlite_resolve.specs.declared.error.CompileError.{CompileError};
ghost use Rattle.sqlite.specs.Held.{state};
ghost use Rattle.sqlite.specs.State.{HasCleanDisk, Survives};
ghost use Rattle.office_tables.specs.Steps.{IsAsked, IsRefusal, IsRefusedBy, Refused};
ghost use Rattle.office_tables.specs.Version.{get_version, one_version, ShowsVersion};

use crate::ask::ask;
use sqlite::{Alter, Connection, Error, Row};

/// The versions in the table `office`, whatever table that is. In an office the query is understood, and the answer is one row.
pub fn ask_version<S: Alter>(conn: &mut Connection<S>) -> Result<Vec<Row>, Error>
    ensures asked { HasCleanDisk (state S.Store conn.new) → IfOk result (λ rows. IsAsked S.Store get_version [] conn.old rows.items) }
    ensures refused { HasCleanDisk (state S.Store conn.new) → IfErr result (IsRefusal S.Store get_version [] conn.old) }
    ensures failed { HasCleanDisk (state S.Store conn.new) → IfErr result (IsRefusedBy S.Store get_version [] conn.old conn.new) }
    ensures ended { conn.old.in_transaction ≡ false → conn.new.in_transaction ≡ false }
    ensures one { HasCleanDisk (state S.Store conn.new) → (n : ℕ) (clock : ClockRow) → ShowsVersion n clock (state S.Store conn.old) → IfOk result (λ rows. rows.items ≡ one_version n) }
    ensures taken { HasCleanDisk (state S.Store conn.new) → (n : ℕ) (clock : ClockRow) → ShowsVersion n clock (state S.Store conn.old) → IfErr result (λ e. (why : CompileError) → e ≡ Error.SqlInputError why → ⊥) }
    ensures kept { HasCleanDisk (state S.Store conn.new) → Refused (state S.Store conn.old) (state S.Store conn.new) }
    ensures survives { Survives (state S.Store conn.old) (state S.Store conn.new) (λ _. ⊥) }
{
    if !conn.is_autocommit() {
        return Err(Error::InvalidQuery);
    }
    ask(conn, "SELECT version FROM office", &[])
}
