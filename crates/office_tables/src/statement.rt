//! Runs one statement of a transaction.
ghost use Rattle.std.specs.Prelude.{◌≡◌, ℕ, [], ◌∷◌, Ok, Err, IsTrue, OnOk, OnErr, IfErr};
ghost use Rattle.sqlite.specs.Held.{state};
ghost use Rattle.sqlite.specs.State.{HasCleanDisk, Survives, ExecutesInside};
ghost use Rattle.sqlite.specs.Values.{bound};
ghost use Rattle.office_base.specs.declared.puts.Put.{Put};
ghost use Rattle.office_tables.specs.Failing.{ErrorHasCause};
ghost use Rattle.office_tables.specs.Schema.{IsStatementOf};
ghost use Rattle.office_tables.specs.Steps.{Puts, Refused};

use sqlite::{Alter, Error, Transaction};
use sqlite_value::value::ValueRef;

// Runs one statement with these values.
pub(crate) fn execute_one<S: Alter>(
    tx: &mut Transaction<'_, S>,
    sql: &str,
    values: &[ValueRef<'_>],
) -> Result<(), Error>
    ensures same_reference { tx.new.conn.ghost_name ≡ tx.old.conn.ghost_name }
    ensures ran { HasCleanDisk (state S.Store tx.new.conn.now) → IsTrue (state S.Store tx.old.conn.now).in_transaction → OnOk result ((count : ℕ) × ExecutesInside 0 sql.now (bound values.now) (state S.Store tx.old.conn.now) (state S.Store tx.new.conn.now) (Ok count)) }
    ensures refused { HasCleanDisk (state S.Store tx.new.conn.now) → IsTrue (state S.Store tx.old.conn.now).in_transaction → OnErr result (Refused (state S.Store tx.old.conn.now) (state S.Store tx.new.conn.now)) }
    ensures failed { HasCleanDisk (state S.Store tx.new.conn.now) → IsTrue (state S.Store tx.old.conn.now).in_transaction → IfErr result (λ e. ExecutesInside 0 sql.now (bound values.now) (state S.Store tx.old.conn.now) (state S.Store tx.new.conn.now) (Err e)) }
    ensures survives { Survives (state S.Store tx.old.conn.now) (state S.Store tx.new.conn.now) (λ _. ⊥) }
{
    tx.execute(sql, values)?;
    Ok(())
}

// Runs the statement of a put, if it has this text and these values.
pub(crate) fn put_row<S: Alter>(
    tx: &mut Transaction<'_, S>,
    sql: &str,
    values: &[ValueRef<'_>],
) -> Result<(), Error>
    ensures same_reference { tx.new.conn.ghost_name ≡ tx.old.conn.ghost_name }
    ensures puts { HasCleanDisk (state S.Store tx.new.conn.now) → IsTrue (state S.Store tx.old.conn.now).in_transaction → (put : Put) → IsStatementOf put sql.now (bound values.now) → OnOk result (Puts (state S.Store tx.old.conn.now) (state S.Store tx.new.conn.now) (put ∷ [])) }
    ensures refused { HasCleanDisk (state S.Store tx.new.conn.now) → IsTrue (state S.Store tx.old.conn.now).in_transaction → OnErr result (Refused (state S.Store tx.old.conn.now) (state S.Store tx.new.conn.now)) }
    ensures ran { HasCleanDisk (state S.Store tx.new.conn.now) → IsTrue (state S.Store tx.old.conn.now).in_transaction → OnOk result ((count : ℕ) × ExecutesInside 0 sql.now (bound values.now) (state S.Store tx.old.conn.now) (state S.Store tx.new.conn.now) (Ok count)) }
    ensures fails { HasCleanDisk (state S.Store tx.new.conn.now) → IsTrue (state S.Store tx.old.conn.now).in_transaction → IfErr result (λ e. ExecutesInside 0 sql.now (bound values.now) (state S.Store tx.old.conn.now) (state S.Store tx.new.conn.now) (Err e)) }
    ensures failed { (put : Put) → IsStatementOf put sql.now (bound values.now) → ErrorHasCause (state S.Store tx.old.conn.now) (state S.Store tx.new.conn.now) (put ∷ []) result }
    ensures survives { Survives (state S.Store tx.old.conn.now) (state S.Store tx.new.conn.now) (λ _. ⊥) }
{
    execute_one(tx, sql, values)
}
