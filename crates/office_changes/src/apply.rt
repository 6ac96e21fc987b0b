//! Applies all changes of a command in one transaction.
ghost use Rattle.std.specs.Prelude.{◌≡◌, IsTrue, OnOk, OnErr};
ghost use Rattle.sqlite.specs.Held.{state};
ghost use Rattle.sqlite.specs.State.{HasCleanDisk, Survives};
ghost use Rattle.office_tables.specs.Failing.{ErrorHasCause, ChangeHasCause};
ghost use Rattle.office_tables.specs.Steps.{Puts, Applied, Refused, LeavesPuts};

use office_base::puts::Put;
use office_tables::tables::{begin, put_one};
use sqlite::{Alter, Connection, Error, Transaction};
use std::alloc::Global;

// Makes all puts in turn. The first put fails if the store is shut; without any put, `begin` checks that.
fn put_all<S: Alter>(alloc: Global, tx: &mut Transaction<'_, S>, puts: &[Put]) -> Result<(), Error>
    requires inside { IsTrue (state S.Store tx.old.conn.now).in_transaction }
    ensures same_reference { tx.new.conn.ghost_name ≡ tx.old.conn.ghost_name }
    ensures puts { HasCleanDisk (state S.Store tx.new.conn.now) → OnOk result (Puts (state S.Store tx.old.conn.now) (state S.Store tx.new.conn.now) puts.now) }
    ensures refused { HasCleanDisk (state S.Store tx.new.conn.now) → OnErr result (Refused (state S.Store tx.old.conn.now) (state S.Store tx.new.conn.now)) }
    ensures failed { ErrorHasCause (state S.Store tx.old.conn.now) (state S.Store tx.new.conn.now) puts.now result }
    ensures survives { Survives (state S.Store tx.old.conn.now) (state S.Store tx.new.conn.now) (λ _. ⊥) }
{
    let Some((first, more)) = puts.split_first() else {
        return begin(tx);
    };
    put_one(alloc, tx, first)?;
    'puts: for put in more {
        put_one(alloc, tx, put)?;
    }
    Ok(())
}

/// Makes all changes in turn in one transaction, or none. An empty list is a transaction too. It returns `InvalidQuery` if a transaction is already running.
pub fn apply_all<S: Alter>(
    alloc: Global,
    conn: &mut Connection<S>,
    puts: &[Put],
) -> Result<(), Error>
    ensures applied { HasCleanDisk (state S.Store conn.new) → OnOk result (Applied (state S.Store conn.old) (state S.Store conn.new) puts.now) }
    ensures refused { HasCleanDisk (state S.Store conn.new) → OnErr result (Refused (state S.Store conn.old) (state S.Store conn.new)) }
    ensures survives { Survives (state S.Store conn.old) (state S.Store conn.new) (LeavesPuts (state S.Store conn.old) puts.now) }
    ensures failed { ChangeHasCause (state S.Store conn.old) (state S.Store conn.new) puts.now result }
{
    if !conn.is_autocommit() {
        return Err(Error::InvalidQuery);
    }
    let mut tx = conn.transaction();
    put_all(alloc, &mut tx, puts)?;
    tx.commit()
}
