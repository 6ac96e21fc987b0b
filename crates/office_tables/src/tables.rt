//! The tables of an office, a file each. Here are the statements that create them all, and the put of any record. A put is made, or it fails and nothing is
//! committed.
ghost use Rattle.std.specs.Prelude.{◌≡◌, [], ◌∷◌, IsTrue, OnOk, OnErr, IfErr, map};
ghost use Rattle.sqlite.specs.Held.{state};
ghost use Rattle.sqlite.specs.State.{HasCleanDisk, IsNotRun, Survives};
ghost use Rattle.office_tables.specs.Schema.{all_tables, table_of};
ghost use Rattle.office_tables.specs.Making.{Makes};
ghost use Rattle.office_tables.specs.Failing.{ErrorHasCause};
ghost use Rattle.office_tables.specs.Steps.{Goes, Puts, Refused};
ghost use Rattle.office_tables.specs.Version.{get_version};

pub mod awards;
pub mod batches;
pub mod compiled;
pub mod contracts;
pub mod entries;
pub mod envelopes;
pub mod late_rules;
pub mod lines;
pub mod lots;
pub mod notices;
pub mod office;
pub mod performances;
pub mod releases;
pub mod seals;
pub mod securities;
pub mod tenderers;

use crate::make::make_tables;
use crate::statement::put_row;
use crate::values::given_value;
use office_base::puts::Put;
use sqlite::{Alter, Error, Transaction};
use std::alloc::Global;

// Creates all tables in the order in which they came: version 1, whose table of notices stays empty; then that of late withdrawals; then version 2.
pub(crate) fn make_office<S: Alter>(tx: &mut Transaction<'_, S>) -> Result<(), Error>
    ensures same_reference { tx.new.conn.ghost_name ≡ tx.old.conn.ghost_name }
    ensures made { HasCleanDisk (state S.Store tx.new.conn.now) → IsTrue (state S.Store tx.old.conn.now).in_transaction → OnOk result (Makes (state S.Store tx.old.conn.now) (state S.Store tx.new.conn.now) all_tables) }
    ensures refused { HasCleanDisk (state S.Store tx.new.conn.now) → IsTrue (state S.Store tx.old.conn.now).in_transaction → OnErr result (Refused (state S.Store tx.old.conn.now) (state S.Store tx.new.conn.now)) }
    ensures survives { Survives (state S.Store tx.old.conn.now) (state S.Store tx.new.conn.now) (λ _. ⊥) }
{
    make_tables(
        tx,
        lines::CREATE,
        &[
            batches::CREATE,
            tenderers::CREATE,
            notices::CREATE_FORMER,
            lots::CREATE,
            envelopes::CREATE,
            seals::CREATE,
            securities::CREATE,
            awards::CREATE,
            contracts::CREATE,
            entries::CREATE,
            releases::CREATE,
            compiled::CREATE,
            office::CREATE,
            late_rules::CREATE,
            notices::CREATE,
            performances::CREATE,
        ],
    )
}

/// The names of the tables; the one that is made last comes first.
pub fn table_names() -> [&'static [u8]; 17]
    ensures { map (λ name. name.now) result ≡ map (λ k. (table_of k).name) all_tables }
{
    [
        b"performance",
        b"notices_2",
        b"late_rules",
        b"office",
        b"compiled",
        b"releases",
        b"entries",
        b"contracts",
        b"awards",
        b"securities",
        b"seals",
        b"envelopes",
        b"lots",
        b"notices",
        b"tenderers",
        b"batches",
        b"lines",
    ]
}

/// Checks that the transaction can make changes: the database is open, and its table `office` can be queried.
pub fn begin<S: Alter>(tx: &mut Transaction<'_, S>) -> Result<(), Error>
    ensures same_reference { tx.new.conn.ghost_name ≡ tx.old.conn.ghost_name }
    ensures puts { HasCleanDisk (state S.Store tx.new.conn.now) → IsTrue (state S.Store tx.old.conn.now).in_transaction → OnOk result (Puts (state S.Store tx.old.conn.now) (state S.Store tx.new.conn.now) []) }
    ensures refused { HasCleanDisk (state S.Store tx.new.conn.now) → OnErr result (Refused (state S.Store tx.old.conn.now) (state S.Store tx.new.conn.now)) }
    ensures still { HasCleanDisk (state S.Store tx.new.conn.now) → IsTrue (state S.Store tx.old.conn.now).in_transaction → OnOk result (Goes (state S.Store tx.old.conn.now) (state S.Store tx.new.conn.now) × ((state S.Store tx.new.conn.now).now ≡ (state S.Store tx.old.conn.now).now)) }
    ensures failed { ErrorHasCause (state S.Store tx.old.conn.now) (state S.Store tx.new.conn.now) [] result }
    ensures unready { HasCleanDisk (state S.Store tx.new.conn.now) → IfErr result (IsNotRun (state S.Store tx.old.conn.now) (state S.Store tx.new.conn.now) get_version []) }
    ensures survives { Survives (state S.Store tx.old.conn.now) (state S.Store tx.new.conn.now) (λ _. ⊥) }
{
    let _ready = tx.prepare("SELECT version FROM office")?;
    Ok(())
}

/// Makes a put: inserts a record, or replaces the one that has its key, or deletes the bytes of a tender.
pub fn put_one<S: Alter>(alloc: Global, tx: &mut Transaction<'_, S>, put: &Put) -> Result<(), Error>
    ensures same_reference { tx.new.conn.ghost_name ≡ tx.old.conn.ghost_name }
    ensures puts { HasCleanDisk (state S.Store tx.new.conn.now) → IsTrue (state S.Store tx.old.conn.now).in_transaction → OnOk result (Puts (state S.Store tx.old.conn.now) (state S.Store tx.new.conn.now) (put.now ∷ [])) }
    ensures refused { HasCleanDisk (state S.Store tx.new.conn.now) → IsTrue (state S.Store tx.old.conn.now).in_transaction → OnErr result (Refused (state S.Store tx.old.conn.now) (state S.Store tx.new.conn.now)) }
    ensures failed { ErrorHasCause (state S.Store tx.old.conn.now) (state S.Store tx.new.conn.now) (put.now ∷ []) result }
    ensures survives { Survives (state S.Store tx.old.conn.now) (state S.Store tx.new.conn.now) (λ _. ⊥) }
{
    match put {
        Put::Line(row) => put_row(tx, lines::PUT, &lines::line_values(row)),
        Put::Batch(row) => put_row(tx, batches::PUT, &batches::batch_values(row)),
        Put::Tenderer(row) => put_row(tx, tenderers::PUT, &tenderers::tenderer_values(row)),
        Put::Notice(row) => notices::put_notice(tx, row),
        Put::Lot(row) => lots::put_lot(alloc, tx, row),
        Put::Envelope(row) => put_row(tx, envelopes::PUT, &envelopes::envelope_values(row)),
        Put::Seal(row) => put_row(tx, seals::PUT, &seals::seal_values(row)),
        Put::DropSeal(receipt) => put_row(tx, seals::DROP, &[given_value(*receipt)]),
        Put::Security(row) => put_row(tx, securities::PUT, &securities::security_values(row)),
        Put::Award(row) => put_row(tx, awards::PUT, &awards::award_values(row)),
        Put::Contract(row) => put_row(tx, contracts::PUT, &contracts::contract_values(row)),
        Put::Entry(row) => put_row(tx, entries::PUT, &entries::entry_values(row)),
        Put::Release(row) => put_row(tx, releases::PUT, &releases::release_values(row)),
        Put::Compiled(row) => put_row(tx, compiled::PUT, &compiled::compiled_values(row)),
        Put::Late(row) => put_row(tx, late_rules::PUT, &late_rules::late_values(row)),
        Put::Performance(row) => put_row(
            tx,
            performances::PUT,
            &performances::performance_values(row),
        ),
        Put::Clock(row) => put_row(tx, office::PUT, &office::clock_values(row)),
    }
}
