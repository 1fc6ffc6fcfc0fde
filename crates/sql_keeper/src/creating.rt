//! The tables of a book, made in one transaction: all of them or nothing, also over a stop.

ghost use Rattle.std.specs.Prelude.{◌≡◌, false, IsTrue};
ghost use Rattle.sql_tables.specs.Stages.{HasStage, IsBlank};
ghost use Rattle.sql_tables.specs.Statements.{AttemptsOver};
ghost use Rattle.sql_keeper.specs.Creates.{BuildsBook, CreatesBook};
ghost use Rattle.sqlite.specs.Held.{state};
ghost use Rattle.sqlite.specs.State.{HasCleanDisk};

use sql_rows::put_meta;
use sql_tables::{LATEST, create_each};
use sqlite::{Alter, Connection, Error, Transaction};
use units::Moment;

/// Makes the tables, and puts what is kept once.
fn put_book<S: Alter>(tx: &mut Transaction<'_, S>, text: &str) -> Result<(), Error>
    requires stage { HasStage 0 (state S.Store tx.old.conn.now) }
    ensures { AttemptsOver S.Store (BuildsBook text.now) tx.old.conn tx.new.conn result }
{
    create_each(tx)?;
    put_meta(tx, LATEST, text, Moment::first())?;
    Ok(())
}

/// Makes the tables of a book in a database that has none, in one transaction.
// rule: database-made
pub(crate) fn create_book<S: Alter>(conn: &mut Connection<S>, text: &str) -> Result<(), Error>
    requires plain { conn.old.in_transaction ≡ false }
    requires blank { HasCleanDisk (state S.Store conn.old) →
        IsTrue (state S.Store conn.old).is_open →
        IsBlank (state S.Store conn.old) }
    ensures plain { conn.new.in_transaction ≡ false }
    ensures creates { CreatesBook text.now (state S.Store conn.old)
        (state S.Store conn.new) result }
{
    let mut tx = conn.transaction();
    put_book(&mut tx, text)?;
    tx.commit()
}
