//! A change in one transaction: all of it or nothing, also over a stop.

ghost use Rattle.std.specs.Prelude.{◌≡◌, false, true, option_map};
ghost use Rattle.sql_rows.specs.Content.{rows_in, tables_content};
ghost use Rattle.sql_rows.specs.Texts.{kept_of};
ghost use Rattle.sql_tables.specs.Statements.{HasIdleTables};
ghost use Rattle.sql_keeper.specs.Content.{shelf_names};
ghost use Rattle.sql_keeper.specs.Commits.{Becomes, CommitsStanding, CommitsWhole, Transacts};
ghost use Rattle.sql_keeper.specs.Inside.{names_in};
ghost use Rattle.sql_keeper.specs.KeptRows.{AreKept, BecomesOver};
ghost use Rattle.sql_keeper.specs.Numbers.{AreNumbersFree, LacksThen, WasSo};
ghost use Rattle.sql_keeper.specs.Seen.{AreSeen, Stands};
ghost use Rattle.sql_keeper.specs.Stops.{trees_in};
ghost use Rattle.sql_keeper.specs.Writes.{meta_with, with_change_put};
ghost use Rattle.sqlite.specs.Held.{state};
ghost use Rattle.sql_keeper.specs.Calls.{StoresCommit};

use crate::faults::counted;
use crate::first_over::seen_over;
use crate::keeper::SqlKeeper;
use crate::kept_rows::{KeptRows, kept_over};
use crate::last_moment::{is_last, is_not_before, last_after};
use crate::putting::{Known, put_change};
use crate::seen::SeenAccount;
use crate::settling::test_change;
use crate::still_open::still_open;
use crate::stored_texts::kept_texts;
use keepers::{Change, StoreFault};
use shelves::TariffShelf;
use sql_rows::KeptTexts;
use sql_tables::ReadFault;
use sqlite::{Alter, Connection, Error};
use std::alloc::Global;

/// Writes a change in one transaction; of what is known to be there already nothing.
fn write_change<S: Alter>(
    conn: &mut Connection<S>,
    books: &TariffShelf,
    known: &Known<'_>,
    change: &Change,
    texts: &Option<KeptTexts>,
) -> Result<(), Error>
    requires plain { conn.old.in_transaction ≡ false }
    requires idle { HasIdleTables (state S.Store conn.old) }
    ensures plain { conn.new.in_transaction ≡ false }
    ensures transacts { Transacts
        (with_change_put (shelf_names books.now) known.now change.now
        (option_map kept_of texts.now))
        (state S.Store conn.old) (state S.Store conn.new) result }
    ensures free { WasSo (λ trees.
        LacksThen (shelf_names books.now) known.now change.now (tables_content trees))
        (state S.Store conn.old) (state S.Store conn.new) result }
{
    // For the prover alone: looking at the value makes known here what its type keeps.
    let _ours = conn.schema();
    let mut tx = conn.transaction();
    put_change(&mut tx, books, known, change, texts)?;
    tx.commit()
}

/// Tests a change, and writes it in one transaction if it may be written: the tables become those
/// with the change, or at a fault they are as before. Whatever a stop leaves is one of the two.
// rule: database-writes.commits-change
#[tactic(auto, using(crate::proofs::commits::Whole::refused))]
fn make_change<S: Alter>(
    conn: &mut Connection<S>,
    alloc: Global,
    books: &TariffShelf,
    seen: &Option<SeenAccount>,
    kept: &Option<KeptRows>,
    text: &str,
    is_there: bool,
    is_later: bool,
    change: &Change,
) -> Result<(), ReadFault>
    requires plain { conn.old.in_transaction ≡ false }
    requires idle { HasIdleTables (state S.Store conn.old) }
    requires seen { AreSeen seen.now (state S.Store conn.old) }
    requires kept { AreKept (shelf_names books.now) kept.now (state S.Store conn.old) }
    requires is_there { is_later ≡ true →
        Stands is_there (meta_with text.now change.now) (state S.Store conn.old) }
    ensures plain { conn.new.in_transaction ≡ false }
    ensures commits { CommitsWhole (BecomesOver (shelf_names books.now) text.now change.now)
        (state S.Store conn.old) (state S.Store conn.new) result }
    ensures free { WasSo (λ trees. AreNumbersFree change.now (rows_in trees change.now.number))
        (state S.Store conn.old) (state S.Store conn.new) result }
{
    // For the prover alone: looking at the value makes known here what its type keeps.
    let _named = change.rows.as_of();
    let _moment = change.moment.seconds();
    if !is_later {
        return Err(ReadFault::Rules);
    }
    let are_new = test_change(conn, alloc, books, seen, change)?;
    let texts = kept_texts(alloc, &change.number, &change.kept)?;
    let known = Known {
        are_new,
        seen,
        kept,
        is_there,
    };
    write_change(conn, books, &known, change, &texts)?;
    Ok(())
}

/// Makes a change as `make_change` does, if the connection can still be asked.
fn ask_to_change<S: Alter>(
    conn: &mut Connection<S>,
    alloc: Global,
    books: &TariffShelf,
    seen: &Option<SeenAccount>,
    kept: &Option<KeptRows>,
    text: &str,
    is_there: bool,
    is_later: bool,
    change: &Change,
) -> Result<(), ReadFault>
    requires plain { conn.old.in_transaction ≡ false }
    requires idle { HasIdleTables (state S.Store conn.old) }
    requires seen { AreSeen seen.now (state S.Store conn.old) }
    requires kept { AreKept (shelf_names books.now) kept.now (state S.Store conn.old) }
    requires is_there { is_later ≡ true →
        Stands is_there (meta_with text.now change.now) (state S.Store conn.old) }
    ensures plain { conn.new.in_transaction ≡ false }
    ensures commits { CommitsStanding (BecomesOver (shelf_names books.now) text.now change.now)
        (state S.Store conn.old) (state S.Store conn.new) result }
    ensures free { WasSo (λ trees. AreNumbersFree change.now (rows_in trees change.now.number))
        (state S.Store conn.old) (state S.Store conn.new) result }
{
    still_open(conn)?;
    make_change(
        conn, alloc, books, seen, kept, text, is_there, is_later, change,
    )
}

impl<S: Alter> SqlKeeper<S> {
    /// Makes the change and nothing else, in one transaction: the account's rows that are named,
    /// the charges, the kept answer, the voucher that is redeemed and the moment together. No
    /// charge was there under the number of one of its own, and no bucket under that of one that
    /// is new. At a fault nothing has changed, and whatever a stop leaves is the rows before the
    /// change or with it.
    ///
    /// # Errors
    /// Lack of memory; a fault of the store, which is counted, as is a change that may not be
    /// written, has a number that is taken, or is of a moment before the last one.
    // rule: tidy-rows, database-writes.numbers-free, database-writes.commits-change, stop-commit,
    //   rows-ruled.timely
    pub fn commit(&mut self, change: Change) -> Result<(), StoreFault>
        ensures { StoresCommit S.Store change
            (Becomes (names_in self.old) self.old.text change (trees_in S.Store self.old))
            self.old self.new result }
    {
        let text = self.text.as_str();
        let is_there = is_last(self.last, change.moment);
        let is_later = is_not_before(self.last, change.moment);
        let made = ask_to_change(
            &mut self.connection,
            self.alloc,
            &self.shelf,
            &self.seen,
            &self.kept,
            text,
            is_there,
            is_later,
            &change,
        );
        let seen = self.seen.take();
        let kept = self.kept.take();
        self.kept = kept_over(self.alloc, kept, &seen, &made, &change);
        self.seen = seen_over(self.alloc, seen, &made, &change);
        self.last = last_after(&made, self.last, change.moment);
        counted(&mut self.failures, made)
    }
}
