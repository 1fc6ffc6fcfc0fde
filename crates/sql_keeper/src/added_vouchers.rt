//! A voucher that is added, in one transaction: all of it or nothing, also over a stop.

ghost use Rattle.std.specs.Prelude.{◌≡◌, false, true};
ghost use Rattle.keepers.specs.Change.{with_voucher};
ghost use Rattle.sql_rows.specs.Makes.{Makes};
ghost use Rattle.sql_tables.specs.Statements.{AttemptsOver, HasTables, HasIdleTables, HasRules};
ghost use Rattle.sql_tables.specs.Statements.{IsInside};
ghost use Rattle.sql_keeper.specs.Additions.{BecomesAdded, with_addition_put};
ghost use Rattle.sql_keeper.specs.Commits.{CommitsStanding, CommitsWhole, Transacts};
ghost use Rattle.sql_keeper.specs.Seen.{Stands};
ghost use Rattle.sql_keeper.specs.Stops.{trees_in};
ghost use Rattle.sql_keeper.specs.Writes.{meta_at};
ghost use Rattle.sqlite.specs.Held.{state};
ghost use Rattle.sql_keeper.specs.Calls.{StoresChange};

use crate::faults::counted;
use crate::keeper::SqlKeeper;
use crate::last_moment::{is_last, is_not_before, last_after};
use crate::putting::put_moment;
use crate::ruling::is_ruled_addition;
use crate::still_open::still_open;
use identifiers::VoucherCode;
use keepers::StoreFault;
use sql_rows::put_voucher;
use sql_tables::ReadFault;
use sqlite::{Alter, Connection, Error, Transaction};
use units::Moment;
use voucher_rules::VoucherTerms;

/// Puts the moment unless it is there already, and a voucher that no account has redeemed.
fn put_addition<S: Alter>(
    tx: &mut Transaction<'_, S>,
    is_there: bool,
    code: &VoucherCode,
    terms: VoucherTerms,
    moment: Moment,
) -> Result<(), Error>
    requires open { IsInside (state S.Store tx.old.conn.now) }
    requires tables { HasTables (state S.Store tx.old.conn.now) }
    requires rules { HasRules (state S.Store tx.old.conn.now) }
    ensures { AttemptsOver S.Store (Makes (with_addition_put is_there code.now terms moment))
        tx.old.conn tx.new.conn result }
{
    put_moment(tx, moment, is_there)?;
    let code = code.as_str();
    put_voucher(tx, code, terms.amount(), terms.days(), terms.scope(), None)
}

/// Writes a voucher in one transaction.
fn write_addition<S: Alter>(
    conn: &mut Connection<S>,
    is_there: bool,
    code: &VoucherCode,
    terms: VoucherTerms,
    moment: Moment,
) -> Result<(), Error>
    requires plain { conn.old.in_transaction ≡ false }
    requires idle { HasIdleTables (state S.Store conn.old) }
    ensures plain { conn.new.in_transaction ≡ false }
    ensures transacts { Transacts (with_addition_put is_there code.now terms moment)
        (state S.Store conn.old) (state S.Store conn.new) result }
{
    // For the prover alone: looking at the value makes known here what its type keeps.
    let _ours = conn.schema();
    let mut tx = conn.transaction();
    put_addition(&mut tx, is_there, code, terms, moment)?;
    tx.commit()
}

/// Adds a voucher, in one transaction: the tables become those with it, or at a fault they are as
/// before. Whatever a stop leaves is one of the two.
// rule: database-voucher
fn make_addition<S: Alter>(
    conn: &mut Connection<S>,
    text: &str,
    is_there: bool,
    is_later: bool,
    code: &VoucherCode,
    terms: VoucherTerms,
    moment: Moment,
) -> Result<(), ReadFault>
    requires plain { conn.old.in_transaction ≡ false }
    requires idle { HasIdleTables (state S.Store conn.old) }
    requires is_there { is_later ≡ true →
        Stands is_there (meta_at text.now moment) (state S.Store conn.old) }
    ensures plain { conn.new.in_transaction ≡ false }
    ensures commits { CommitsWhole (BecomesAdded text.now code.now terms moment)
        (state S.Store conn.old) (state S.Store conn.new) result }
{
    // For the prover alone: looking at the value makes known here what its type keeps.
    let _moment = moment.seconds();
    if !is_later {
        return Err(ReadFault::Rules);
    }
    if !is_ruled_addition(code, terms, moment) {
        return Err(ReadFault::Rules);
    }
    write_addition(conn, is_there, code, terms, moment)?;
    Ok(())
}

/// Adds a voucher as `make_addition` does, if the connection can still be asked.
fn ask_to_add<S: Alter>(
    conn: &mut Connection<S>,
    text: &str,
    is_there: bool,
    is_later: bool,
    code: &VoucherCode,
    terms: VoucherTerms,
    moment: Moment,
) -> Result<(), ReadFault>
    requires plain { conn.old.in_transaction ≡ false }
    requires idle { HasIdleTables (state S.Store conn.old) }
    requires is_there { is_later ≡ true →
        Stands is_there (meta_at text.now moment) (state S.Store conn.old) }
    ensures plain { conn.new.in_transaction ≡ false }
    ensures commits { CommitsStanding (BecomesAdded text.now code.now terms moment)
        (state S.Store conn.old) (state S.Store conn.new) result }
{
    still_open(conn)?;
    make_addition(conn, text, is_there, is_later, code, terms, moment)
}

impl<S: Alter> SqlKeeper<S> {
    /// Adds a voucher of these terms under its code (profile), in one transaction with the moment
    /// of the command: it is there unspent, in the place of what was there. At a fault
    /// nothing has changed, and whatever a stop leaves is the tables before or with the voucher.
    ///
    /// # Errors
    /// Lack of memory; a fault of the store, which is counted, as is a moment that no command has, or
    /// one before the last.
    // rule: database-voucher
    pub fn add_voucher(
        &mut self,
        code: VoucherCode,
        terms: VoucherTerms,
        moment: Moment,
    ) -> Result<(), StoreFault>
        ensures { StoresChange S.Store (with_voucher code terms moment)
            (BecomesAdded self.old.text code terms moment (trees_in S.Store self.old))
            self.old self.new result }
    {
        let text = self.text.as_str();
        let is_there = is_last(self.last, moment);
        let is_later = is_not_before(self.last, moment);
        let made = ask_to_add(
            &mut self.connection,
            text,
            is_there,
            is_later,
            &code,
            terms,
            moment,
        );
        self.seen = None;
        self.kept = None;
        self.last = last_after(&made, self.last, moment);
        counted(&mut self.failures, made)
    }
}
