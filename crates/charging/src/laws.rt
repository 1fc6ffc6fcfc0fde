//! Laws of the definitions by which commands are answered: functions that do nothing.

ghost use Rattle.std.specs.Prelude.{[]};
ghost use Rattle.shelves.specs.Shelves.{Shelf};
ghost use Rattle.keepers.specs.Tables.{no_tables};
ghost use Rattle.charging.specs.Accepted.{IsInTime};
ghost use Rattle.charging.specs.Runs.{IsRunOfBoth};
ghost use Rattle.charging.specs.DeadRows.{DeadRowsStay};
ghost use Rattle.charging.specs.Opening.{SessionsOpenByGrants};
ghost use Rattle.charging.specs.BalanceOrder.{BalancesAreByNumber};
ghost use Rattle.charging.specs.PricedRows.{ReservationsArePriced, NoBookIsMissing};
ghost use Rattle.charging.specs.PartedRows.{RowsAreParted, NewSessionsAreNotLeft};
ghost use Rattle.charging.specs.OpenGrants.{GrantsAreOne};
ghost use Rattle.charging.specs.BoundedCharges.{ChargesAreBounded};
ghost use Rattle.charging.specs.SharesTold.{ChargesAreShares, HoldsAreShares};
ghost use Rattle.charging.specs.RedeemedCodes.{IsLeftByThese, IsRedeemedAtMostOnce};
ghost use Rattle.charging.specs.Served.{AreTables};
ghost use Rattle.charging.specs.TablesAfter.{TablesAreAFunction, RunsFromNothing};
ghost use Rattle.charging.specs.Equations.{EquationsAreEnough, ListsAreEnough, RunsByEquations};
ghost use Rattle.charging.specs.FiniteRows.{LeftAreLists, ListsAreInRange, RowsAreLists};
ghost use Rattle.charging.specs.Headline.{AreAccounted};
ghost use Rattle.charging.specs.Promise.{RunsOver};
ghost use Rattle.charging.specs.Runs as relation;
ghost use Rattle.charging.specs.Allowed.{ReportsAreCovered, EventsAreCovered};
ghost use Rattle.charging.specs.Repeats.{AnswersOnce};
ghost use Rattle.charging.specs.Laws.{AccountsAreIsolated, CodesAreRedeemedOnce, LedgersAreSound};
ghost use Rattle.charging.specs.Laws.{QuotasArePaid, ReportsArePaid, TakenIsCharged};
ghost use Rattle.charging.specs.UsesByFields.{UsesAreByFields};

use crate::answers::Run;
use crate::running::DatedCommand;
use keepers::Keeper;
use shelves::TariffShelf;

/// Before any command the tables are empty: those of `MemoryKeeper::new`, with which a first call
/// can begin.
// rule: runs.tables
pub fn beginning()
    ensures time { IsInTime [] }
    ensures tables { (b : Shelf) → AreTables b [] no_tables }
{}

/// The tables of accepted commands are a function of them, and of the shelf. So a run from nothing
/// leaves those of the commands that it answered (profile).
pub fn tables_from_commands()
    ensures tables { TablesAreAFunction }
    ensures runs { RunsFromNothing }
{}

/// And back: tables that are that function of accepted commands, and no bucket of which was opened
/// with more than its kind's most, are the tables of these commands; so are those whose rows are
/// lists. So a run goes on from them by equations alone (profile).
pub fn equations_are_enough()
    ensures tables { EquationsAreEnough }
    ensures lists { ListsAreEnough }
    ensures runs { RunsByEquations }
{}

/// Whatever commands were accepted, the rows that they leave of an account are a finite list within
/// its rules: a bucket's four columns add up, no number passes its limit, no two rows have one key,
/// and what is reserved of a bucket is what reservations hold. That no bucket was opened with more
/// than its kind's most is the premise, and follows of such lists; commands have no greater amounts
/// (profile). So what a run leaves are lists, and what a stop leaves of it.
// rule: runs.finite-rows
pub fn rows_are_lists()
    ensures lists { RowsAreLists }
    ensures ranges { ListsAreInRange }
    ensures left { LeftAreLists }
{}

/// What `run` promises by equations, it also says of each list of accepted commands whose tables a
/// keeper held: the answers are those of a beginning of the commands, and the tables are those of
/// the list after it. Each account's buckets and charges are then sums of its ledger, and each use
/// was paid as the rules say (profile).
// rule: ledger.runs-over
pub fn run_over_lists<K: Keeper>(
    old: &K,
    new: &K,
    shelf: &TariffShelf,
    commands: &Vec<DatedCommand>,
    run: &Run,
)
    ensures lists { RunsOver shelf.now commands.now.items (K.seen old.now) (K.seen new.now) run.now →
        relation.RunsOver shelf.now commands.now.items (K.seen old.now) (K.seen new.now) run.now }
    ensures accounted { RunsOver shelf.now commands.now.items (K.seen old.now) (K.seen new.now) run.now →
        (K.seen new.now).clean →
        AreAccounted shelf.now commands.now.items (K.seen old.now).tables (K.seen new.now).tables
        run.now.answers.items }
{
    // For the prover alone: looking at the value makes known here what its type keeps.
    let _ranges = shelf.first();
}

/// One run after another is a run, where the second goes on from what the first one left. The
/// answers of both, one after the other, are those of the commands that the first one answered and
/// of the second one's. The tables are those of all of them.
// rule: runs.run-of-both
pub fn runs_chain()
    ensures { IsRunOfBoth }
{}

/// What the ledger of each history is: a session's last touch is recorded, a session without a
/// record was neither closed nor has anything held or granted, and nothing is charged or held of a
/// bucket that isn't made yet (profile).
// rule: ledger.sound-ledger
pub fn soundness()
    ensures { LedgersAreSound }
{}

/// Each reservation that accepted commands leave has its prices on the shelf by which they were
/// answered: its book is there, and has its group and both its periods. So no account whose rows a
/// keeper holds is refused for another book, as it is where a reservation has no prices.
// rule: grant-terms.reservations-are-priced
pub fn reservations_are_priced()
    ensures rows { ReservationsArePriced }
    ensures lists { NoBookIsMissing }
{}

/// Rows that are loaded and rows that were left are an account's rows together: under each key
/// is the row of one of both, and none has a row in both. Of a session without a recorded
/// request no row was left (profile).
// rule: database-loads.in-one
pub fn loaded_or_left()
    ensures rows { RowsAreParted }
    ensures sessions { NewSessionsAreNotLeft }
{}

/// What a call charges or holds are the shares of its buckets: each share is one fact, in the order
/// of the buckets, and adds its amount to what is charged to its bucket, or held of it, and to
/// nothing else (TS 32.296, account balance management function).
// rule: shares.taken-of
pub fn shares_are_facts()
    ensures charges { ChargesAreShares }
    ensures holds { HoldsAreShares }
{}

/// What a session was granted of a group is one grant: the terms by which a report of it is priced,
/// and the units and the place of the counter that its quota has, are those of the last grant that
/// no later fact ended (TS 32.299, session charging with unit reservation).
// rule: grant-terms.granted
pub fn open_grants_are_one()
    ensures { GrantsAreOne }
{}

/// Dead rows are dead for good. They are a bucket that has nothing available and nothing reserved,
/// a session that is over or was never opened, and what it used of each group. They stay as they
/// are, whatever commands come, and at every later moment (RFC 8506 section 8.2; profile).
// rule: dead-rows.dead-for-good
pub fn dead_rows_stay()
    ensures { DeadRowsStay }
{}

/// An initial request opens a session exactly where one of its grants is made: services are granted
/// in the order of the request, each on what the one before it left. Where none is, the request is
/// denied for its first service's reason (RFC 8506 section 5.2.1).
// rule: initial.opened-by-grants
pub fn sessions_open_by_grants()
    ensures { SessionsOpenByGrants }
{}

/// Each report and each debit of an account has the price of the started blocks that no allowance
/// covered. What is collected of it and what isn't are that price, and allowances give just the
/// blocks that are covered. Something is uncollected only where its reservation is used up and no
/// eligible bucket has anything left, neither money nor blocks (RFC 8506 section 5.3; TS 32.296,
/// account balance management function). The reports are those of the accepted updates and
/// terminations, in their order, each priced by the parts that it names.
// rule: paid, paid.taken
pub fn payment()
    ensures { ReportsArePaid }
{}

/// Each field of a paid use is that of its report's price, by the use's own session and group, or of
/// its debit's: the equation of the whole use, by which payment speaks of it, says just that (RFC
/// 8506 section 5.3).
// rule: paid.uses-by-fields
pub fn uses_by_fields()
    ensures { UsesAreByFields }
{}

/// Allowances before money: a report's price, and an event's, is due only where all blocks are
/// covered that its reservation and the eligible allowances have, so that what an allowance could
/// cover costs nothing (profile).
// rule: paid.covers-first
pub fn allowances_before_money()
    ensures reports { ReportsAreCovered }
    ensures events { EventsAreCovered }
{}

/// A quota pays: a report that ends a grant, has at most its units and starts at its place of the
/// group's counter is collected whole, whatever came between: the blocks and the money that were
/// held for it pay for it (TS 32.299, session charging with unit reservation).
// rule: quota.quotas-paid
pub fn quota()
    ensures { QuotasArePaid }
{}

/// To date: what was collected by all charges of an account is what its buckets of money together
/// show as charged, and the blocks that they covered are what its allowances show, at any moment
/// (TS 32.296, account balance management function).
// rule: collected
pub fn collection()
    ensures { TakenIsCharged }
{}

/// The charges of an account are within bounds: each starts no more blocks than a counter counts,
/// none of them dearer than 10^9 micro-units, and the sums of an account's charges, and of any
/// among them, are numbers of 128 bits. So no statement of them ends for a sum (profile).
// rule: stored-limits.bounded
pub fn charges_within_bounds()
    ensures { ChargesAreBounded }
{}

/// A balance lists each bucket of an account once, in the order of their numbers, as the account's
/// ledger has it at the moment (TS 32.296, account balance management function).
// rule: balance.told-by-number
pub fn balances_by_number()
    ensures { BalancesAreByNumber }
{}

/// Repeats: once a request that isn't a read, a credit, an allowance, a redemption or the addition
/// of a voucher is accepted, it has one answer for good. Whatever commands come between, the same
/// command is answered as the first time and isn't accepted again (RFC 8506 section 8.2; references
/// of credits, allowances and redemptions, and codes of vouchers: profile).
// rule: repeat.answers-once
pub fn repeats()
    ensures { AnswersOnce }
{}

/// A code is redeemed at most once, by whichever accounts: in a run from nothing on at most one
/// accepted command redeems it, in a run from any accepted commands on one more at most, and none
/// where the voucher is spent. What is under each code is what the accepted additions and
/// redemptions leave of it (profile).
// rule: redeemed-once.redemption-count, redeemed-once.voucher-commands
pub fn codes_redeemed_once()
    ensures left { IsLeftByThese }
    ensures more { CodesAreRedeemedOnce }
    ensures once { IsRedeemedAtMostOnce }
{}

/// Isolation: in a run of commands from nothing an account's answers and rows, and what is
/// under the codes that it redeems, are those of its own commands alone: those that name it, and
/// the additions of the vouchers that it redeems, where no redemption for another account names the
/// code of one. Others and sweeps reach it through the moments of its commands, and where moments
/// never fall not at all (profile).
// rule: isolation
pub fn isolation()
    ensures { AccountsAreIsolated }
{}
