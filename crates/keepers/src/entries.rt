//! The accounts of the keeper in memory, each with its charges and its kept answers.

ghost use Rattle.std.specs.Prelude.{◌≡◌, ◌<◌, ◌+◌, ◌++◌, ℕ, List, Some, None, is_some, IfOk, IsOk};
ghost use Rattle.std.specs.Prelude.{IfSome, OnOk, OnErr, option_map, if◌then◌else◌};
ghost use Rattle.std.specs.HashMap.{get, spare};
ghost use Rattle.identifiers.specs.Texts.{same_name};
ghost use Rattle.commands.specs.declared.key.Key.{Key};
ghost use Rattle.commands.specs.Keys.{key_of};
ghost use Rattle.keepers.specs.Change.{kept_after, AreDeadOf};
ghost use Rattle.keepers.specs.Tables.{no_rows};
ghost use Rattle.keepers.specs.Whole.{AreWhole};
ghost use Rattle.keepers.specs.Change.{IsLoad, IsView, over};
ghost use Rattle.keepers.specs.Parts.{rows_of_parts};
ghost use Rattle.keepers.specs.Memory.{entry_in, rows_of_entry, answer_of_entry, charges_of_entry};
ghost use Rattle.keepers.specs.Memory.{session_of_entry, IsSweptEntry, AreSwept, ArePlaced, ArePut};
ghost use Rattle.keepers.specs.Memory.{AreUnchanged, answer_in};

use crate::accounts::Accounts;
use crate::kept_answer::KeptAnswer;
use crate::loaded::Loaded;
use crate::named_rows::NamedRows;
use crate::store::Store;
use crate::whole::WholeAccount;
use buckets::Bucket;
use commands::Key;
use identifiers::{AccountNumber, SessionId};
use ledger::ChargeRow;
use reserving::{Account, LoadFault};
use shelves::TariffShelf;
use std::alloc::{AllocError, Global};
use std::collections::HashMap;
use std::mem;
use units::Moment;

/// An account as it is kept in memory.
pub(crate) struct AccountEntry {
    pub(crate) number: AccountNumber,
    pub(crate) rows: Store,
    pub(crate) charges: Vec<ChargeRow>,
    /// In boxes, so that the map moves a pointer of each when it grows.
    pub(crate) answers: HashMap<Key, Box<KeptAnswer>>,
}

// It is written out, so that a caller doesn't prove again how each part is dropped.
impl Drop for AccountEntry {
    fn drop(self) {
        let AccountEntry {
            number: _,
            rows: _,
            charges: _,
            answers: _,
        } = self;
    }
}

/// What may still change of the account of this number.
pub(crate) fn view_entry<'b>(
    accounts: &Accounts,
    shelf: &'b TariffShelf,
    number: &AccountNumber,
    moment: Moment,
) -> Result<Option<Account<'b>>, LoadFault>
    ensures { IfOk result (λ found.
        IsView shelf.now moment (rows_of_entry (entry_in number.now accounts.now.entries.items))
        found) }
{
    let Some(entry) = accounts.find(number) else {
        return Ok(None);
    };
    let account = entry.rows.load(shelf, moment)?;
    Ok(Some(account))
}

/// What may still change of the account of this number, with a copy of it.
pub(crate) fn load_entry<'b>(
    accounts: &Accounts,
    shelf: &'b TariffShelf,
    number: &AccountNumber,
    moment: Moment,
) -> Result<Option<Loaded<'b>>, LoadFault>
    ensures { IfOk result (λ found.
        IsLoad shelf.now moment number.now
        (rows_of_entry (entry_in number.now accounts.now.entries.items)) found) }
{
    let Some(account) = view_entry(accounts, shelf, number, moment)? else {
        return Ok(None);
    };
    let number = number.clone()?;
    let before = account.earlier(None)?;
    Ok(Some(Loaded {
        number,
        account,
        before,
    }))
}

/// Whether there is an account of this number.
pub(crate) fn has_entry(accounts: &Accounts, number: &AccountNumber) -> bool
    ensures { result ≡ is_some
        (rows_of_entry (entry_in number.now accounts.now.entries.items)).head }
{
    accounts.find(number).is_some()
}

/// Whether the account of this number has a row of this session.
pub(crate) fn has_session(accounts: &Accounts, number: &AccountNumber, session: &SessionId) -> bool
    ensures { result ≡ is_some
        (session_of_entry session.now (entry_in number.now accounts.now.entries.items)) }
{
    match accounts.find(number) {
        Some(entry) => entry.rows.knows(session),
        None => false,
    }
}

/// The dead buckets of the account of this number.
pub(crate) fn dead_in(
    alloc: Global,
    accounts: &Accounts,
    number: &AccountNumber,
) -> Result<Vec<Bucket>, AllocError>
    ensures { IfOk result (λ found.
        AreDeadOf (rows_of_entry (entry_in number.now accounts.now.entries.items)) found.items) }
{
    let Some(entry) = accounts.find(number) else {
        return Ok(Vec::new(alloc));
    };
    entry.rows.dead_buckets()
}

/// A copy of every row of the account of this number; none where there is no such account.
pub(crate) fn whole_in(
    alloc: Global,
    accounts: &Accounts,
    number: &AccountNumber,
) -> Result<WholeAccount, AllocError>
    ensures { IfOk result (AreWhole
        (rows_of_entry (entry_in number.now accounts.now.entries.items))) }
{
    let Some(entry) = accounts.find(number) else {
        return Ok(WholeAccount::none(alloc));
    };
    entry.rows.whole()
}

/// A copy of what is kept under a key of the account of this number.
pub(crate) fn find_kept(
    accounts: &Accounts,
    number: &AccountNumber,
    key: &Key,
) -> Result<Option<KeptAnswer>, AllocError>
    ensures { IfOk result (λ found. found ≡
        answer_of_entry key.now (entry_in number.now accounts.now.entries.items)) }
{
    let Some(entry) = accounts.find(number) else {
        return Ok(None);
    };
    match entry.answers.get(key) {
        Some(kept) => Ok(Some(kept.copy()?)),
        None => Ok(None),
    }
}

/// An answer that is kept next, with its key.
#[derive(Drop)]
struct KeyedAnswer {
    key: Key,
    kept: Box<KeptAnswer>,
}

/// Makes room for one answer more, and takes this one with its key. What is kept stays.
fn make_room(
    alloc: Global,
    answers: &mut HashMap<Key, Box<KeptAnswer>>,
    kept: &mut Option<KeptAnswer>,
) -> Result<Option<KeyedAnswer>, AllocError>
    ensures same { (k : Key) → answer_in k answers.new ≡ answer_in k answers.old }
    ensures room { OnOk result (0 < spare answers.new) }
    ensures kept { IfOk result (λ taken. option_map (λ t. t.kept.value) taken ≡ kept.old) }
    ensures key { IfOk result (λ taken. IfSome taken (λ t. t.key ≡ key_of t.kept.value.content)) }
{
    answers.reserve(1)?;
    let Some(kept) = kept.take() else {
        return Ok(None);
    };
    let key = Key::of(&kept.content)?;
    let kept = Box::new(alloc, kept)?;
    Ok(Some(KeyedAnswer { key, kept }))
}

/// Keeps an answer under its key, for which there is room.
fn keep(
    answers: &mut HashMap<Key, Box<KeptAnswer>>,
    taken: Option<KeyedAnswer>,
) -> Result<(), AllocError>
    requires room { 0 < spare answers.old }
    requires key { IfSome taken (λ t. t.key ≡ key_of t.kept.value.content) }
    ensures ok { IsOk result }
    ensures kept { (k : Key) → answer_in k answers.new ≡
        kept_after (option_map (λ t. t.kept.value) taken) k (answer_in k answers.old) }
{
    let Some(taken) = taken else {
        return Ok(());
    };
    let KeyedAnswer { key, kept } = taken;
    answers.insert(key, kept)?;
    Ok(())
}

/// The answers of a new account: the one that is kept of its first command. It is taken.
fn first_answers(
    alloc: Global,
    kept: &mut Option<KeptAnswer>,
) -> Result<HashMap<Key, Box<KeptAnswer>>, AllocError>
    ensures { IfOk result (λ answers. (k : Key) →
        answer_in k answers ≡ kept_after kept.old k None) }
{
    let mut answers = HashMap::new(alloc);
    let taken = make_room(alloc, &mut answers, kept)?;
    keep(&mut answers, taken)?;
    Ok(answers)
}

/// Puts the rows of a change over those of an account that is there, with its further charges and
/// an answer, which are taken. The room is taken first: at a fault nothing has changed.
fn write_entry(
    alloc: Global,
    entry: &mut AccountEntry,
    rows: NamedRows,
    charges: &mut Vec<ChargeRow>,
    kept: &mut Option<KeptAnswer>,
) -> Result<(), AllocError>
    ensures number { entry.new.number ≡ entry.old.number }
    ensures rows { OnOk result (rows_of_parts entry.new.rows ≡ over rows
        (rows_of_parts entry.old.rows)) }
    ensures answers { OnOk result ((k : Key) → answer_in k entry.new.answers ≡
        kept_after kept.old k (answer_in k entry.old.answers)) }
    ensures charges { OnOk result (entry.new.charges.items ≡
        entry.old.charges.items ++ charges.old.items) }
    ensures err_rows { OnErr result (entry.new.rows ≡ entry.old.rows) }
    ensures err_answers { OnErr result ((k : Key) →
        answer_in k entry.new.answers ≡ answer_in k entry.old.answers) }
    ensures err_charges { OnErr result (entry.new.charges.items ≡ entry.old.charges.items) }
{
    entry.charges.reserve(charges.len())?;
    let taken = make_room(alloc, &mut entry.answers, kept)?;
    entry.rows.put(rows)?;
    keep(&mut entry.answers, taken)?;
    entry.charges.append(charges)?;
    Ok(())
}

/// A new account, whose charges and answer are taken.
fn new_entry(
    alloc: Global,
    number: AccountNumber,
    rows: NamedRows,
    charges: &mut Vec<ChargeRow>,
    kept: &mut Option<KeptAnswer>,
) -> Result<AccountEntry, AllocError>
    ensures number { IfOk result (λ e. e.number ≡ number) }
    ensures rows { IfOk result (λ e. rows_of_parts e.rows ≡ over rows no_rows) }
    ensures answers { IfOk result (λ e. (k : Key) →
        answer_in k e.answers ≡ kept_after kept.old k None) }
    ensures charges { IfOk result (λ e. e.charges.items ≡ charges.old.items) }
{
    let answers = first_answers(alloc, kept)?;
    let rows = Store::first(alloc, rows)?;
    Ok(AccountEntry {
        number,
        rows,
        charges: mem::replace(charges, Vec::new(alloc)),
        answers,
    })
}

/// The place that is kept for a number.
pub(crate) fn place_of(
    places: &HashMap<AccountNumber, usize>,
    number: &AccountNumber,
) -> Option<usize>
    ensures { result ≡ get same_name places.now number.now }
{
    places.get(number).copied()
}

/// Keeps the place of an account. At a fault nothing has changed.
fn put_place(
    places: &mut HashMap<AccountNumber, usize>,
    number: AccountNumber,
    place: usize,
) -> Result<(), AllocError>
    ensures done { OnOk result ((a : List ℕ) → get same_name places.new a ≡
        (if same_name number a then Some place else get same_name places.old a)) }
    ensures err { OnErr result ((a : List ℕ) →
        get same_name places.new a ≡ get same_name places.old a) }
{
    places.insert(number, place)?;
    Ok(())
}

/// Adds a new account, whose charges and answer are taken. At a fault no account has changed.
// It isn't inlined, or else a change of an account that is there would clear the room of its
// locals.
#[inline(never)]
fn add_entry(
    alloc: Global,
    entries: &mut Vec<AccountEntry>,
    places: &mut HashMap<AccountNumber, usize>,
    number: AccountNumber,
    rows: NamedRows,
    charges: &mut Vec<ChargeRow>,
    kept: &mut Option<KeptAnswer>,
) -> Result<(), AllocError>
    requires placed { ArePlaced places.old entries.old.items }
    requires none { get same_name places.old number ≡ None }
    ensures places { ArePlaced places.new entries.new.items }
    ensures done { OnOk result (ArePut number rows charges.old.items kept.old entries.old.items
        entries.new.items) }
    ensures err { OnErr result (AreUnchanged entries.old.items entries.new.items) }
{
    let key = number.clone()?;
    let entry = new_entry(alloc, number, rows, charges, kept)?;
    entries.reserve(1)?;
    put_place(places, key, entries.len())?;
    entries.push_reserved(entry);
    Ok(())
}

/// Puts the rows of a change over those of an account, which is new where there is none of its
/// number, with its further charges and an answer, which are taken. At a fault no account has
/// changed.
pub(crate) fn put_entry(
    alloc: Global,
    entries: &mut Vec<AccountEntry>,
    places: &mut HashMap<AccountNumber, usize>,
    number: AccountNumber,
    rows: NamedRows,
    charges: &mut Vec<ChargeRow>,
    kept: &mut Option<KeptAnswer>,
) -> Result<(), AllocError>
    requires { ArePlaced places.old entries.old.items }
    ensures places { ArePlaced places.new entries.new.items }
    ensures done { OnOk result (ArePut number rows charges.old.items kept.old entries.old.items
        entries.new.items) }
    ensures err { OnErr result (AreUnchanged entries.old.items entries.new.items) }
{
    if let Some(place) = place_of(places, &number) {
        write_entry(alloc, &mut entries[place], rows, charges, kept)?;
        return Ok(());
    }
    add_entry(alloc, entries, places, number, rows, charges, kept)
}

/// The charges of the account of this number, in order; none where there is no such account.
pub(crate) fn charges_in<'e>(accounts: &'e Accounts, number: &AccountNumber) -> &'e [ChargeRow]
    ensures { result.now ≡ charges_of_entry (entry_in number.now accounts.now.entries.items) }
{
    match accounts.find(number) {
        Some(entry) => entry.charges.as_slice(),
        None => &[],
    }
}

/// Brings each account to the moment.
pub(crate) fn advance_entries(entries: &mut Vec<AccountEntry>, shelf: &TariffShelf, moment: Moment)
    ensures rows { AreSwept shelf.now moment entries.old.items entries.new.items }
{
    for entry in entries.iter_mut() {
        advance_entry(entry, shelf, moment);
    }
}

/// Brings an account to the moment.
fn advance_entry(entry: &mut AccountEntry, shelf: &TariffShelf, moment: Moment)
    ensures { IsSweptEntry shelf.now moment entry.old entry.new }
{
    entry.rows.advance(shelf, moment);
}
