//! The accounts of the keeper in memory, each found by its number without a search.

ghost use Rattle.std.specs.Prelude.{◌≡◌, [], length, OnOk, OnErr};
ghost use Rattle.std.specs.Option.{option_copied};
ghost use Rattle.keepers.specs.Memory.{entry_in, AreSwept, ArePlaced, ArePut, AreUnchanged};

use crate::entries::{AccountEntry, advance_entries, place_of, put_entry};
use crate::kept_answer::KeptAnswer;
use crate::named_rows::NamedRows;
use identifiers::AccountNumber;
use ledger::ChargeRow;
use shelves::TariffShelf;
use std::alloc::{AllocError, Global};
use std::collections::HashMap;
use units::Moment;

/// Accounts in the order in which they were opened, and the place of each number among them.
#[derive(Drop)]
pub(crate) struct Accounts {
    entries: Vec<AccountEntry>,
    places: HashMap<AccountNumber, usize>,
    alloc: Global,
    /// Each number is found at the place of its account.
    pub ghost placed: { ArePlaced places entries.items },
}

impl Accounts {
    /// No accounts. It takes no memory.
    pub(crate) fn new(alloc: Global) -> Accounts
        ensures { result.entries.items ≡ [] }
    {
        Accounts {
            entries: Vec::new(alloc),
            places: HashMap::new(alloc),
            alloc,
        }
    }

    /// The account of this number.
    pub(crate) fn find(&self, number: &AccountNumber) -> Option<&AccountEntry>
        ensures { option_copied result ≡ entry_in number.now self.now.entries.items }
    {
        match place_of(&self.places, number) {
            Some(place) => self.entries.get(place),
            None => None,
        }
    }

    /// Puts the rows of a change over those of an account, which is new where there is none of its
    /// number, with its further charges and an answer. At a fault nothing has changed.
    pub(crate) fn put(
        &mut self,
        number: AccountNumber,
        rows: NamedRows,
        mut charges: Vec<ChargeRow>,
        mut kept: Option<KeptAnswer>,
    ) -> Result<(), AllocError>
        ensures done { OnOk result (ArePut number rows charges.items kept self.old.entries.items
            self.new.entries.items) }
        ensures err { OnErr result (AreUnchanged self.old.entries.items self.new.entries.items) }
    {
        put_entry(
            self.alloc,
            &mut self.entries,
            &mut self.places,
            number,
            rows,
            &mut charges,
            &mut kept,
        )
    }

    /// Brings each account to the moment.
    pub(crate) fn advance(&mut self, shelf: &TariffShelf, moment: Moment)
        ensures { AreSwept shelf.now moment self.old.entries.items self.new.entries.items }
    {
        advance_entries(&mut self.entries, shelf, moment);
    }

    /// How many accounts there are.
    pub(crate) fn count(&self) -> u64
        ensures { result ≡ length self.now.entries.items }
    {
        self.entries.len() as u64
    }
}
