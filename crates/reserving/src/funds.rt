//! What is available to a rating group at a moment.

ghost use Rattle.std.specs.Prelude.{◌≡◌, ◌≤◌, ◌<◌, ◌^◌, true, if◌then◌else◌};
ghost use Rattle.buckets.specs.Kinds.{most_of, is_alike, most_in_bucket};
ghost use Rattle.buckets.specs.Share.{sum_in};
ghost use Rattle.buckets.specs.Spend.{Each, IsSound, funds};
ghost use Rattle.buckets.specs.Row.{eligible_amount, is_eligible};
ghost use Rattle.buckets.specs.Holding.{held_in};
ghost use Rattle.ledger.specs.Balance.{buckets_at};
ghost use Rattle.reserving.specs.Sessions.{held_by, is_live_in, session_before};
ghost use Rattle.std.specs.Prelude.{◌*◌, ◌+◌};
ghost use Rattle.reserving.specs.Rows.{AreAscending, IsAccount};
ghost use Rattle.reserving.specs.Changes.{advanced};
ghost use Rattle.std.specs.List.{list_any};
ghost use Rattle.units.specs.Words.{end_of_numbers};
ghost use Rattle.reserving.specs.Calls.{Tells, TellsAllowance};
ghost use Rattle.reserving.specs.Lapsed.{held_for, is_eligible_in, lapsed_for, lapsed_funds};
ghost use Rattle.ledger.specs.Pricing.{validity_of};

use crate::account::Account;
use crate::advance::is_live_near;
use crate::session::{Session, SessionGroup};
use buckets::{Bucket, BucketKind, Holds};
use shelves::TariffShelf;
use units::{Amount, Blocks, Moment};

impl<'b> Account<'b> {
    /// What the buckets that are eligible for the rating group at the moment have available then,
    /// in micro-units (TS 32.296, account balance management function). It takes no memory and
    /// changes nothing.
    pub fn funds(&self, group: u32, moment: Moment) -> Amount
        requires { self.now.as_of ≤ moment }
        ensures { Tells moment self.now result.0
            (funds group moment (advanced moment self.now).buckets)
            (λ ledger. funds group moment
            (buckets_at (validity_of self.now.shelf) moment ledger)) }
    {
        Amount(self.sum_later(BucketKind::Money, group, moment))
    }

    /// The blocks that the allowances of the rating group have available at the moment (TS 32.296,
    /// account balance management function). It takes no memory and changes nothing.
    pub fn allowance(&self, group: u32, moment: Moment) -> Blocks
        requires { self.now.as_of ≤ moment }
        ensures { TellsAllowance group moment self.now result.0 }
    {
        Blocks(self.sum_later(BucketKind::Blocks, group, moment) as u64)
    }

    /// What the buckets of a kind that are eligible for the rating group at the moment have
    /// available then.
    fn sum_later(&self, kind: BucketKind, group: u32, moment: Moment) -> u128
        requires { self.now.as_of ≤ moment }
        ensures rows { result
            ≡ sum_in kind (eligible_amount group moment) (advanced moment self.now).buckets }
        ensures most { result ≤ end_of_numbers * most_of kind }
        ensures account { IsAccount self.now }
    {
        let buckets = self.rows.purse.buckets();
        let free = free_funds(buckets, kind, group, moment);
        if self.calm && self.rows.as_of == moment {
            return free;
        }
        if self.is_found_quiet(moment) {
            return free;
        }
        let given_up = lapsed_funds(
            buckets,
            &self.rows.groups,
            &self.rows.sessions,
            kind,
            group,
            self.shelf,
            moment,
        );
        free + given_up
    }
}

/// What the eligible buckets of a kind have available.
fn free_funds(buckets: &[Bucket], kind: BucketKind, group: u32, at: Moment) -> u128
    ensures value { result ≡ sum_in kind (eligible_amount group at) buckets.now }
    ensures most { result < 2 ^ 126 }
{
    let mut total = 0;
    for bucket in buckets {
        total += free_of(bucket, kind, group, at);
    }
    total
}

/// What an eligible bucket has available, where it is of the kind.
fn free_of(bucket: &Bucket, kind: BucketKind, group: u32, at: Moment) -> u128
    ensures value { result
        ≡ if is_alike bucket.now.kind kind then eligible_amount group at bucket.now else 0 }
    ensures most { result ≤ most_in_bucket }
{
    bucket.eligible_in(kind, group, at) as u128
}

/// What the reservations of sessions that have ended by the moment hold of the eligible buckets.
fn lapsed_funds(
    buckets: &[Bucket],
    groups: &[SessionGroup],
    sessions: &[Session],
    kind: BucketKind,
    group: u32,
    shelf: &TariffShelf,
    at: Moment,
) -> u128
    requires sound { IsSound buckets.now }
    requires held { Each (λ b. held_by (λ s. true) groups.now b ≡ b.reserved) buckets.now }
    requires order { AreAscending session_before sessions.now }
    ensures value { result
        ≡ lapsed_funds (is_live_in (validity_of shelf.now) at sessions.now) kind group at
        groups.now
        buckets.now }
    ensures most { result < 2 ^ 126 }
{
    // For the prover alone: looking at the value makes known here what its type keeps.
    let _count = buckets.len();
    if !any_eligible(buckets, kind, group, at) {
        return 0;
    }
    let mut total = 0;
    let mut place = 0;
    for row in groups {
        total += lapsed_of(buckets, row, sessions, &mut place, kind, group, shelf, at);
    }
    total
}

/// Whether a bucket of the kind is eligible.
fn any_eligible(buckets: &[Bucket], kind: BucketKind, group: u32, at: Moment) -> bool
    ensures { result ≡ list_any (is_eligible_in kind group at) buckets.now }
{
    buckets.iter().any(|bucket| bucket.counts(kind) && bucket.is_eligible(group, at))
}

/// What a group's reservation holds of the eligible buckets, where its session has ended by the
/// moment. The session's row is looked for from this place on.
fn lapsed_of(
    buckets: &[Bucket],
    row: &SessionGroup,
    sessions: &[Session],
    place: &mut usize,
    kind: BucketKind,
    group: u32,
    shelf: &TariffShelf,
    at: Moment,
) -> u128
    requires within { lapsed_for (is_live_in (validity_of shelf.now) at sessions.now) kind group at
        row.now
        buckets.now < 2 ^ 126 }
    requires order { AreAscending session_before sessions.now }
    ensures { result ≡ lapsed_for (is_live_in (validity_of shelf.now) at sessions.now)
        kind group at row.now
        buckets.now }
{
    let Some(reservation) = &row.reservation else {
        return 0;
    };
    if is_live_near(sessions, place, &row.session, shelf, at) {
        return 0;
    }
    held_for(buckets, &reservation.holds, kind, group, at)
}

/// What holds have of the eligible buckets.
fn held_for(buckets: &[Bucket], holds: &Holds, kind: BucketKind, group: u32, at: Moment) -> u128
    requires { held_for kind group at holds.now buckets.now < 2 ^ 126 }
    ensures { result ≡ held_for kind group at holds.now buckets.now }
{
    let mut total = 0;
    for bucket in buckets {
        total += held_if(bucket, holds, kind, group, at);
    }
    total
}

/// What holds have of a bucket, where it is of the kind and eligible.
fn held_if(bucket: &Bucket, holds: &Holds, kind: BucketKind, group: u32, at: Moment) -> u128
    ensures { result
        ≡ if is_alike bucket.now.kind kind
        then (if is_eligible group at bucket.now then held_in holds.now bucket.now else 0)
        else 0 }
{
    if bucket.counts(kind) && bucket.is_eligible(group, at) {
        holds.of(bucket)
    } else {
        0
    }
}
