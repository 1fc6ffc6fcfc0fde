//! What is written of each table: its name, the texts that select its rows, and the texts that make
//! the tables and the indexes.

ghost use Rattle.std.specs.Prelude.{◌≡◌, ◌<◌, [], slice_index_or};
ghost use Rattle.sql_tables.specs.Texts.{all_texts, rowids_texts, rows_texts};

/// The names of the tables of all versions, in their order.
pub(crate) const NAMES: [&[u8]; 14] = [
    b"meta",
    b"accounts",
    b"buckets",
    b"counters",
    b"sessions",
    b"session_groups",
    b"holds",
    b"answers",
    b"vouchers",
    b"charges",
    b"books",
    b"grant_books",
    b"allowance_buckets",
    b"covered",
];

/// The text that selects the rowids of a table in order, by the table's place among those of all
/// versions.
pub(crate) fn rowids_text(at: usize) -> &'static str
    requires { at < 14 }
    ensures { result.now ≡ slice_index_or rowids_texts at [] }
{
    match at {
        0 => "SELECT rowid FROM meta ORDER BY rowid",
        1 => "SELECT rowid FROM accounts ORDER BY rowid",
        2 => "SELECT rowid FROM buckets ORDER BY rowid",
        3 => "SELECT rowid FROM counters ORDER BY rowid",
        4 => "SELECT rowid FROM sessions ORDER BY rowid",
        5 => "SELECT rowid FROM session_groups ORDER BY rowid",
        6 => "SELECT rowid FROM holds ORDER BY rowid",
        7 => "SELECT rowid FROM answers ORDER BY rowid",
        8 => "SELECT rowid FROM vouchers ORDER BY rowid",
        9 => "SELECT rowid FROM charges ORDER BY rowid",
        10 => "SELECT rowid FROM books ORDER BY rowid",
        11 => "SELECT rowid FROM grant_books ORDER BY rowid",
        12 => "SELECT rowid FROM allowance_buckets ORDER BY rowid",
        _ => "SELECT rowid FROM covered ORDER BY rowid",
    }
}

/// The text that selects all rows of a table in the order of their rowids, by the table's place
/// among those of all versions.
pub fn rows_text(at: usize) -> &'static str
    requires { at < 14 }
    ensures { result.now ≡ slice_index_or rows_texts at [] }
{
    match at {
        0 => "SELECT rowid, id, version, book, last_moment FROM meta ORDER BY rowid",
        1 => {
            "SELECT rowid, account, barred, as_of, next_bucket, next_charge \
             FROM accounts ORDER BY rowid"
        }
        2 => {
            "SELECT rowid, account, number, starts, ends, scope, credited, available, \
             reserved, charged, expired FROM buckets ORDER BY rowid"
        }
        3 => "SELECT rowid, account, rating_group, cycle, blocks FROM counters ORDER BY rowid",
        4 => {
            "SELECT rowid, account, session, last_number, touched, state \
             FROM sessions ORDER BY rowid"
        }
        5 => {
            "SELECT rowid, account, session, rating_group, used, reserved, period_before, \
             period_after FROM session_groups ORDER BY rowid"
        }
        6 => {
            "SELECT rowid, account, session, rating_group, bucket, amount \
             FROM holds ORDER BY rowid"
        }
        7 => {
            "SELECT rowid, account, kind, name, number, content, answer \
             FROM answers ORDER BY rowid"
        }
        8 => "SELECT rowid, code, amount, days, scope, account FROM vouchers ORDER BY rowid",
        9 => {
            "SELECT rowid, account, number, moment, session, rating_group, blocks, rated, \
             collected, uncollected FROM charges ORDER BY rowid"
        }
        10 => "SELECT rowid, number, starts, content FROM books ORDER BY rowid",
        11 => "SELECT rowid, account, session, rating_group, book FROM grant_books ORDER BY rowid",
        12 => "SELECT rowid, account, number FROM allowance_buckets ORDER BY rowid",
        _ => "SELECT rowid, account, number, blocks FROM covered ORDER BY rowid",
    }
}

const META: &str = "CREATE TABLE meta (
  id INT NOT NULL PRIMARY KEY CHECK (id >= 0), -- always 1
  version INTEGER NOT NULL CHECK (version >= 0), -- of these tables
  book TEXT NOT NULL, -- the tariff book, as TOML
  last_moment INTEGER NOT NULL CHECK (last_moment >= 0) -- of the last accepted command, in seconds since 1970
) STRICT";

const ACCOUNTS: &str = "CREATE TABLE accounts (
  account TEXT NOT NULL, -- E.164 number, digits alone
  barred INTEGER NOT NULL CHECK (barred >= 0), -- 0 or 1
  as_of INTEGER NOT NULL CHECK (as_of >= 0), -- moment that the rows of the account stand for
  next_bucket INTEGER NOT NULL CHECK (next_bucket >= 0), -- number of the next bucket
  next_charge INTEGER NOT NULL CHECK (next_charge >= 0), -- number of the next charge
  PRIMARY KEY (account)
) STRICT";

const BUCKETS: &str = "CREATE TABLE buckets (
  account TEXT NOT NULL,
  number INTEGER NOT NULL CHECK (number >= 0), -- from 1 in each account
  starts INTEGER NOT NULL CHECK (starts >= 0), -- first moment of its use
  ends INTEGER NOT NULL CHECK (ends >= 0), -- first moment at which it is over
  scope INTEGER CHECK (scope >= 0), -- the one rating group that it pays for; NULL: all
  credited INTEGER NOT NULL CHECK (credited >= 0), -- micro-units, as each amount
  available INTEGER NOT NULL CHECK (available >= 0), -- neither reserved nor charged, before its end
  reserved INTEGER NOT NULL CHECK (reserved >= 0), -- held for live sessions
  charged INTEGER NOT NULL CHECK (charged >= 0),
  expired INTEGER NOT NULL CHECK (expired >= 0), -- left at its end
  PRIMARY KEY (account, number),
  CHECK (credited = available + reserved + charged + expired),
  FOREIGN KEY (account) REFERENCES accounts (account)
) STRICT";

const COUNTERS: &str = "CREATE TABLE counters (
  account TEXT NOT NULL,
  rating_group INTEGER NOT NULL CHECK (rating_group >= 0),
  cycle INTEGER NOT NULL CHECK (cycle >= 0), -- number of the day, the month, or 0
  blocks INTEGER NOT NULL CHECK (blocks >= 0), -- started in the cycle
  PRIMARY KEY (account, rating_group, cycle),
  FOREIGN KEY (account) REFERENCES accounts (account)
) STRICT";

const SESSIONS: &str = "CREATE TABLE sessions (
  account TEXT NOT NULL,
  session TEXT NOT NULL, -- Session-Id
  last_number INTEGER NOT NULL CHECK (last_number >= 0), -- CC-Request-Number of the last accepted request
  touched INTEGER NOT NULL CHECK (touched >= 0), -- moment of that request
  state INTEGER NOT NULL CHECK (state >= 0), -- 1 open, 2 ended, 3 never opened
  PRIMARY KEY (account, session),
  FOREIGN KEY (account) REFERENCES accounts (account)
) STRICT";

const SESSION_GROUPS: &str = "CREATE TABLE session_groups (
  account TEXT NOT NULL,
  session TEXT NOT NULL,
  rating_group INTEGER NOT NULL CHECK (rating_group >= 0),
  used INTEGER NOT NULL CHECK (used >= 0), -- units
  reserved INTEGER NOT NULL CHECK (reserved >= 0), -- 1 with a reservation, 0 without
  period_before TEXT, -- tariff period at the grant
  period_after TEXT, -- tariff period at the switch
  PRIMARY KEY (account, session, rating_group),
  FOREIGN KEY (account, session) REFERENCES sessions (account, session)
) STRICT";

const HOLDS: &str = "CREATE TABLE holds (
  account TEXT NOT NULL,
  session TEXT NOT NULL,
  rating_group INTEGER NOT NULL CHECK (rating_group >= 0),
  bucket INTEGER NOT NULL CHECK (bucket >= 0), -- number of the bucket
  amount INTEGER NOT NULL CHECK (amount >= 0), -- micro-units
  PRIMARY KEY (account, session, rating_group, bucket),
  FOREIGN KEY (account, session, rating_group) REFERENCES session_groups (account, session, rating_group),
  FOREIGN KEY (account, bucket) REFERENCES buckets (account, number)
) STRICT";

const ANSWERS: &str = "CREATE TABLE answers (
  account TEXT NOT NULL,
  kind INTEGER NOT NULL CHECK (kind >= 0), -- 1 request of a session, 2 reference of an operator
  name TEXT NOT NULL, -- Session-Id or reference
  number INTEGER NOT NULL CHECK (number >= 0), -- CC-Request-Number; 0 with a reference
  content TEXT NOT NULL, -- the command, as JSON
  answer TEXT NOT NULL, -- its first answer, as JSON
  PRIMARY KEY (account, kind, name, number),
  FOREIGN KEY (account) REFERENCES accounts (account)
) STRICT";

const VOUCHERS: &str = "CREATE TABLE vouchers (
  code TEXT NOT NULL, -- 12 digits
  amount INTEGER NOT NULL CHECK (amount >= 0), -- micro-units
  days INTEGER CHECK (days >= 0), -- that it lasts; NULL: no end
  scope INTEGER CHECK (scope >= 0), -- as of a bucket
  account TEXT, -- that redeemed it; NULL: not spent
  PRIMARY KEY (code),
  FOREIGN KEY (account) REFERENCES accounts (account)
) STRICT";

const CHARGES: &str = "CREATE TABLE charges (
  account TEXT NOT NULL,
  number INTEGER NOT NULL CHECK (number >= 0), -- from 1 in each account
  moment INTEGER NOT NULL CHECK (moment >= 0),
  session TEXT NOT NULL,
  rating_group INTEGER NOT NULL CHECK (rating_group >= 0),
  blocks INTEGER NOT NULL CHECK (blocks >= 0), -- started
  rated INTEGER NOT NULL CHECK (rated >= 0), -- micro-units that the blocks cost
  collected INTEGER NOT NULL CHECK (collected >= 0), -- paid
  uncollected INTEGER NOT NULL CHECK (uncollected >= 0), -- not paid
  PRIMARY KEY (account, number),
  CHECK (rated = collected + uncollected),
  FOREIGN KEY (account) REFERENCES accounts (account)
) STRICT";

/// The index by which the live sessions of an account are found.
const SESSIONS_STATE: &str = "CREATE INDEX sessions_state ON sessions (account, state)";

/// The index by which the counters of a cycle are found.
const COUNTERS_CYCLE: &str = "CREATE INDEX counters_cycle ON counters (account, cycle)";

const BOOKS: &str = "CREATE TABLE books (
  number INT NOT NULL CHECK (number >= 0), -- from 2; the first stands in meta
  starts INTEGER NOT NULL CHECK (starts >= 0), -- first moment at which it holds
  content TEXT NOT NULL, -- the tariff book, as TOML
  PRIMARY KEY (number)
) STRICT";

const GRANT_BOOKS: &str = "CREATE TABLE grant_books (
  account TEXT NOT NULL,
  session TEXT NOT NULL,
  rating_group INTEGER NOT NULL CHECK (rating_group >= 0),
  book INTEGER NOT NULL CHECK (book >= 0), -- number of the book that the reservation goes by
  PRIMARY KEY (account, session, rating_group),
  FOREIGN KEY (account, session, rating_group) REFERENCES session_groups (account, session, rating_group)
) STRICT";

/// The index by which the buckets of an account are found that aren't spent.
const BUCKETS_LIVE: &str = "CREATE INDEX buckets_live ON buckets (account, available, reserved)";

const ALLOWANCE_BUCKETS: &str = "CREATE TABLE allowance_buckets (
  account TEXT NOT NULL,
  number INTEGER NOT NULL CHECK (number >= 0), -- of the bucket, whose columns count blocks
  PRIMARY KEY (account, number),
  FOREIGN KEY (account, number) REFERENCES buckets (account, number)
) STRICT";

const COVERED: &str = "CREATE TABLE covered (
  account TEXT NOT NULL,
  number INTEGER NOT NULL CHECK (number >= 0), -- of the charge
  blocks INTEGER NOT NULL CHECK (blocks >= 0), -- that allowances paid
  PRIMARY KEY (account, number),
  FOREIGN KEY (account, number) REFERENCES charges (account, number)
) STRICT";

/// The text that makes a table or an index, by its place among what all versions add.
pub(crate) fn piece_text(place: usize) -> &'static str
    requires { place < 17 }
    ensures { result.now ≡ slice_index_or all_texts place [] }
{
    match place {
        0 => META,
        1 => ACCOUNTS,
        2 => BUCKETS,
        3 => COUNTERS,
        4 => SESSIONS,
        5 => SESSION_GROUPS,
        6 => HOLDS,
        7 => ANSWERS,
        8 => VOUCHERS,
        9 => CHARGES,
        10 => SESSIONS_STATE,
        11 => COUNTERS_CYCLE,
        12 => BOOKS,
        13 => GRANT_BOOKS,
        14 => BUCKETS_LIVE,
        15 => ALLOWANCE_BUCKETS,
        _ => COVERED,
    }
}
