//! Whether two schemas are the same.

ghost use Rattle.std.specs.Prelude.{◌≡◌, ◌<◌, ◌↔◌, Bool, true, IsTrue, MatchOption};
ghost use Rattle.std.specs.List.{list_all};
ghost use Rattle.sqlite_value.specs.declared.value.Value.TheVariants.{Null};
ghost use Rattle.sqlite_sql.specs.Term.{lit};
ghost use Rattle.sqlite_schema.specs.Code.{op_term, term_to, terms_in};
ghost use Rattle.sql_tables.specs.Plain.{is_plain, is_plain_column, is_plain_stamps};
ghost use Rattle.sql_tables.specs.Plain.{is_plain_table, is_plain_term, is_plain_value};

use sqlite_items::Items;
use sqlite_schema::code::{Op, Terms};
use sqlite_schema::schema::{Column, Index, Reference, Schema, Stamps, Table, View};
use sqlite_value::keys::Order;
use sqlite_value::value::{Bytes, Value};

/// A test that two values are equal. It misses none that are where no number with a fraction
/// is there.
trait Same {
    ghost plain: { Self → Bool };

    fn same(&self, other: &Self) -> bool
        ensures equal { IsTrue result → self.now ≡ other.now }
        ensures all { IsTrue (plain self.now) → self.now ≡ other.now → IsTrue result };
}

fn all_same<T: Same>(first: &[T], second: &[T]) -> bool
    ensures equal { IsTrue result → first.now ≡ second.now }
    ensures all { IsTrue (list_all T.plain first.now) → first.now ≡ second.now → IsTrue result }
{
    if first.len() != second.len() {
        return false;
    }
    'rows: for at in 0..first.len() {
        if !first[at].same(&second[at]) {
            return false;
        }
    }
    true
}

impl<T: Same> Same for Items<T> {
    ghost plain = { λ items. list_all T.plain items };

    fn same(&self, other: &Items<T>) -> bool {
        all_same(self.as_slice(), other.as_slice())
    }
}

impl Same for usize {
    ghost plain = { λ _. true };

    fn same(&self, other: &usize) -> bool {
        *self == *other
    }
}

impl Same for Bytes {
    ghost plain = { λ _. true };

    fn same(&self, other: &Bytes) -> bool {
        self.as_slice() == other.as_slice()
    }
}

impl Same for Order {
    ghost plain = { λ _. true };

    fn same(&self, other: &Order) -> bool {
        self.digits == other.digits
    }
}

impl Same for Value {
    ghost plain = { is_plain_value };

    fn same(&self, other: &Value) -> bool {
        match (self, other) {
            (Value::Null, Value::Null) => true,
            (Value::Int(m), Value::Int(n)) => *m == *n,
            (Value::Text(s), Value::Text(t)) => s.same(t),
            (Value::Blob(s), Value::Blob(t)) => s.same(t),
            _ => false,
        }
    }
}

/// The node at a place that is read to a depth, and the depth of what it names. None is NULL.
fn node_at(ops: &[Op], depth: usize, at: usize) -> Option<(&Op, usize)>
    ensures { MatchOption result (term_to ops.now depth at ≡ lit Null)
        (λ found. (term_to ops.now depth at ≡ op_term (term_to ops.now found.1) found.0.now)
        × (found.1 < depth)) }
{
    if depth == 0 || at >= ops.len() {
        return None;
    }
    Some((&ops[at], depth - 1))
}

/// Whether the node at a place, read to a depth, is NULL: also one that isn't there.
fn is_null(ops: &[Op], depth: usize, at: usize) -> bool
    ensures { IsTrue result ↔ (term_to ops.now depth at ≡ lit Null) }
{
    match node_at(ops, depth, at) {
        None => true,
        Some((Op::Literal(Value::Null), _)) => true,
        Some(_) => false,
    }
}

/// Whether the nodes at two places, each read to a depth, are the same expression.
fn same_term(
    first: &[Op],
    depth: usize,
    at: usize,
    second: &[Op],
    deep: usize,
    place: usize,
) -> bool
    ensures equal { IsTrue result → term_to first.now depth at ≡ term_to second.now deep place }
    ensures all { IsTrue (is_plain_term (term_to first.now depth at))
        → term_to first.now depth at ≡ term_to second.now deep place → IsTrue result }
{
    let Some((one, below)) = node_at(first, depth, at) else {
        return is_null(second, deep, place);
    };
    let Some((two, under)) = node_at(second, deep, place) else {
        return is_null(first, depth, at);
    };
    match (one, two) {
        (Op::Literal(a), Op::Literal(b)) => a.same(b),
        (Op::Column(slot, at), Op::Column(to, place)) => *slot == *to && *at == *place,
        (Op::Unary(f, a), Op::Unary(g, b)) => {
            if *f != *g {
                return false;
            }
            same_term(first, below, *a, second, under, *b)
        }
        (Op::Binary(f, a, b), Op::Binary(g, c, d)) => {
            if *f != *g {
                return false;
            }
            if !same_term(first, below, *a, second, under, *c) {
                return false;
            }
            same_term(first, below, *b, second, under, *d)
        }
        (Op::Case(a, b, c), Op::Case(d, e, f)) => {
            if !same_term(first, below, *a, second, under, *d) {
                return false;
            }
            if !same_term(first, below, *b, second, under, *e) {
                return false;
            }
            same_term(first, below, *c, second, under, *f)
        }
        _ => false,
    }
}

/// The expressions of two lists of roots; how their nodes are laid out is nothing to it.
fn same_terms(first: &[Op], roots: &[usize], second: &[Op], others: &[usize]) -> bool
    ensures equal { IsTrue result → terms_in first.now roots.now ≡ terms_in second.now others.now }
    ensures all { IsTrue (list_all is_plain_term (terms_in first.now roots.now))
        → terms_in first.now roots.now ≡ terms_in second.now others.now → IsTrue result }
{
    if roots.len() != others.len() {
        return false;
    }
    'roots: for at in 0..roots.len() {
        if !same_term(
            first,
            first.len(),
            roots[at],
            second,
            second.len(),
            others[at],
        ) {
            return false;
        }
    }
    true
}

impl Same for Terms {
    ghost plain = { λ terms. list_all is_plain_term terms };

    fn same(&self, other: &Terms) -> bool {
        same_terms(
            self.nodes.as_slice(),
            self.roots.as_slice(),
            other.nodes.as_slice(),
            other.roots.as_slice(),
        )
    }
}

impl Same for Column {
    ghost plain = { is_plain_column };

    fn same(&self, other: &Column) -> bool {
        self.name.same(&other.name)
            && self.kind == other.kind
            && self.is_strict == other.is_strict
            && self.not_null == other.not_null
            && self.default.same(&other.default)
            && self.collation == other.collation
    }
}

fn same_actions(first: &Reference, second: &Reference) -> bool
    ensures { IsTrue result ↔ ((first.now.on_delete ≡ second.now.on_delete)
        × (first.now.on_update ≡ second.now.on_update)
        × (first.now.is_deferred ≡ second.now.is_deferred)) }
{
    first.on_delete == second.on_delete
        && first.on_update == second.on_update
        && first.is_deferred == second.is_deferred
}

impl Same for Reference {
    ghost plain = { λ _. true };

    #[tactic(auto, using(crate::proofs::Plains::all_plain, crate::proofs::Plains::all_lists_plain))]
    fn same(&self, other: &Reference) -> bool {
        if !self.columns.same(&other.columns) {
            return false;
        }
        if !self.parent.same(&other.parent) || !self.parent_columns.same(&other.parent_columns) {
            return false;
        }
        same_actions(self, other)
    }
}

impl Same for Stamps {
    ghost plain = { is_plain_stamps };

    #[tactic(auto, using(crate::proofs::Plains::all_plain, crate::proofs::Plains::all_lists_plain))]
    fn same(&self, other: &Stamps) -> bool {
        self.places.same(&other.places)
            && self.terms.same(&other.terms)
            && self.formats.same(&other.formats)
    }
}

fn same_key(first: Option<usize>, second: Option<usize>) -> bool
    ensures { IsTrue result ↔ (first ≡ second) }
{
    match (first, second) {
        (None, None) => true,
        (Some(a), Some(b)) => a == b,
        _ => false,
    }
}

fn same_columns(first: &Table, second: &Table) -> bool
    ensures equal { IsTrue result →
        (first.now.name ≡ second.now.name) × (first.now.tree ≡ second.now.tree)
        × (first.now.columns ≡ second.now.columns) × (first.now.key ≡ second.now.key) }
    ensures all { IsTrue (list_all is_plain_column first.now.columns) → first.now ≡ second.now →
        IsTrue result }
{
    first.name.same(&second.name)
        && first.tree == second.tree
        && first.columns.same(&second.columns)
        && same_key(first.key, second.key)
}

#[tactic(auto, using(crate::proofs::Plains::all_plain, crate::proofs::Plains::all_lists_plain))]
fn same_keys(first: &Table, second: &Table) -> bool
    ensures { IsTrue result ↔ ((first.now.primary ≡ second.now.primary)
        × (first.now.uniques ≡ second.now.uniques) × (first.now.orders ≡ second.now.orders)) }
{
    if !first.primary.same(&second.primary) {
        return false;
    }
    if !first.uniques.same(&second.uniques) {
        return false;
    }
    first.orders.same(&second.orders)
}

#[tactic(auto, using(crate::proofs::Plains::all_plain, crate::proofs::Plains::all_lists_plain))]
fn same_rules(first: &Table, second: &Table) -> bool
    ensures equal { IsTrue result → (first.now.checks ≡ second.now.checks)
        × (first.now.references ≡ second.now.references) }
    ensures all { IsTrue (list_all is_plain_term first.now.checks) → first.now ≡ second.now →
        IsTrue result }
{
    first.checks.same(&second.checks) && first.references.same(&second.references)
}

#[tactic(auto, using(crate::proofs::Plains::all_plain, crate::proofs::Plains::all_lists_plain))]
fn same_defaults(first: &Table, second: &Table) -> bool
    ensures equal { IsTrue result → (first.now.computed ≡ second.now.computed)
        × (first.now.stamps ≡ second.now.stamps) × (first.now.is_counted ≡ second.now.is_counted) }
    ensures all { IsTrue (is_plain_stamps first.now.stamps) → first.now ≡ second.now →
        IsTrue result }
{
    first.computed.same(&second.computed)
        && first.stamps.same(&second.stamps)
        && first.is_counted == second.is_counted
}

impl Same for Table {
    ghost plain = { is_plain_table };

    fn same(&self, other: &Table) -> bool {
        if !same_columns(self, other) || !same_keys(self, other) {
            return false;
        }
        if !same_rules(self, other) {
            return false;
        }
        same_defaults(self, other)
    }
}

impl Same for Index {
    ghost plain = { λ _. true };

    #[tactic(auto, using(crate::proofs::Plains::all_plain, crate::proofs::Plains::all_lists_plain))]
    fn same(&self, other: &Index) -> bool {
        if !self.name.same(&other.name) {
            return false;
        }
        if !self.columns.same(&other.columns) || !self.order.same(&other.order) {
            return false;
        }
        self.tree == other.tree && self.table == other.table && self.is_unique == other.is_unique
    }
}

fn same_owner(first: &Option<Bytes>, second: &Option<Bytes>) -> bool
    ensures { IsTrue result ↔ (first.now ≡ second.now) }
{
    match (first, second) {
        (None, None) => true,
        (Some(a), Some(b)) => a.same(b),
        _ => false,
    }
}

impl Same for View {
    ghost plain = { λ _. true };

    fn same(&self, other: &View) -> bool {
        self.name.same(&other.name)
            && self.tree == other.tree
            && self.sql.same(&other.sql)
            && same_owner(&self.foreign, &other.foreign)
            && self.binds == other.binds
            && self.is_bound == other.is_bound
    }
}

impl Same for Schema {
    ghost plain = { is_plain };

    #[tactic(auto, using(crate::proofs::Plains::all_plain, crate::proofs::Plains::all_lists_plain))]
    fn same(&self, other: &Schema) -> bool {
        if !self.tables.same(&other.tables) || !self.indexes.same(&other.indexes) {
            return false;
        }
        self.views.same(&other.views)
    }
}

/// Whether two schemas have the same tables, indexes and views, column by column, with their checks
/// and references. Where no number with a fraction is in the first, none that is the same is
/// told apart.
pub fn same_schema(first: &Schema, second: &Schema) -> bool
    ensures equal { IsTrue result → first.now ≡ second.now }
    ensures all { IsTrue (is_plain first.now) → first.now ≡ second.now → IsTrue result }
{
    first.same(second)
}
