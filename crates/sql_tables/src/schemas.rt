//! Which tables a database has.

ghost use Rattle.std.specs.Prelude.{◌≡◌, ◌↔◌, IsTrue};
ghost use Rattle.std.specs.List.{list_any};
ghost use Rattle.sqlite_schema.specs.Names.{same_name};
ghost use Rattle.sql_tables.specs.Ours.{has_ours, is_ours};
ghost use Rattle.sql_tables.specs.Texts.{stage};

use crate::texts::NAMES;
use sqlite_schema::names::same_name;
use sqlite_schema::schema::Schema;

/// Whether a name is one of these, but for the case of its letters.
fn is_among(names: &[&[u8]], name: &[u8]) -> bool
    ensures { result ≡ list_any (λ own. same_name own.now name.now) names.now }
{
    names.iter().any(|own| same_name(own, name))
}

/// Whether a name is that of one of the tables, but for the case of its letters.
fn is_ours(name: &[u8]) -> bool
    ensures { result ≡ is_ours name.now }
{
    is_among(&NAMES, name)
}

/// Whether a database has a table whose name is that of one of ours, but for the case of its
/// letters.
pub fn has_ours(schema: &Schema) -> bool
    ensures { result ≡ has_ours schema.now }
{
    'tables: for table in schema.tables.as_slice() {
        if is_ours(table.name.as_slice()) {
            return true;
        }
    }
    false
}

/// Whether a database has no table, no index and nothing else.
// rule: tables
pub fn is_blank(schema: &Schema) -> bool
    ensures { IsTrue result ↔ (schema.now ≡ stage 0) }
{
    schema.tables.is_empty() && schema.indexes.is_empty() && schema.views.is_empty()
}
