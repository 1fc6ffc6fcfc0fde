//! What rows in their rules say of the content of the tables.

ghost use Rattle.sql_rules.specs.Laws.{ContentIsOfRuledRows, MappedRowsAreRuled, OthersKeepRules};
ghost use Rattle.sql_rules.specs.Laws.{PutsKeepRules, RemovalsKeepRules, RuledRowsAreMapped};
ghost use Rattle.sql_rules.specs.Laws.{RuledRowsAreTold, RuledRowsAreToldBeside};

/// Where each row of the latest version's tables is in its rules, so is what the tables hold; where
/// each row that another one names is there, so is each beside the others.
// rule: rows-ruled.in-rules, rows-ruled.beside
pub fn ruled_rows_are_told_ruled()
    ensures told { RuledRowsAreTold }
    ensures beside { RuledRowsAreToldBeside }
{}

/// Where the content is in its rules, the rows are in theirs, if they are as the statements write
/// them.
// rule: rows-ruled.in-rules
pub fn content_in_rules_is_of_ruled_rows()
    ensures { ContentIsOfRuledRows }
{}

/// The rows of the latest version's tables are in their rules exactly where what is under each
/// key is, as long as no rowid comes twice.
// rule: rows-ruled.mapped
pub fn ruled_rows_are_ruled_under_their_keys()
    ensures mapped { RuledRowsAreMapped }
    ensures back { MappedRowsAreRuled }
{}

/// What a statement puts in its rules leaves each table in its rules, and so does what it removes.
// rule: rows-ruled.mapped
pub fn puts_keep_the_rules()
    ensures put { PutsKeepRules }
    ensures removed { RemovalsKeepRules }
    ensures other { OthersKeepRules }
{}
