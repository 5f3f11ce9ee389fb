//! Laws of import rows, for whoever proves something of views.
ghost use Rattle.policy_ready.specs.imports.Laws.{CrossesByPairs, RowsAreExported, RowsGiveViews, ViewsComeByRows};

/// A message of an account is seen in another, on another subject, across exactly the rows that lead from the one to the other
/// and whose mapping pairs the two subjects, where the other has at most 512 tokens. A row of a stream leads from the exporter
/// to the importer, one of a service from the importer to the exporter.
pub fn crosses_by_pairs()
    ensures { CrossesByPairs }
{}

/// Each view of a message is its publisher's own, or comes by a row, or is a response; and each row by which the message is
/// seen gives a view.
pub fn views_come_by_rows()
    ensures come { ViewsComeByRows }
    ensures give { RowsGiveViews }
{}

/// Each import row of a valid policy has an export that lets it in, of the account that it imports from.
pub fn rows_are_exported()
    ensures { RowsAreExported }
{}
