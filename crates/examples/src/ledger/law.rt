//! What is proved about a group of ledgers.
ghost use Rattle.examples.specs.Law.{SheetsAgreeAtRest};

/// A law that follows from what the kit says about followers and the sheet's steps alone. If a group of ledgers has
/// come to rest, in threads or by a seed, all live nodes have the same sheet. In uniform mode no more nodes may have
/// crashed than are tolerated, unless none is tolerated.
pub fn sheets_agree_at_rest()
    ensures { SheetsAgreeAtRest }
{}
