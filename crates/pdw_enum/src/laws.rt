//! The law of the groups of a memo that plans rest on.

ghost use Rattle.pdw_groups.specs.Memo.{Contents};
ghost use Rattle.pdw_least.specs.Reached.{AreMade};
ghost use Rattle.pdw_memo.specs.Memo.{IsMemo};

/// The first expression of each group of a memo has as many children as its operator takes, and a scan is placed by the hash of
/// a column that is interesting at its group, where it is placed by a hash. So the rows of each group can be made.
pub fn each_group_is_made()
    ensures { (contents : Contents) → IsMemo contents → AreMade contents.groups }
{}
