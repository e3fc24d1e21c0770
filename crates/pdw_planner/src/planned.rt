use pdw_memo::Memo;
use pdw_plan::{Bounds, Plan};

/// A least plan of a query, with the memo whose plans were compared, and for each of its groups and their properties the least
/// cost of any plan.
#[derive(Drop)]
pub struct Planned {
    pub memo: Memo,
    pub plan: Plan,
    pub bounds: Bounds,
}
