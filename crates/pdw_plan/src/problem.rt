use pdw_base::NodeCount;
use pdw_memo::Memo;
use pdw_move::Constants;
use pdw_stats::StatsBook;

/// What plans are for: the memo of a statement, the statistics of its tables, and the number of compute nodes and the cost
/// constants of an appliance.
#[derive(Drop)]
pub struct Problem<'a> {
    pub memo: &'a Memo,
    pub book: &'a StatsBook,
    pub n: NodeCount,
    pub constants: &'a Constants,
}
