use pdw_base::Schema;
use pdw_move::Placed;

/// Temporary tables by their numbers: the rows of each at the nodes, and its columns, in the same order.
#[derive(Drop)]
pub struct Temporaries {
    pub placed: Vec<Placed>,
    pub schemas: Vec<Schema>,
}
