ghost use Rattle.std.specs.Prelude.{◌≡◌, List};
ghost use Rattle.pdw_base.specs.Schema.{cell};
ghost use Rattle.pdw_base.specs.declared.node.Node.{Node as NodeName};
ghost use Rattle.pdw_move.specs.Placed.{moved, rows_at};
ghost use Rattle.pdw_move.specs.declared.placed.Placed.{Placed as PlacedRows};
ghost use Rattle.pdw_machine.specs.declared.event.Event.{Event as Happens};
ghost use Rattle.pdw_machine.specs.Events.{replay};
ghost use Rattle.pdw_machine.specs.Machine.{Job, start_of};
ghost use Rattle.pdw_dms.specs.Moved.{AddsUp, moved_in};

/// After any list of events from a start, enabled or not, the rows that are written at a target, in its inbox, on links
/// to it, in packets that are filled and still to be read for it are together those that are meant for it.
pub fn rows_add_up()
    ensures { (job : Job) (placed : PlacedRows) (events : List Happens) → AddsUp job (replay job events (start_of job.nodes placed)) }
{}

/// The rows that are meant for a target are those that the move brings to it.
pub fn rows_are_moved()
    ensures { (job : Job) (placed : PlacedRows) (to : NodeName) → moved_in job (start_of job.nodes placed) to ≡ moved job.nodes job.mv (cell job.columns) (rows_at placed) to }
{}
