ghost use Rattle.std.specs.Prelude.{◌≡◌, ◌++◌, map, count_by, IfOk, OnOk};
ghost use Rattle.pdw_base.specs.Schema.{cell};
ghost use Rattle.pdw_move.specs.Move.{reaches, receivers};
ghost use Rattle.pdw_machine.specs.Machine.{sent_from};

use crate::event::node_at;
use crate::job::Job;
use pdw_base::{NoMemory, Node, NodeCount, Row};
use pdw_move::Receivers;
use std::alloc::Global;

/// Adds how many of these rows at a source go to each target.
pub(crate) fn add_sent(
    alloc: Global,
    job: &Job,
    source: Node,
    rows: &[Row],
    sent: &mut Vec<(Node, Node, u64)>,
) -> Result<(), NoMemory>
    ensures { OnOk result (sent.new.items ≡ sent.old.items ++ sent_from job.now source rows.now) }
{
    let nodes = job.nodes();
    let routes = routes_of(alloc, job, source, rows)?;
    for at in 0..nodes.get() as usize + 1 {
        let to = node_at(nodes, at);
        let count = count_to(nodes, routes.as_slice(), to);
        sent.push((source, to, count as u64))?;
    }
    Ok(())
}

// Where each row goes.
fn routes_of(
    alloc: Global,
    job: &Job,
    source: Node,
    rows: &[Row],
) -> Result<Vec<Receivers>, NoMemory>
    ensures { IfOk result (λ routes. routes.items ≡ map (λ row. receivers job.now.nodes job.now.mv source (cell job.now.columns row)) rows.now) }
{
    let mut routes = Vec::with_capacity(alloc, rows.len())?;
    for row in rows {
        routes.push(job.targets(row, source))?;
    }
    Ok(routes)
}

// How many of these rows go to a target.
fn count_to(nodes: NodeCount, routes: &[Receivers], to: Node) -> usize
    ensures { result ≡ count_by (λ route. reaches nodes route to) routes.now }
{
    routes
        .iter()
        .filter(|route| route.reaches(nodes, to))
        .count()
}
