use pdw_base::{Bag, ColId, Kind, NoMemory, Node, NodeCount, Row, Schema, Value};
use pdw_dms::{Event, Finished, Fixed, Picker, Schedule, Transfer, drive};
use pdw_move::{Move, Placed};
use rand_core::SeedableRng;
use rand_core::utils::NextWord;
use rand_pcg::Pcg32;
use sqlite_items::Items;
use std::alloc::Global;
use std::test::Fail;

const KEY: ColId = ColId(1);

fn number(alloc: Global, value: Option<i64>) -> Result<Row, NoMemory> {
    let mut cells = Vec::new(alloc);
    match value {
        Some(value) => cells.push(Value::Int(value))?,
        None => cells.push(Value::Null)?,
    }
    Ok(Row::from_values(cells))
}

// The first compute node of two has these rows.
fn at_first(alloc: Global, values: &[Option<i64>]) -> Result<Placed, Fail> {
    let mut first = Bag::new(alloc);
    for value in values {
        first.push(number(alloc, *value)?)?;
    }
    let mut nodes = Vec::new(alloc);
    nodes.push(first)?;
    nodes.push(Bag::new(alloc))?;
    Ok(Placed {
        nodes: Items::from_vec(nodes),
        control: Bag::new(alloc),
    })
}

fn transfer(alloc: Global, mv: Move, values: &[Option<i64>]) -> Result<Transfer, Fail> {
    let schema = Schema::new(vec![in alloc; (KEY, Kind::Int)]?).ok_or("one column ascends")?;
    let nodes = NodeCount::new(2).ok_or("two nodes are allowed")?;
    let sources = at_first(alloc, values)?;
    if sources.nodes.len() != 2 {
        return Err(Fail::from("there are two bags"));
    }
    Ok(Transfer::new(alloc, mv, schema, nodes, sources)?)
}

// The numbers at a compute node, NULL as -1, in the order in which they were written.
fn numbers(alloc: Global, finished: &Finished, node: usize) -> Result<Vec<i64>, Fail> {
    let bag = finished.moved.nodes.get(node).ok_or("the node is there")?;
    let mut found = Vec::new(alloc);
    for row in bag.rows() {
        match row.values().first() {
            Some(Value::Int(value)) => found.push(*value)?,
            _ => found.push(-1)?,
        }
    }
    Ok(found)
}

// How many rows went from a node to a node.
fn sent(finished: &Finished, from: Node, to: Node) -> u64 {
    let mut count = 0;
    for entry in finished.sent.as_slice() {
        if entry.0 == from && entry.1 == to {
            count = entry.2;
        }
    }
    count
}

fn count_reads(events: &[Event]) -> usize {
    events
        .iter()
        .filter(|event| matches!(event, Event::Read(_)))
        .count()
}

#[test]
fn shuffle_of_four_rows(rt: HostRuntime) -> Result<(), Fail> {
    let alloc = rt.alloc();
    let rows = [None, Some(1), Some(2), Some(3)];
    let moving = transfer(alloc, Move::Shuffle(KEY), &rows)?;
    let finished = drive(alloc, moving, &mut Fixed(0))?;
    assert_eq!(rt;
        numbers(alloc, &finished, 0)?.as_slice(),
        [-1, 2].as_slice()
    );
    assert_eq!(rt; numbers(alloc, &finished, 1)?.as_slice(), [1, 3].as_slice());
    assert_eq!(rt; finished.moved.control.rows().len(), 0);
    assert_eq!(rt; finished.sent.len(), 9);
    assert_eq!(rt; sent(&finished, Node::Compute(0), Node::Compute(0)), 2);
    assert_eq!(rt; sent(&finished, Node::Compute(0), Node::Compute(1)), 2);
    assert_eq!(rt; sent(&finished, Node::Compute(1), Node::Compute(0)), 0);
    assert_eq!(rt; finished.events.len(), 10);
    Ok(())
}

#[test]
fn no_row_is_no_event(rt: HostRuntime) -> Result<(), Fail> {
    let alloc = rt.alloc();
    let moving = transfer(alloc, Move::ToControl, &[])?;
    assert!(rt; moving.is_finished());
    let finished = drive(alloc, moving, &mut Fixed(0))?;
    assert_eq!(rt; finished.events.len(), 0);
    Ok(())
}

#[test]
fn one_row_from_the_single_node(rt: HostRuntime) -> Result<(), Fail> {
    let alloc = rt.alloc();
    let moving = transfer(alloc, Move::FromSingle, &[Some(5)])?;
    assert_eq!(rt; moving.enabled_count(), 1);
    assert!(rt; moving.enabled(&Event::Read(Node::Compute(0))));
    assert!(rt; !moving.enabled(&Event::Copy(Node::Compute(0))));
    let finished = drive(alloc, moving, &mut Fixed(0))?;
    assert_eq!(rt; numbers(alloc, &finished, 0)?.as_slice(), [5].as_slice());
    assert_eq!(rt; numbers(alloc, &finished, 1)?.as_slice(), [5].as_slice());
    assert_eq!(rt; finished.events.len(), 7);
    Ok(())
}

#[test]
fn broadcast_of_a_thousand_rows(rt: HostRuntime) -> Result<(), Fail> {
    let alloc = rt.alloc();
    let mut rows = Vec::new(alloc);
    for value in 0..1000 {
        rows.push(Some(value))?;
    }
    let moving = transfer(alloc, Move::Broadcast, rows.as_slice())?;
    let finished = drive(alloc, moving, &mut Fixed(0))?;
    assert_eq!(rt; numbers(alloc, &finished, 0)?.len(), 1000);
    assert_eq!(rt; numbers(alloc, &finished, 1)?.len(), 1000);
    assert_eq!(rt; sent(&finished, Node::Compute(0), Node::Compute(0)), 1000);
    assert_eq!(rt; sent(&finished, Node::Compute(0), Node::Compute(1)), 1000);
    assert_eq!(rt; sent(&finished, Node::Compute(0), Node::Control), 0);
    assert_eq!(rt; finished.events.len(), 1096);
    assert_eq!(rt; count_reads(finished.events.as_slice()), 1000);
    Ok(())
}

#[test]
fn trim_under_a_drawn_schedule(rt: HostRuntime) -> Result<(), Fail> {
    let alloc = rt.alloc();
    let mut rows = Vec::new(alloc);
    for value in 0..100 {
        rows.push(Some(value))?;
    }
    let mut schedule = Schedule::new();
    schedule.start(7);
    let moving = transfer(alloc, Move::Trim(KEY), rows.as_slice())?;
    let finished = drive(alloc, moving, &mut schedule)?;
    assert_eq!(rt; numbers(alloc, &finished, 0)?.len(), 50);
    assert_eq!(rt; numbers(alloc, &finished, 1)?.len(), 0);
    assert_eq!(rt; count_reads(finished.events.as_slice()), 100);
    assert_eq!(rt; finished.events.len() % 3, 100 % 3);
    Ok(())
}

#[test]
fn schedules_count_or_draw(rt: HostRuntime) -> Result<(), Fail> {
    let mut schedule = Schedule::new();
    for answer in 0..3 {
        assert_eq!(rt; schedule.pick(9), answer);
    }
    schedule.start(7);
    let mut words = Pcg32::seed_from_u64(7);
    for _word in 0..3 {
        assert_eq!(rt; schedule.pick(9), words.next_word());
    }
    schedule.start(0);
    assert_eq!(rt; schedule.pick(9), 0);
    assert_eq!(rt; Fixed(4).pick(9), 4);
    Ok(())
}
