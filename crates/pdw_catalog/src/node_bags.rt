ghost use Rattle.std.specs.Prelude.{◌≡◌, [], ◌++◌, ◌<◌, ◌≤◌, length, map, replicate, IfOk, OnOk, OnErr};
ghost use Rattle.std.specs.List.{flat_map};
ghost use Rattle.pdw_base.specs.Hash.{node_for};
ghost use Rattle.pdw_catalog.specs.Table.{most_rows, value_at};
ghost use Rattle.pdw_catalog.specs.Appliance.{at_node, whole_rows};
ghost use Rattle.pdw_catalog.specs.NodeBags.{Adds, Copied, CopiedToFirst, Extends, Placed, Shortened};

use crate::table::Placing;
use pdw_base::{Bag, MOST_HASH_ROWS, NoMemory, NodeCount, Row, Value, node_of};
use std::alloc::Global;
use std::marker::Model;

/// The rows of one table at each compute node.
#[derive(Drop)]
pub struct NodeBags {
    bags: Vec<Bag>,
}

impl Model for NodeBags {
    ghost use Rattle.std.specs.Prelude.{List};
    ghost use Rattle.std.specs.Coded.{coded_list};
    ghost use Rattle.pdw_base.specs.declared.value.Value.{Value as SqlValue};
    ghost use Rattle.pdw_base.specs.contracts.value.Value.{the_row};

    ghost Value = { List (List (List SqlValue)) };

    ghost coded = { coded_list (coded_list (coded_list the_row.coded)) };

    ghost view = { λ b. b.bags.items };
}

// The compute node of a row that is placed by the hash of a column. One that lacks the column counts as NULL.
fn node_of_row(row: &Row, column: u32, nodes: NodeCount) -> u32
    ensures node { result ≡ node_for nodes (value_at column row.now) }
    ensures within { result < nodes }
{
    match row.values().get(column as usize) {
        Some(value) => node_of(value, nodes),
        None => node_of(&Value::Null, nodes),
    }
}

// The rows, copied.
fn copy_rows(alloc: Global, rows: &[Row]) -> Result<Vec<Row>, NoMemory>
    ensures { IfOk result (λ copies. copies.items ≡ rows.now) }
{
    let mut copies = Vec::with_capacity(alloc, rows.len())?;
    for row in rows {
        copies.push(row.try_copy(alloc)?)?;
    }
    Ok(copies)
}

impl NodeBags {
    /// No row at any of the nodes.
    pub fn empty(alloc: Global, nodes: NodeCount) -> Result<NodeBags, NoMemory>
        ensures { IfOk result (λ bags. bags ≡ replicate nodes []) }
    {
        let count = nodes.get();
        let mut bags = Vec::with_capacity(alloc, count as usize)?;
        for _node in 0..count {
            bags.push(Bag::new(alloc))?;
        }
        Ok(NodeBags { bags })
    }

    /// The rows at a node.
    pub fn at(&self, node: u32) -> &Bag
        requires { node < length self.now }
        ensures { result.now ≡ at_node node self.now }
    {
        &self.bags[node as usize]
    }

    /// How many rows the whole table has.
    pub fn row_count(&self, placing: Placing) -> usize
        requires some { 0 < length self.now }
        requires limit { length (whole_rows placing self.now) ≤ most_rows placing }
        ensures { result ≡ length (whole_rows placing self.now) }
    {
        match placing {
            Placing::Hash(_) => self.all_count(),
            Placing::Replicate => self.bags[0].rows().len(),
        }
    }

    /// The bags that make up the whole table: those of all nodes, or one copy.
    pub fn parts(&self, placing: Placing) -> &[Bag]
        requires { 0 < length self.now }
        ensures { flat_map (λ bag. bag) result.now ≡ whole_rows placing self.now }
    {
        match placing {
            Placing::Hash(_) => self.bags.as_slice(),
            Placing::Replicate => &self.bags[..1],
        }
    }

    /// All rows of the table.
    pub fn whole(&self, alloc: Global, placing: Placing) -> Result<Bag, NoMemory>
        requires { 0 < length self.now }
        ensures { IfOk result (λ bag. bag ≡ whole_rows placing self.now) }
    {
        match placing {
            Placing::Hash(_) => self.all(alloc),
            Placing::Replicate => self.bags[0].try_copy(alloc),
        }
    }

    /// Adds rows where the placing says. Out of memory leaves all as it was.
    pub fn append(
        &mut self,
        alloc: Global,
        placing: Placing,
        nodes: NodeCount,
        rows: Vec<Row>,
    ) -> Result<(), NoMemory>
        requires count { length self.old ≡ nodes }
        requires some { 0 < length self.old }
        ensures ok { OnOk result (Adds nodes placing self.old self.new rows.items) }
        ensures err { OnErr result (self.new ≡ self.old) }
    {
        let lengths = self.lengths(alloc)?;
        if let Err(error) = self.add(alloc, placing, nodes, rows) {
            self.shorten(lengths.as_slice());
            return Err(error);
        }
        Ok(())
    }

    // Adds rows where the placing says. Out of memory may leave some of them behind those that were there.
    fn add(
        &mut self,
        alloc: Global,
        placing: Placing,
        nodes: NodeCount,
        rows: Vec<Row>,
    ) -> Result<(), NoMemory>
        requires count { length self.old ≡ nodes }
        requires some { 0 < length self.old }
        ensures ok { OnOk result (Adds nodes placing self.old self.new rows.items) }
        ensures err { OnErr result (Extends self.old self.new) }
    {
        match placing {
            Placing::Hash(column) => self.place(column, nodes, rows),
            Placing::Replicate => self.copy_to_each(alloc, rows),
        }
    }

    // How many rows the nodes have together.
    fn all_count(&self) -> usize
        requires { length (flat_map (λ bag. bag) self.now) ≤ MOST_HASH_ROWS }
        ensures { result ≡ length (flat_map (λ bag. bag) self.now) }
    {
        let mut count = 0;
        for bag in self.bags.iter() {
            count += bag.rows().len();
        }
        count
    }

    // The rows of all nodes.
    fn all(&self, alloc: Global) -> Result<Bag, NoMemory>
        ensures { IfOk result (λ bag. bag ≡ flat_map (λ bag. bag) self.now) }
    {
        let mut all = Bag::new(alloc);
        for bag in self.bags.iter() {
            let mut copies = copy_rows(alloc, bag.rows())?;
            all.append(&mut copies)?;
        }
        Ok(all)
    }

    // How many rows each node has.
    fn lengths(&self, alloc: Global) -> Result<Vec<usize>, NoMemory>
        ensures { IfOk result (λ lengths. lengths.items ≡ map (λ bag. length bag) self.now) }
    {
        let mut lengths = Vec::with_capacity(alloc, self.bags.len())?;
        for bag in self.bags.iter() {
            lengths.push(bag.rows().len())?;
        }
        Ok(lengths)
    }

    // Each row goes to the node that the hash of its column gives.
    fn place(&mut self, column: u32, nodes: NodeCount, rows: Vec<Row>) -> Result<(), NoMemory>
        requires { length self.old ≡ nodes }
        ensures ok { OnOk result (Placed nodes column self.old self.new rows.items) }
        ensures err { OnErr result (Extends self.old self.new) }
    {
        for row in rows {
            let node = node_of_row(&row, column, nodes) as usize;
            let bag = &mut self.bags[node];
            bag.push(row)?;
        }
        Ok(())
    }

    // Each node gains all of the rows. The last node takes the rows themselves.
    fn copy_to_each(&mut self, alloc: Global, mut rows: Vec<Row>) -> Result<(), NoMemory>
        requires { 0 < length self.old }
        ensures ok { OnOk result (Copied self.old self.new rows.items) }
        ensures err { OnErr result (Extends self.old self.new) }
    {
        let last = self.bags.len() - 1;
        self.copy_to_first(alloc, last, rows.as_slice())?;
        let bag = &mut self.bags[last];
        bag.append(&mut rows)
    }

    // The first `count` nodes gain all of the rows.
    fn copy_to_first(&mut self, alloc: Global, count: usize, rows: &[Row]) -> Result<(), NoMemory>
        requires { count ≤ length self.old }
        ensures ok { OnOk result (CopiedToFirst count self.old self.new rows.now) }
        ensures err { OnErr result (Extends self.old self.new) }
    {
        for node in 0..count {
            let mut copies = copy_rows(alloc, rows)?;
            let bag = &mut self.bags[node];
            bag.append(&mut copies)?;
        }
        Ok(())
    }

    // Each node keeps as many of its first rows as its number says. It takes no memory.
    fn shorten(&mut self, lengths: &[usize])
        requires { length lengths.now ≡ length self.old }
        ensures { Shortened lengths.now self.old self.new }
    {
        for node in 0..lengths.len() {
            let bag = &mut self.bags[node];
            bag.truncate(lengths[node]);
        }
    }
}
