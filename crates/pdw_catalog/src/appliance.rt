ghost use Rattle.std.specs.Prelude.{◌≡◌, ◌+◌, ◌≤◌, ◌<◌, ◌++◌, length, vec_len, IfOk, OnOk, OnErr, IsSome, true};
ghost use Rattle.std.specs.List.{flat_map};
ghost use Rattle.pdw_catalog.specs.Table.{FitsTable, most_rows};
ghost use Rattle.pdw_catalog.specs.Catalog.{table_named};
ghost use Rattle.pdw_catalog.specs.Appliance.{CanCreate, CanAppend, HasTable, IsSound, IsTable, Stores, bag_at, bags_of, creating, dropping, empty_of, GainsRows, GainsTable, whole_of};

use crate::node_bags::NodeBags;
use crate::{Catalog, Table};
use pdw_base::{Bag, NoMemory, NodeCount, Row, Str};
use std::alloc::Global;
use std::marker::Model;

/// One control node and 1 to 16 compute nodes: the tables, and the rows of each at each compute node.
#[derive(Drop)]
pub struct Appliance {
    nodes: NodeCount,
    catalog: Catalog,
    // For each table of the catalogue, in its order, the rows at each compute node.
    bags: Vec<NodeBags>,
}

impl Model for Appliance {
    ghost use Rattle.pdw_catalog.specs.Appliance.{Contents, IsSound as Sound};

    ghost Value = { Contents };

    ghost view = { λ a. record { nodes = a.nodes; tables = a.catalog; bags = a.bags.items } };

    ghost invariant = { λ a. Sound (record { nodes = a.nodes; tables = a.catalog; bags = a.bags.items }) };
}

impl Appliance {
    /// An appliance without tables.
    pub fn new(alloc: Global, n: NodeCount) -> Result<Appliance, NoMemory>
        ensures { IfOk result (λ appliance. appliance ≡ empty_of n) }
    {
        prove!(n.get() >= 1 && n.get() <= 16);
        Ok(Appliance {
            nodes: n,
            catalog: Catalog::new(alloc),
            bags: Vec::new(alloc),
        })
    }

    pub fn nodes(&self) -> NodeCount
        ensures { result ≡ self.now.nodes }
    {
        self.nodes
    }

    pub fn catalog(&self) -> &Catalog
        ensures tables { result.now ≡ self.now.tables }
        ensures sound { IsSound self.now }
    {
        &self.catalog
    }

    /// The table of a name.
    pub fn table(&self, name: &Str) -> &Table
        requires { HasTable self.now name.now }
        ensures named { table_named name.now self.now.tables ≡ Some result.now }
        ensures shape { IsTable result.now }
        ensures limit { length (whole_of name.now self.now) ≤ most_rows result.now.placing }
    {
        let (table, _) = self.stored(name);
        table
    }

    /// Makes an empty table. Out of memory leaves the appliance as it was.
    pub fn create_table(&mut self, alloc: Global, t: Table) -> Result<(), NoMemory>
        requires { CanCreate self.old t }
        ensures ok { OnOk result (self.new ≡ creating self.old t) }
        ensures gained { OnOk result (GainsTable self.old self.new t) }
        ensures err { OnErr result (self.new ≡ self.old) }
    {
        let name = t.name.try_copy(alloc)?;
        let bags = NodeBags::empty(alloc, self.nodes)?;
        self.bags.push(bags)?;
        if let Err(error) = self.catalog.insert(name, t) {
            let _ = self.bags.pop();
            return Err(error);
        }
        Ok(())
    }

    /// Removes a table with its rows. It takes no memory.
    pub fn drop_table(&mut self, name: &Str)
        requires { HasTable self.old name.now }
        ensures { self.new ≡ dropping self.old name.now }
    {
        let place = self.catalog.remove(name).unwrap();
        self.bags.remove(place);
    }

    /// Adds rows to a table: each where the hash of its column says, or a copy at each compute node.
    /// Out of memory leaves the appliance as it was.
    pub fn append_rows(&mut self, alloc: Global, name: &Str, rows: Vec<Row>) -> Result<(), NoMemory>
        requires { CanAppend self.old name.now rows.items }
        ensures ok { OnOk result (GainsRows self.old self.new name.now rows.items) }
        ensures err { OnErr result (self.new ≡ self.old) }
    {
        let (place, table) = self.catalog.find(name).unwrap();
        let placing = table.placing;
        let bags = &mut self.bags[place];
        bags.append(alloc, placing, self.nodes, rows)
    }

    /// The rows of a table at a compute node.
    pub fn rows_at(&self, name: &Str, node: u32) -> &Bag
        requires there { HasTable self.now name.now }
        requires within { node < self.now.nodes }
        ensures rows { result.now ≡ bag_at node name.now self.now }
        ensures sound { IsSound self.now }
    {
        let (_, bags) = self.stored(name);
        bags.at(node)
    }

    /// How many rows the whole table has.
    pub fn row_count(&self, name: &Str) -> usize
        requires { HasTable self.now name.now }
        ensures { result ≡ length (whole_of name.now self.now) }
    {
        let (table, bags) = self.stored(name);
        bags.row_count(table.placing)
    }

    /// The bags that make up a whole table, in the order of `whole`.
    pub fn parts(&self, name: &Str) -> &[Bag]
        requires { HasTable self.now name.now }
        ensures { flat_map (λ bag. bag) result.now ≡ whole_of name.now self.now }
    {
        let (table, bags) = self.stored(name);
        bags.parts(table.placing)
    }

    /// All rows of a table.
    pub fn whole(&self, alloc: Global, name: &Str) -> Result<Bag, NoMemory>
        requires { HasTable self.now name.now }
        ensures { IfOk result (λ bag. bag ≡ whole_of name.now self.now) }
    {
        let (table, bags) = self.stored(name);
        bags.whole(alloc, table.placing)
    }

    // A table with its rows at the nodes.
    fn stored(&self, name: &Str) -> (&Table, &NodeBags)
        requires { HasTable self.now name.now }
        ensures table { table_named name.now self.now.tables ≡ Some result.0.now }
        ensures bags { result.1.now ≡ bags_of name.now self.now }
        ensures stores { Stores self.now.nodes result.0.now result.1.now }
        ensures sound { IsSound self.now }
    {
        let (place, table) = self.catalog.find(name).unwrap();
        (table, &self.bags[place])
    }
}
