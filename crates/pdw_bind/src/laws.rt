//! The law of the tree of a form.

ghost use Rattle.pdw_algebra.specs.Meaning.{rows_of};
ghost use Rattle.pdw_algebra.specs.WellFormed.{IsWellFormed};
ghost use Rattle.pdw_bind.specs.Bind.{bound};
ghost use Rattle.pdw_bind.specs.Nodes.{nodes};
ghost use Rattle.pdw_catalog.specs.Catalog.{Tables};
ghost use Rattle.pdw_catalog.specs.Database.{Database};
ghost use Rattle.pdw_expr.specs.Env.{nulls};
ghost use Rattle.pdw_form.specs.Counts.{queries, references};
ghost use Rattle.pdw_form.specs.Numbered.{numbered};
ghost use Rattle.pdw_form.specs.Sound.{IsSound};
ghost use Rattle.pdw_form.specs.declared.judged.JudgedQuery.{JudgedQuery as Form};
ghost use Rattle.std.specs.Prelude.{◌≡◌, ◌+◌, ◌≤◌};

/// The tree of a sound numbered form is well-formed over the tables, and its rows are the rows of the form, as lists.
pub fn the_tree_means_its_form()
    ensures well_formed { (tables : Tables) (q : Form) → IsSound tables q → IsWellFormed tables (bound q) }
    ensures rows { (database : Database) (q : Form) → IsSound database.tables q → rows_of database (bound q) ≡ (numbered database q).rows nulls }
{}

/// The tree of a numbered form has a scan for each table reference, and for each query at most one filter, one projection
/// and two nodes of groups. Where the form is sound it has fewer joins than table references, no more blocks than leaves
/// of blocks, and a leaf for each table reference, each join and each query but the outermost one at most.
pub fn a_tree_has_few_nodes()
    ensures scans { (q : Form) → (nodes (bound q)).scans ≡ references q }
    ensures filters { (q : Form) → (nodes (bound q)).filters ≤ queries q }
    ensures projections { (q : Form) → (nodes (bound q)).projections ≤ queries q }
    ensures groups { (q : Form) → (nodes (bound q)).groups ≤ queries q + queries q }
    ensures joins { (tables : Tables) (q : Form) → IsSound tables q → (nodes (bound q)).joins + 1 ≤ references q }
    ensures blocks { (tables : Tables) (q : Form) → IsSound tables q → (nodes (bound q)).blocks ≤ (nodes (bound q)).leaves }
    ensures leaves { (tables : Tables) (q : Form) → IsSound tables q → (nodes (bound q)).leaves + 2 ≤ (references q + references q) + queries q }
{}
