//! The law, the contract of a function.

ghost use Rattle.std.specs.Prelude.{List, ℕ};
ghost use Rattle.pdw_algebra.specs.Local.{local_rows, temporary};
ghost use Rattle.pdw_algebra.specs.declared.local.LocalTree.{LocalTree as TreeAtNode};
ghost use Rattle.pdw_base.specs.SameBag.{SameBag};
ghost use Rattle.pdw_base.specs.Schema.{Columns, Env};
ghost use Rattle.pdw_base.specs.declared.node.Node.{Node as AnyNode};
ghost use Rattle.pdw_catalog.specs.Database.{Database};
ghost use Rattle.pdw_exec.specs.Nodes.{SameTemporaries, temporaries};
ghost use Rattle.pdw_move.specs.declared.placed.Placed.{Placed as PlacedRows};

/// What a local tree gives is a matter of bags: over tables and temporary tables with equal bags of rows, every tree gives
/// equal bags. Temporary tables that differ in the order of their rows alone give equal bags at each node.
pub fn local_trees_see_no_order()
    ensures rows { (database other : Database) (temps others : List (List Env)) → ((name : List ℕ) → SameBag (database.rows name) (other.rows name)) → ((id : ℕ) → SameBag (temporary temps id) (temporary others id)) → (tree : TreeAtNode) → SameBag (local_rows database temps tree) (local_rows other others tree) }
    ensures tables { (temps others : List PlacedRows) → SameTemporaries temps others → (schemas : List Columns) (node : AnyNode) (id : ℕ) → SameBag (temporary (temporaries temps schemas node) id) (temporary (temporaries others schemas node) id) }
{}
