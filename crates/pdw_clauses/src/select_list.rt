//! The items of a query: SQL-92, 7.9.

ghost use Rattle.std.specs.Prelude.{◌≡◌, ◌==◌, [], ◌∷◌, ◌++◌, codes, length, map, IfOk};
ghost use Rattle.std.specs.Option.{option_copied};
ghost use Rattle.pdw_walk.specs.Items as spec;
ghost use Rattle.pdw_walk.specs.Walk.{Walks, and_then, is_among, made_number, over, pure};
ghost use Rattle.pdw_walk.specs.declared.fault.JudgeFault.TheVariants as fault;
ghost use Rattle.pdw_walk.specs.declared.fault.LimitName.TheVariants as limit;
ghost use Rattle.pdw_walk.specs.declared.fault.TheConstants.{MOST_ITEMS as MostItems};

use pdw_base::{Kind, NoMemory, Str};
use pdw_expr::Scalar;
use pdw_form::JItem;
use pdw_resolve::{Place, Walk, expr, item_name, own_column, text_from};
use pdw_syntax::{Item, Items, SqlExpr};
use pdw_walk::{
    Column, Entry, JudgeFault, LimitName, MOST_ITEMS, Numbered, Outputs, Role, Slot, Typed,
};
use sqlite_items::Items as ListOf;
use std::alloc::{AllocError, Global};
use std::mem::drop;

// Whether there is no room for one output column more.
fn is_full(before: &Outputs) -> bool
    ensures { result ≡ (length before.now.items == MostItems) }
{
    before.items.len() == MOST_ITEMS
}

fn too_many() -> JudgeFault
    ensures { result ≡ fault.Limit limit.Items MostItems }
{
    JudgeFault::Limit {
        which: LimitName::Items,
        most: MOST_ITEMS as u64,
    }
}

fn no_outputs(alloc: Global) -> Outputs
    ensures { result ≡ spec.no_outputs }
{
    Outputs {
        items: ListOf::new(alloc),
        columns: ListOf::new(alloc),
    }
}

// An item and the column that it shows after those before them.
fn with_item(before: Outputs, item: JItem, column: Column) -> Result<Outputs, AllocError>
    ensures items { IfOk result (λ more. more.items ≡ before.items ++ item ∷ []) }
    ensures columns { IfOk result (λ more. more.columns ≡ before.columns ++ column ∷ []) }
{
    let Outputs {
        mut items,
        mut columns,
    } = before;
    items.push(item)?;
    columns.push(column)?;
    Ok(Outputs { items, columns })
}

// One output column more.
fn with_output(
    alloc: Global,
    before: Outputs,
    name: Str,
    kind: Kind,
    column: Numbered,
    make: Option<Scalar>,
) -> Result<Outputs, NoMemory>
    ensures { IfOk result (λ more. more ≡ spec.with_output before name kind column make) }
{
    match name.try_copy(alloc) {
        Ok(copy) => {
            let item = JItem {
                name,
                out: column.number,
                make,
            };
            let shown = Column {
                name: copy,
                kind,
                slot: column.slot,
            };
            Ok(with_item(before, item, shown)?)
        }
        Err(error) => {
            drop(make);
            Err(error)
        }
    }
}

// A column of `*` or `a.*`.
#[tactic(auto, unfolding(pdw_walk::specs::Items::star_column))]
fn star_column(
    alloc: Global,
    walk: &mut Walk,
    keys: Option<&[Slot]>,
    alias: Option<&Str>,
    entry: &Entry,
    before: Outputs,
) -> Result<Outputs, JudgeFault>
    ensures { Walks (spec.star_column (option_copied keys.entry) (option_copied alias.entry) before entry.now walk.old) result walk.new }
{
    if is_full(&before) {
        return Err(too_many());
    }
    let met = own_column(alloc, walk, keys, alias, &entry.column, entry)?;
    let name = entry.column.try_copy(alloc)?;
    Ok(with_output(alloc, before, name, met.kind, met.column, None)?)
}

#[tactic(auto, using(pdw_resolve::proofs::Turns::turns))]
fn own_columns(alloc: Global, walk: &mut Walk, place: &Place<'_>) -> Result<Outputs, JudgeFault>
    ensures { Walks (over (spec.star_column place.now.keys None) spec.no_outputs place.now.own walk.old) result walk.new }
{
    let mut outputs = no_outputs(alloc);
    for entry in place.own {
        outputs = star_column(alloc, walk, place.keys, None, entry, outputs)?;
    }
    Ok(outputs)
}

// The columns of `*`. Directly in a subquery of EXISTS it uses no column and gives none.
fn star(
    alloc: Global,
    walk: &mut Walk,
    role: Role,
    place: &Place<'_>,
) -> Result<Outputs, JudgeFault>
    ensures { Walks (spec.all_columns role place.now walk.old) result walk.new }
{
    match role {
        Role::Exists => Ok(no_outputs(alloc)),
        Role::Statement => own_columns(alloc, walk, place),
        Role::DerivedTable => own_columns(alloc, walk, place),
        Role::In => own_columns(alloc, walk, place),
    }
}

// A column, if it is one of `alias.*`.
fn alias_column(
    alloc: Global,
    walk: &mut Walk,
    keys: Option<&[Slot]>,
    alias: &Str,
    entry: &Entry,
    before: Outputs,
) -> Result<Outputs, JudgeFault>
    ensures { Walks (spec.alias_column (option_copied keys.entry) alias.now before entry.now walk.old) result walk.new }
{
    if *alias == entry.alias {
        return star_column(alloc, walk, keys, Some(alias), entry, before);
    }
    Ok(before)
}

#[tactic(auto, using(pdw_resolve::proofs::Turns::turns))]
fn alias_columns(
    alloc: Global,
    walk: &mut Walk,
    place: &Place<'_>,
    alias: &Str,
    before: Outputs,
) -> Result<Outputs, JudgeFault>
    ensures { Walks (over (spec.alias_column place.now.keys alias.now) before place.now.own walk.old) result walk.new }
{
    let mut outputs = before;
    for entry in place.own {
        outputs = alias_column(alloc, walk, place.keys, alias, entry, outputs)?;
    }
    Ok(outputs)
}

// `alias.*`
fn starred(alloc: Global, alias: &Str) -> Result<Str, NoMemory>
    ensures { IfOk result (λ text. text ≡ alias.now ++ codes ".*") }
{
    let text = format!(in alloc; "{}.*", alias.text())?;
    text_from(alloc, text.as_str())
}

#[tactic(auto, unfolding(pdw_walk::specs::Items::alias_star))]
fn alias_star(
    alloc: Global,
    walk: &mut Walk,
    place: &Place<'_>,
    alias: &Str,
    before: Outputs,
) -> Result<Outputs, JudgeFault>
    ensures { Walks (spec.alias_star place.now alias.now before walk.old) result walk.new }
{
    if walk.is_taken(alias) {
        return alias_columns(alloc, walk, place, alias, before);
    }
    Err(JudgeFault::UnknownColumn(starred(alloc, alias)?))
}

// A computed item, which gets the next number.
fn computed_output(
    alloc: Global,
    walk: &mut Walk,
    name: Str,
    kind: Kind,
    value: Scalar,
    before: Outputs,
) -> Result<Outputs, JudgeFault>
    ensures { Walks (and_then (made_number walk.old) (λ column. pure (spec.with_output before name kind column (Some value)))) result walk.new }
{
    match walk.made_number() {
        Ok(column) => Ok(with_output(alloc, before, name, kind, column, Some(value))?),
        Err(fault) => {
            drop(value);
            Err(fault)
        }
    }
}

// A bare column or aggregate is passed through; anything else gets the next number.
fn made_output(
    alloc: Global,
    walk: &mut Walk,
    name: Str,
    value: Typed,
    before: Outputs,
) -> Result<Outputs, JudgeFault>
    ensures { Walks (spec.made_output before name value value.bare walk.old) result walk.new }
{
    match value.bare {
        Some(column) => Ok(with_output(alloc, before, name, value.kind, column, None)?),
        None => { computed_output(alloc, walk, name, value.kind, value.scalar, before) }
    }
}

#[tactic(auto, unfolding(pdw_walk::specs::Items::made_item))]
fn made_item(
    alloc: Global,
    walk: &mut Walk,
    place: &Place<'_>,
    value: &SqlExpr,
    name: Str,
    before: Outputs,
) -> Result<Outputs, JudgeFault>
    ensures { Walks (spec.made_item place.now before value.now name walk.old) result walk.new }
{
    if is_full(&before) {
        return Err(too_many());
    }
    let made = expr(alloc, walk, place, value)?;
    made_output(alloc, walk, name, made, before)
}

fn item(
    alloc: Global,
    walk: &mut Walk,
    place: &Place<'_>,
    item: &Item,
    before: Outputs,
) -> Result<Outputs, JudgeFault>
    ensures { Walks (spec.item_walk place.now before item.now walk.old) result walk.new }
{
    match item {
        Item::AliasStar(alias) => alias_star(alloc, walk, place, alias, before),
        Item::Made { value, name } => {
            let position = before.items.as_slice().len() + 1;
            let name = item_name(alloc, value, name, position)?;
            made_item(alloc, walk, place, value, name, before)
        }
    }
}

#[tactic(auto, using(pdw_resolve::proofs::Turns::turns))]
fn listed(
    alloc: Global,
    walk: &mut Walk,
    place: &Place<'_>,
    list: &[Item],
) -> Result<Outputs, JudgeFault>
    ensures { Walks (over (spec.item_walk place.now) spec.no_outputs list.now walk.old) result walk.new }
{
    let mut outputs = no_outputs(alloc);
    for next in list {
        outputs = item(alloc, walk, place, next, outputs)?;
    }
    Ok(outputs)
}

/// The output columns of a query.
pub fn items(
    alloc: Global,
    walk: &mut Walk,
    role: Role,
    place: &Place<'_>,
    items: &Items,
) -> Result<Outputs, JudgeFault>
    ensures { Walks (spec.items_walk role place.now items.now walk.old) result walk.new }
{
    match items {
        Items::Star => star(alloc, walk, role, place),
        Items::List(list) => listed(alloc, walk, place, list.as_slice()),
    }
}

fn is_name_among(name: &Str, names: &[Str]) -> bool
    ensures { result ≡ is_among name.now names.now }
{
    names.iter().any(|other| *name == *other)
}

// The first name that an earlier one is.
fn repeated(alloc: Global, columns: &[Column]) -> Result<Option<Str>, NoMemory>
    ensures { IfOk result (λ found. found ≡ spec.repeated [] (map (λ column. column.name) columns.now)) }
{
    let mut names = ListOf::new(alloc);
    for column in columns {
        let name = column.name.try_copy(alloc)?;
        if is_name_among(&name, names.as_slice()) {
            return Ok(Some(name));
        }
        names.push(name)?;
    }
    Ok(None)
}

/// The output name that a query may not have: in a derived table one that an earlier column has.
pub fn repeated_name(alloc: Global, role: Role, columns: &[Column]) -> Result<Option<Str>, NoMemory>
    ensures { IfOk result (λ found. found ≡ spec.repeated_name role columns.now) }
{
    match role {
        Role::DerivedTable => repeated(alloc, columns),
        Role::Statement => Ok(None),
        Role::In => Ok(None),
        Role::Exists => Ok(None),
    }
}
