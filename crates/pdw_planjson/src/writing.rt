//! Plan files as texts.

ghost use Rattle.std.specs.Prelude.{◌≡◌, true, map, IfOk, IsUtf8, OnOk, Ok, Some};
ghost use Rattle.serde_json.specs.Read.{read};
ghost use Rattle.serde_json.specs.View.{view};
ghost use Rattle.serde_json.specs.Written.{compact_text};
ghost use Rattle.pdw_planjson.specs.File.{described};
ghost use Rattle.pdw_planjson.specs.Limits.{IsFile, has_numbers};
ghost use Rattle.pdw_planjson.specs.Written as spec;

use crate::file::PlanFile;
use crate::lines::write;
use pdw_base::NoMemory;
use serde_json::{Value, json};
use sqlite_items::Items;
use std::alloc::Global;

fn bound_value(alloc: Global, bound: Option<u128>) -> Result<Value, NoMemory>
    ensures { IfOk result (λ value. view value ≡ spec.bound_data bound) }
{
    match bound {
        None => Ok(Value::try_from_str(alloc, "none")?),
        Some(bound) => Ok(Value::from(format!(in alloc; "{}", bound)?)),
    }
}

fn list_value(alloc: Global, bounds: &[Option<u128>]) -> Result<Value, NoMemory>
    ensures { IfOk result (λ value. view value ≡ spec.list_data bounds.now) }
{
    let mut values = Vec::new(alloc);
    for bound in bounds {
        values.push(bound_value(alloc, *bound)?)?;
    }
    Ok(Value::from(values))
}

fn list_values(alloc: Global, lists: &[Items<Option<u128>>]) -> Result<Vec<Value>, NoMemory>
    ensures { IfOk result (λ values. map view values.items ≡ map spec.list_data lists.now) }
{
    let mut values = Vec::new(alloc);
    for list in lists {
        values.push(list_value(alloc, list.as_slice())?)?;
    }
    Ok(values)
}

fn file_value(alloc: Global, file: &PlanFile) -> Result<Value, NoMemory>
    ensures value { IfOk result (λ value. view value ≡ spec.file_data file.now) }
    ensures numbers { OnOk result (has_numbers file.now.plan ≡ true) }
{
    let mut nodes = Vec::new(alloc);
    let _root = write(alloc, &file.plan, &mut nodes)?;
    let bounds = list_values(alloc, file.bounds.lists.as_slice())?;
    let cost = format!(in alloc; "{}", file.cost)?;
    let value = json!(in alloc; {"bounds": bounds, "cost": cost, "nodes": nodes, "version": 1u32});
    match value {
        Ok(value) => Ok(value),
        Err(_) => Err(NoMemory),
    }
}

/// The text of a plan file: compact, with the keys of each object in order. Within the limits of plan files `from_text` reads the
/// same file from it.
pub fn to_text(alloc: Global, file: &PlanFile) -> Result<Vec<u8>, NoMemory>
    ensures utf8 { IfOk result (λ written. IsUtf8 written.items) }
    ensures compact { IfOk result (λ written. written.items ≡ compact_text (spec.file_data file.now)) }
    ensures reads { IfOk result (λ written. read written.items ≡ Some (spec.file_data file.now)) }
    ensures back { OnOk result (IsFile file.now → described (spec.file_data file.now) ≡ Ok file.now) }
{
    let value = file_value(alloc, file)?;
    Ok(value.to_vec(alloc)?)
}
