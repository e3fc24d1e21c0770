//! Tests of values, texts, schemas and bags.

use crate::values::value;
use pdw_base::{Bag, ColId, Kind, NodeCount, Row, Schema, Str, Value, compare, node_of, order};
use std::alloc::Global;
use std::cmp::Ordering;
use std::test::Fail;

// Values, and the node of four that each has.
const NODES_OF_FOUR: &str = "\
NULL => 0
-7 => 1
7 => 3
-9223372036854775808 => 0
wide -7 => 1
'a => 2
'ab => 0
' => 3";

fn has_node(alloc: Global, line: &str) -> Result<bool, Fail> {
    let (case, node) = line.split_once(" => ").ok_or("an arrow")?;
    let four = NodeCount::new(4).ok_or("count")?;
    Ok(node_of(&value(alloc, case)?, four) == node.parse::<u32>()?)
}

#[test]
fn a_value_has_its_node(rt: HostRuntime) -> Result<(), Fail> {
    for line in NODES_OF_FOUR.lines() {
        assert!(rt; has_node(rt.alloc(), line)?, "{line}");
    }
    Ok(())
}

#[test]
fn an_appliance_has_one_to_sixteen_nodes(rt: HostRuntime) {
    for (count, wanted) in [(0, None), (1, Some(1)), (16, Some(16)), (17, None)] {
        assert_eq!(rt;
            NodeCount::new(count).map(|nodes| nodes.get()),
            wanted,
            "{count}"
        );
    }
}

// Each pair as ORDER BY has it. A condition does not compare those before a question mark.
const PAIRS: &str = "\
NULL = NULL ?
NULL < -9223372036854775808 ?
-1 < 0
3 = 3
9 < ' ?
'a < 'ab
'Z < 'a
'b > 'aa
'a < 'a\u{20}
'a = 'a
'z < wide 0 ?
wide -170141183460469231731687303715884105728 < wide 0
wide 5 > 5 ?";

// The two values of a pair, and the order that its sign says.
fn split_by_sign(pair: &str) -> Option<(&str, &str, Ordering)> {
    if let Some((one, other)) = pair.split_once(" < ") {
        return Some((one, other, Ordering::Less));
    }
    if let Some((one, other)) = pair.split_once(" > ") {
        return Some((one, other, Ordering::Greater));
    }
    let (one, other) = pair.split_once(" = ")?;
    Some((one, other, Ordering::Equal))
}

// Whether the values are ordered so, either way round, and compared so.
fn are_ordered(first: &Value, second: &Value, ordering: Ordering, compares: bool) -> bool {
    let compared = if compares { Some(ordering) } else { None };
    order(first.as_ref(), second.as_ref()) == ordering
        && order(second.as_ref(), first.as_ref()) == ordering.reverse()
        && compare(first.as_ref(), second.as_ref()) == compared
}

fn pair_holds(alloc: Global, line: &str) -> Result<bool, Fail> {
    let plain = line.strip_suffix(" ?");
    let pair = plain.unwrap_or(line);
    let (one, other, ordering) = split_by_sign(pair).ok_or("a sign")?;
    let first = value(alloc, one)?;
    match value(alloc, other) {
        Ok(second) => Ok(are_ordered(&first, &second, ordering, plain.is_none())),
        Err(fail) => Err(fail),
    }
}

#[test]
fn values_compare_within_a_kind_and_are_ordered_over_all(rt: HostRuntime) -> Result<(), Fail> {
    for line in PAIRS.lines() {
        assert!(rt; pair_holds(rt.alloc(), line)?, "{line}");
    }
    Ok(())
}

// Whether the bytes are a text, which then has these bytes, and so has a copy.
fn is_text(alloc: Global, bytes: &[u8]) -> Result<bool, Fail> {
    match Str::from_bytes(alloc, bytes)? {
        Some(found) => Ok(found.bytes() == bytes && found.try_copy(alloc)? == found),
        None => Ok(false),
    }
}

#[test]
fn bytes_in_utf8_are_a_text(rt: HostRuntime) -> Result<(), Fail> {
    for bytes in [b"".as_slice(), b"Ann", b"\xc3\xa9"] {
        assert!(rt; is_text(rt.alloc(), bytes)?, "{bytes:?}");
    }
    for bytes in [b"\xc3".as_slice(), b"\xff", b"\xc0\x80", b"\xed\xa0\x80"] {
        assert!(rt; !is_text(rt.alloc(), bytes)?, "{bytes:?}");
    }
    Ok(())
}

// The schema of an INT and a TEXT column of these numbers, if there is one.
fn schema_of(alloc: Global, first: u16, second: u16) -> Result<Option<Schema>, Fail> {
    let mut columns = Vec::new(alloc);
    columns.push((ColId(first), Kind::Int))?;
    columns.push((ColId(second), Kind::Text))?;
    Ok(Schema::new(columns))
}

#[test]
fn a_schema_rises_strictly(rt: HostRuntime) -> Result<(), Fail> {
    let alloc = rt.alloc();
    assert!(rt; schema_of(alloc, 3, 5)?.is_some());
    assert!(rt; schema_of(alloc, 5, 5)?.is_none());
    assert!(rt; schema_of(alloc, 5, 3)?.is_none());
    Ok(())
}

// Columns, and the place of each.
const PLACES: &str = "\
3 => 0
5 => 1
4 => none";

fn is_at(place: Option<usize>, wanted: &str) -> Result<bool, Fail> {
    match place {
        Some(place) => Ok(wanted != "none" && place == wanted.parse::<usize>()?),
        None => Ok(wanted == "none"),
    }
}

fn places_so(schema: &Schema, line: &str) -> Result<bool, Fail> {
    let (column, wanted) = line.split_once(" => ").ok_or("an arrow")?;
    is_at(schema.place(ColId(column.parse::<u16>()?)), wanted)
}

fn places_all(schema: &Schema) -> Result<bool, Fail> {
    for line in PLACES.lines() {
        if !places_so(schema, line)? {
            return Ok(false);
        }
    }
    Ok(true)
}

fn has_columns(schema: &Schema) -> bool {
    match schema.cols() {
        [first, second] => {
            first.0.0 == 3 && first.1 == Kind::Int && second.0.0 == 5 && second.1 == Kind::Text
        }
        _ => false,
    }
}

fn copy_places_all(alloc: Global, made: &Schema) -> Result<bool, Fail> {
    let copy = made.try_copy(alloc)?;
    Ok(has_columns(&copy) && places_all(&copy)?)
}

fn schema_places_all(alloc: Global) -> Result<bool, Fail> {
    match schema_of(alloc, 3, 5)? {
        Some(made) => copy_places_all(alloc, &made),
        None => Ok(false),
    }
}

#[test]
fn a_schema_places_its_columns(rt: HostRuntime) -> Result<(), Fail> {
    assert!(rt; schema_places_all(rt.alloc())?);
    Ok(())
}

// A row of a number, a text, NULL and a wide number.
fn row(alloc: Global, number: i64, letter: &str) -> Result<Row, Fail> {
    let mut values = Vec::new(alloc);
    values.push(Value::Int(number))?;
    values.push(value(alloc, letter)?)?;
    values.push(Value::Null)?;
    values.push(Value::Wide(i128::MAX))?;
    Ok(Row::from_values(values))
}

fn same(found: &[Value], wanted: &[Value]) -> bool {
    if found.len() != wanted.len() {
        return false;
    }
    for at in 0..found.len().min(wanted.len()) {
        if order(found[at].as_ref(), wanted[at].as_ref()) != Ordering::Equal {
            return false;
        }
    }
    true
}

// The rows 2 and 3.
fn next_rows(alloc: Global) -> Result<Vec<Row>, Fail> {
    let mut rows = Vec::with_capacity(alloc, 10)?;
    rows.push(row(alloc, 2, "'b")?)?;
    rows.push(row(alloc, 3, "'c")?)?;
    Ok(rows)
}

// Whether the bag takes the rows 1 to 3, and leaves the room of the last two.
fn takes_rows(alloc: Global, bag: &mut Bag) -> Result<bool, Fail> {
    bag.push(row(alloc, 1, "'a")?)?;
    let mut rows = next_rows(alloc)?;
    bag.append(&mut rows)?;
    Ok(rows.is_empty() && rows.capacity() >= 10)
}

// Whether each row is the row of the same place in the bag.
fn begin(rows: &[Row], bag: &Bag) -> bool {
    for place in 0..rows.len() {
        match bag.rows().get(place) {
            Some(wanted) if same(rows[place].values(), wanted.values()) => {}
            _ => return false,
        }
    }
    true
}

// Whether the copy has so many rows of the bag once it is shortened.
fn shortens(copy: &mut Bag, bag: &Bag, length: usize, kept: usize) -> bool {
    copy.truncate(length);
    copy.rows().len() == kept && begin(copy.rows(), bag)
}

fn copy_shortens(alloc: Global, bag: &Bag) -> Result<bool, Fail> {
    let mut copy = bag.try_copy(alloc)?;
    Ok(
        shortens(&mut copy, bag, 4, 3)
            && shortens(&mut copy, bag, 2, 2)
            && shortens(&mut copy, bag, 0, 0),
    )
}

fn last_is_third(alloc: Global, bag: &Bag) -> Result<bool, Fail> {
    let wanted = row(alloc, 3, "'c")?;
    match bag.rows().last() {
        Some(last) => Ok(same(last.values(), wanted.values())),
        None => Ok(false),
    }
}

#[test]
fn a_bag_takes_rows_and_leaves_the_room(rt: HostRuntime) -> Result<(), Fail> {
    let alloc = rt.alloc();
    let mut bag = Bag::new(alloc);
    assert!(rt; takes_rows(alloc, &mut bag)?);
    assert!(rt; copy_shortens(alloc, &bag)?);
    assert!(rt; last_is_third(alloc, &bag)?);
    Ok(())
}
