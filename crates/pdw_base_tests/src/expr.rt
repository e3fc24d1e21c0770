//! Tests of expressions, conditions and aggregates.

use crate::values::value;
use pdw_base::{ColId, Kind, Row, Schema, Str, Truth, Value, ValueRef, order};
use pdw_expr::{Agg, AggKind, Arith, Cmp, Cond, Scalar, eval_cond, eval_scalar};
use sqlite_items::{Boxed, Items};
use std::alloc::Global;
use std::cmp::Ordering;
use std::mem::drop;
use std::test::Fail;

fn literal(alloc: Global, case: &str) -> Result<Scalar, Fail> {
    Ok(Scalar::Lit(value(alloc, case)?))
}

fn operator(sign: &str) -> Arith {
    match sign.chars().next() {
        Some('+') => Arith::Add,
        Some('-') => Arith::Sub,
        Some('*') => Arith::Mul,
        Some('/') => Arith::Div,
        _ => Arith::Rem,
    }
}

fn truth(case: char) -> Truth {
    match case {
        'T' => Truth::True,
        'F' => Truth::False,
        _ => Truth::Unknown,
    }
}

fn number(n: i64) -> Scalar {
    Scalar::Lit(Value::Int(n))
}

fn schema(alloc: Global) -> Result<Schema, Fail> {
    let columns = vec![in alloc;
        (ColId(3), Kind::Int),
        (ColId(5), Kind::Int),
        (ColId(8), Kind::Text),
        (ColId(9), Kind::Int),
    ]?;
    Ok(Schema::new(columns).ok_or("rising")?)
}

// It has no value for the last column.
fn row(alloc: Global) -> Result<Row, Fail> {
    let mut values = Vec::new(alloc);
    values.push(Value::Int(7))?;
    values.push(Value::Null)?;
    values.push(value(alloc, "'Ann")?)?;
    Ok(Row::from_values(values))
}

fn link(alloc: Global, sign: &str, operand: &str) -> Result<(Arith, Scalar), Fail> {
    Ok((operator(sign), literal(alloc, operand)?))
}

fn links(alloc: Global, sign: &str, operand: &str) -> Result<Vec<(Arith, Scalar)>, Fail> {
    let mut links = Vec::new(alloc);
    links.push(link(alloc, sign, operand)?)?;
    Ok(links)
}

fn boxed(alloc: Global, operand: &str) -> Result<Boxed<Scalar>, Fail> {
    Ok(Boxed::new(alloc, literal(alloc, operand)?)?)
}

fn chain(alloc: Global, first: &str, sign: &str, second: &str) -> Result<Scalar, Fail> {
    let links = links(alloc, sign, second)?;
    let first = boxed(alloc, first)?;
    Ok(Scalar::Chain(first, Items::from_vec(links)))
}

// Two literals.
fn literals(alloc: Global, a: &str, b: &str) -> Result<(Scalar, Scalar), Fail> {
    let first = value(alloc, a)?;
    match value(alloc, b) {
        Ok(second) => Ok((Scalar::Lit(first), Scalar::Lit(second))),
        Err(fail) => {
            drop(first);
            Err(fail)
        }
    }
}

fn is_same(found: ValueRef<'_>, wanted: &Value) -> bool {
    order(found, wanted.as_ref()) == Ordering::Equal
}

fn gives_value(alloc: Global, e: &Scalar, wanted: &Value) -> Result<bool, Fail> {
    let schema = schema(alloc)?;
    let row = row(alloc)?;
    Ok(is_same(eval_scalar(e, &schema, &row), wanted))
}

fn copy_gives_value(alloc: Global, e: &Scalar, wanted: &Value) -> Result<bool, Fail> {
    let copy = e.try_copy(alloc)?;
    gives_value(alloc, &copy, wanted)
}

// The expression has this value, and so has a copy of it.
fn has_value(alloc: Global, e: &Scalar, wanted: &str) -> Result<bool, Fail> {
    let wanted = value(alloc, wanted)?;
    Ok(gives_value(alloc, e, &wanted)? && copy_gives_value(alloc, e, &wanted)?)
}

fn truth_of(alloc: Global, c: &Cond) -> Result<Truth, Fail> {
    let schema = schema(alloc)?;
    let row = row(alloc)?;
    Ok(eval_cond(c, &schema, &row))
}

fn truth_of_copy(alloc: Global, c: &Cond) -> Result<Truth, Fail> {
    let copy = c.try_copy(alloc)?;
    truth_of(alloc, &copy)
}

// The condition has this truth, and so has a copy of it.
fn has_truth(alloc: Global, c: &Cond, wanted: Truth) -> Result<bool, Fail> {
    Ok(truth_of(alloc, c)? == wanted && truth_of_copy(alloc, c)? == wanted)
}

// A condition that has this truth.
fn with_truth(truth: Truth) -> Cond {
    match truth {
        Truth::True => Cond::Compare(Cmp::Eq, number(1), number(1)),
        Truth::False => Cond::Compare(Cmp::Eq, number(1), number(2)),
        Truth::Unknown => Cond::Compare(Cmp::Eq, number(1), Scalar::Lit(Value::Null)),
    }
}

fn pair(alloc: Global, a: Truth, b: Truth) -> Result<Items<Cond>, Fail> {
    let mut parts = Vec::new(alloc);
    parts.push(with_truth(a))?;
    parts.push(with_truth(b))?;
    Ok(Items::from_vec(parts))
}

const ARITHMETIC: &str = "\
1 + 2 => 3
9223372036854775807 + 1 => NULL
-9223372036854775808 + -1 => NULL
-9223372036854775808 + 9223372036854775807 => -1
1 - 2 => -1
-9223372036854775808 - 1 => NULL
0 - -9223372036854775808 => NULL
-1 - -9223372036854775808 => 9223372036854775807
-3 * 4 => -12
-9223372036854775808 * -1 => NULL
4294967296 * 2147483648 => NULL
4294967296 * -2147483648 => -9223372036854775808
7 / 2 => 3
-7 / 2 => -3
7 / -2 => -3
-7 / -2 => 3
-9223372036854775808 / -1 => NULL
7 % 2 => 1
-7 % 2 => -1
7 % -2 => 1
-7 % -2 => -1
-9223372036854775808 % -1 => 0";

fn computes(alloc: Global, line: &str) -> Result<bool, Fail> {
    let (chained, wanted) = line.split_once(" => ").ok_or("an arrow")?;
    let (first, rest) = chained.split_once(' ').ok_or("an operator")?;
    let (sign, second) = rest.split_once(' ').ok_or("an operand")?;
    let e = chain(alloc, first, sign, second)?;
    has_value(alloc, &e, wanted)
}

#[test]
fn arithmetic_is_exact_or_null(rt: HostRuntime) -> Result<(), Fail> {
    for line in ARITHMETIC.lines() {
        assert!(rt; computes(rt.alloc(), line)?, "{line}");
    }
    Ok(())
}

fn is_null_chain(alloc: Global, first: &str, sign: &str, second: &str) -> Result<bool, Fail> {
    let e = chain(alloc, first, sign, second)?;
    has_value(alloc, &e, "NULL")
}

// Whether the operator gives NULL with the operand on either side of a number.
fn gives_null(alloc: Global, sign: &str, other: &str) -> Result<bool, Fail> {
    Ok(is_null_chain(alloc, other, sign, "1")? && is_null_chain(alloc, "1", sign, other)?)
}

#[test]
fn an_operand_that_is_no_number_gives_null(rt: HostRuntime) -> Result<(), Fail> {
    for sign in ["+", "-", "*", "/", "%"] {
        for other in ["NULL", "'1", "wide 1"] {
            assert!(rt; gives_null(rt.alloc(), sign, other)?, "{sign} {other}");
        }
    }
    for sign in ["/", "%"] {
        assert!(rt; is_null_chain(rt.alloc(), "7", sign, "0")?, "7 {sign} 0");
    }
    Ok(())
}

const SIGNS: &str = "\
5 => -5
-5 => 5
9223372036854775807 => -9223372036854775807
-9223372036854775808 => NULL
NULL => NULL
'1 => NULL";

fn changes_sign(alloc: Global, line: &str) -> Result<bool, Fail> {
    let (operand, wanted) = line.split_once(" => ").ok_or("an arrow")?;
    let e = Scalar::Neg(boxed(alloc, operand)?);
    has_value(alloc, &e, wanted)
}

#[test]
fn a_sign_is_exact_or_null(rt: HostRuntime) -> Result<(), Fail> {
    for line in SIGNS.lines() {
        assert!(rt; changes_sign(rt.alloc(), line)?, "{line}");
    }
    Ok(())
}

const CHAINS: &str = "\
10 - 3 - 2 => 5
7 - 2 * 3 => 15
100 / 8 / 5 => 2
9223372036854775807 + 1 - 1 => NULL";

fn two_links(
    alloc: Global,
    sign: &str,
    second: &str,
    last_sign: &str,
    third: &str,
) -> Result<Vec<(Arith, Scalar)>, Fail> {
    let mut links = links(alloc, sign, second)?;
    links.push(link(alloc, last_sign, third)?)?;
    Ok(links)
}

fn computes_twice(alloc: Global, line: &str) -> Result<bool, Fail> {
    let (chained, wanted) = line.split_once(" => ").ok_or("an arrow")?;
    let (first, rest) = chained.split_once(' ').ok_or("an operator")?;
    let (sign, rest) = rest.split_once(' ').ok_or("an operand")?;
    let (second, rest) = rest.split_once(' ').ok_or("an operator")?;
    let (last_sign, third) = rest.split_once(' ').ok_or("an operand")?;
    let links = two_links(alloc, sign, second, last_sign, third)?;
    let first = boxed(alloc, first)?;
    has_value(alloc, &Scalar::Chain(first, Items::from_vec(links)), wanted)
}

#[test]
fn a_chain_is_computed_from_left_to_right(rt: HostRuntime) -> Result<(), Fail> {
    for line in CHAINS.lines() {
        assert!(rt; computes_twice(rt.alloc(), line)?, "{line}");
    }
    Ok(())
}

const COLUMNS: &str = "\
3 => 7
4 => NULL
5 => NULL
8 => 'Ann
9 => NULL";

fn column_has(alloc: Global, line: &str) -> Result<bool, Fail> {
    let (column, wanted) = line.split_once(" => ").ok_or("an arrow")?;
    let e = Scalar::Col(ColId(column.parse::<u16>()?));
    has_value(alloc, &e, wanted)
}

#[test]
fn a_column_that_the_row_has_not_is_null(rt: HostRuntime) -> Result<(), Fail> {
    for line in COLUMNS.lines() {
        assert!(rt; column_has(rt.alloc(), line)?, "{line}");
    }
    Ok(())
}

fn compares(alloc: Global, a: &str, op: Cmp, b: &str, wanted: Truth) -> Result<bool, Fail> {
    let (first, second) = literals(alloc, a, b)?;
    has_truth(alloc, &Cond::Compare(op, first, second), wanted)
}

// The truths of `=`, `<>`, `<`, `<=`, `>` and `>=` between two values.
const COMPARED: &str = "\
-1 ; 1 => FTTTFF
1 ; 1 => TFFTFT
1 ; -1 => FTFFTT
'a ; 'a  => FTTTFF
'a ; 'a => TFFTFT
'a ; 'Z => FTFFTT
NULL ; 1 => UUUUUU
1 ; NULL => UUUUUU
NULL ; NULL => UUUUUU
1 ; '1 => UUUUUU";

fn compare_so(alloc: Global, line: &str) -> Result<bool, Fail> {
    let (pair, wanted) = line.split_once(" => ").ok_or("an arrow")?;
    let (a, b) = pair.split_once(" ; ").ok_or("a pair")?;
    let mut truths = wanted.chars();
    for op in [Cmp::Eq, Cmp::Ne, Cmp::Lt, Cmp::Le, Cmp::Gt, Cmp::Ge] {
        let wanted = truths.next().ok_or("a truth")?;
        if !compares(alloc, a, op, b, truth(wanted))? {
            return Ok(false);
        }
    }
    Ok(true)
}

#[test]
fn values_of_one_kind_compare(rt: HostRuntime) -> Result<(), Fail> {
    for line in COMPARED.lines() {
        assert!(rt; compare_so(rt.alloc(), line)?, "{line}");
    }
    Ok(())
}

fn and_is(alloc: Global, a: Truth, b: Truth, wanted: Truth) -> Result<bool, Fail> {
    let all = Cond::All(pair(alloc, a, b)?);
    has_truth(alloc, &all, wanted)
}

fn or_is(alloc: Global, a: Truth, b: Truth, wanted: Truth) -> Result<bool, Fail> {
    let any = Cond::Any(pair(alloc, a, b)?);
    has_truth(alloc, &any, wanted)
}

// Two truths, that of both together, and that of either.
const CONNECTED: &str = "\
TTTT
TFFT
TUUT
FTFT
FFFF
FUFU
UTUT
UFFU
UUUU";

fn connect_so(alloc: Global, line: &str) -> Result<bool, Fail> {
    let mut truths = line.chars();
    let a = truth(truths.next().ok_or("a truth")?);
    let b = truth(truths.next().ok_or("a truth")?);
    let both = truth(truths.next().ok_or("a truth")?);
    let either = truth(truths.next().ok_or("a truth")?);
    Ok(and_is(alloc, a, b, both)? && or_is(alloc, a, b, either)?)
}

#[test]
fn and_and_or_are_three_valued(rt: HostRuntime) -> Result<(), Fail> {
    for line in CONNECTED.lines() {
        assert!(rt; connect_so(rt.alloc(), line)?, "{line}");
    }
    Ok(())
}

fn and_of_none_is(alloc: Global, wanted: Truth) -> Result<bool, Fail> {
    let all = Cond::All(Items::new(alloc));
    has_truth(alloc, &all, wanted)
}

fn or_of_none_is(alloc: Global, wanted: Truth) -> Result<bool, Fail> {
    let any = Cond::Any(Items::new(alloc));
    has_truth(alloc, &any, wanted)
}

#[test]
fn and_of_none_is_true_and_or_of_none_is_false(rt: HostRuntime) -> Result<(), Fail> {
    assert!(rt; and_of_none_is(rt.alloc(), Truth::True)?);
    assert!(rt; or_of_none_is(rt.alloc(), Truth::False)?);
    Ok(())
}

fn is_test(alloc: Global, a: Truth, asked: Truth) -> Result<bool, Fail> {
    let test = Cond::Test(Boxed::new(alloc, with_truth(a))?, asked);
    let wanted = if a == asked {
        Truth::True
    } else {
        Truth::False
    };
    has_truth(alloc, &test, wanted)
}

fn not_is(alloc: Global, a: Truth, wanted: Truth) -> Result<bool, Fail> {
    let not = Cond::Not(Boxed::new(alloc, with_truth(a))?);
    has_truth(alloc, &not, wanted)
}

#[test]
fn not_and_is_take_each_truth(rt: HostRuntime) -> Result<(), Fail> {
    for (a, opposite) in [('T', 'F'), ('F', 'T'), ('U', 'U')] {
        assert!(rt; not_is(rt.alloc(), truth(a), truth(opposite))?, "NOT {a}");
        for asked in ['T', 'F', 'U'] {
            assert!(rt;
                is_test(rt.alloc(), truth(a), truth(asked))?,
                "{a} IS {asked}"
            );
        }
    }
    Ok(())
}

fn is_null_test(alloc: Global, case: &str, wanted: Truth) -> Result<bool, Fail> {
    let c = Cond::IsNull(literal(alloc, case)?);
    has_truth(alloc, &c, wanted)
}

#[test]
fn is_null_is_never_unknown(rt: HostRuntime) -> Result<(), Fail> {
    assert!(rt; is_null_test(rt.alloc(), "NULL", Truth::True)?);
    for case in ["0", "'", "wide 1"] {
        assert!(rt; is_null_test(rt.alloc(), case, Truth::False)?, "{case}");
    }
    Ok(())
}

const LIKES: &str = "\
' LIKE ' => T
'a LIKE ' => F
' LIKE '% => T
' LIKE '_ => F
'a LIKE '_ => T
'ab LIKE '_ => F
'é LIKE '_ => T
'é LIKE '__ => F
'éa LIKE '__ => T
'ab LIKE '_b% => T
'xb LIKE '_b% => T
'éb1 LIKE '_b% => T
'b LIKE '_b% => F
'ac LIKE 'a%c => T
'abbc LIKE 'a%c => T
'abd LIKE 'a%c => F
'aab LIKE '%ab => T
'abab LIKE '%ab => T
'aba LIKE '%ab => F
'abab LIKE 'ab%ab => T
'aba LIKE 'ab%ba => F
'mississippi LIKE '%iss%_pi => T
'mississippi LIKE '%ss%ss%ss% => F
'A LIKE 'a => F
'100% LIKE '100% => T
'日本語 LIKE '%本_ => T
'日本 LIKE '%本_ => F
NULL LIKE '% => U
' LIKE NULL => U
NULL LIKE NULL => U
1 LIKE '1 => U
'1 LIKE 1 => U";

fn like_is(alloc: Global, a: &str, pattern: &str, wanted: Truth) -> Result<bool, Fail> {
    let (text, pattern) = literals(alloc, a, pattern)?;
    has_truth(alloc, &Cond::Like(text, pattern), wanted)
}

fn is_like(alloc: Global, line: &str) -> Result<bool, Fail> {
    let (test, wanted) = line.split_once(" => ").ok_or("an arrow")?;
    let (a, pattern) = test.split_once(" LIKE ").ok_or("a pattern")?;
    let wanted = wanted.chars().next().ok_or("a truth")?;
    like_is(alloc, a, pattern, truth(wanted))
}

#[test]
fn like_goes_by_characters(rt: HostRuntime) -> Result<(), Fail> {
    for line in LIKES.lines() {
        assert!(rt; is_like(rt.alloc(), line)?, "{line}");
    }
    Ok(())
}

// The piece, so many times, and then the end.
fn repeated(alloc: Global, piece: &str, times: usize, end: &str) -> Result<Str, Fail> {
    let mut whole = String::new(alloc);
    for _ in 0..times {
        whole.push_str(piece)?;
    }
    whole.push_str(end)?;
    Ok(Str::from_text(alloc, whole.as_str())?)
}

// Whether a pattern of a piece so many times and an end has this truth of a text of 3,000 letters.
fn is_long_like(
    alloc: Global,
    piece: &str,
    times: usize,
    end: &str,
    wanted: Truth,
) -> Result<bool, Fail> {
    let text = repeated(alloc, "a", 3000, "")?;
    let pattern = repeated(alloc, piece, times, end)?;
    let c = Cond::Like(
        Scalar::Lit(Value::Text(text)),
        Scalar::Lit(Value::Text(pattern)),
    );
    has_truth(alloc, &c, wanted)
}

#[test]
fn like_tries_no_part_twice(rt: HostRuntime) -> Result<(), Fail> {
    let alloc = rt.alloc();
    assert!(rt; is_long_like(alloc, "%a", 200, "b", Truth::False)?);
    assert!(rt; is_long_like(alloc, "%a", 200, "%", Truth::True)?);
    assert!(rt; is_long_like(alloc, "%a_", 300, "%b%", Truth::False)?);
    assert!(rt; is_long_like(alloc, "%", 3000, "aab", Truth::False)?);
    Ok(())
}

// Whether it is the sum of column 3, as column 40.
fn is_sum(alloc: Global, agg: &Agg) -> Result<bool, Fail> {
    match &agg.arg {
        Some(arg) if agg.kind == AggKind::Sum && agg.out == ColId(40) => has_value(alloc, arg, "7"),
        _ => Ok(false),
    }
}

fn copy_is_sum(alloc: Global, made: &Agg) -> Result<bool, Fail> {
    let copy = made.try_copy(alloc)?;
    is_sum(alloc, &copy)
}

fn sum_is_copied(alloc: Global) -> Result<bool, Fail> {
    let made = Agg {
        kind: AggKind::Sum,
        arg: Some(Scalar::Col(ColId(3))),
        out: ColId(40),
    };
    copy_is_sum(alloc, &made)
}

fn copy_has_no_argument(alloc: Global, made: &Agg) -> Result<bool, Fail> {
    let copy = made.try_copy(alloc)?;
    Ok(copy.arg.is_none())
}

fn count_is_copied(alloc: Global) -> Result<bool, Fail> {
    let made = Agg {
        kind: AggKind::CountStar,
        arg: None,
        out: ColId(41),
    };
    copy_has_no_argument(alloc, &made)
}

#[test]
fn a_copied_aggregate_is_the_same(rt: HostRuntime) -> Result<(), Fail> {
    assert!(rt; sum_is_copied(rt.alloc())?, "a sum");
    assert!(rt; count_is_copied(rt.alloc())?, "a count of rows");
    Ok(())
}
