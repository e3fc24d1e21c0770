//! A plan cut into steps, children first.

ghost use Rattle.std.specs.Prelude.{◌≡◌, ◌+◌, ◌++◌, ◌<◌, ◌^◌, suc, [], ◌∷◌, length, true, IfOk, OnOk, None};
ghost use Rattle.pdw_dsql.specs.Sites as at_site;
ghost use Rattle.pdw_dsql.specs.Steps as spec;
ghost use Rattle.pdw_dsql.specs.Trees.{tree_of};
ghost use Rattle.pdw_algebra.specs.declared.local.LocalTree.TheVariants as tree;
ghost use Rattle.pdw_move.specs.Move.{property_after};
ghost use Rattle.pdw_plan.specs.Count.{node_count};
ghost use Rattle.pdw_plan.specs.Given as given;
ghost use Rattle.pdw_plan.specs.Walk.{no_costs};
ghost use Rattle.pdw_ways.specs.Shape.{query_fault, shape_of};
ghost use Rattle.pdw_ways.specs.Ways as way;

use crate::trees::{binary_tree, leaf_tree, unary_tree};
use crate::{Site, Step, Steps};
use pdw_algebra::LocalTree;
use pdw_base::{NoMemory, Schema};
use pdw_memo::{Group, GroupId, Memo};
use pdw_move::{Move, Prop};
use pdw_plan::{Made, Plan, expr_over};
use sqlite_items::{Boxed, Items, at};
use std::alloc::Global;

/// A local tree, and what its rows are.
#[derive(Drop)]
pub(crate) struct Branch {
    pub(crate) tree: Boxed<LocalTree>,
    pub(crate) made: Made,
}

// ---- sites

fn site_of(prop: Prop) -> Site
    ensures { result ≡ at_site.site_of prop }
{
    match prop {
        Prop::Spread | Prop::Hash(_) | Prop::Replicated => Site::All,
        Prop::Single => Site::First,
        Prop::Control => Site::Control,
    }
}

fn return_site(prop: Prop) -> Site
    ensures { result ≡ at_site.return_site prop }
{
    match prop {
        Prop::Spread | Prop::Hash(_) => Site::All,
        Prop::Replicated | Prop::Single => Site::First,
        Prop::Control => Site::Control,
    }
}

// ---- nodes of plans

fn branch_of(alloc: Global, tree: LocalTree, group: GroupId, prop: Prop) -> Result<Branch, NoMemory>
    ensures tree { IfOk result (λ branch. branch.tree ≡ tree) }
    ensures made { IfOk result (λ branch. branch.made ≡ record { group = group; prop = prop }) }
{
    let tree = Boxed::new(alloc, tree)?;
    Ok(Branch {
        tree,
        made: Made { group, prop },
    })
}

fn scanned(alloc: Global, memo: &Memo, group: GroupId, prop: Prop) -> Result<Branch, NoMemory>
    requires { way.is_at memo.now.groups group (λ of. way.is_scanned of prop) ≡ true }
    ensures tree { IfOk result (λ branch. branch.tree ≡ tree_of (given.expr_over memo.now.groups group []) []) }
    ensures made { IfOk result (λ branch. branch.made ≡ record { group = group; prop = prop }) }
{
    match expr_over(memo.groups(), group, &[]) {
        Some(expr) => branch_of(alloc, leaf_tree(alloc, &expr.op)?, group, prop),
        None => unreachable!(),
    }
}

fn over_one(
    alloc: Global,
    memo: &Memo,
    group: GroupId,
    prop: Prop,
    child: Branch,
) -> Result<Branch, NoMemory>
    requires { way.is_at memo.now.groups group (λ of. way.is_operated of (child.made ∷ []) prop) ≡ true }
    ensures tree { IfOk result (λ branch. branch.tree ≡ tree_of (given.expr_over memo.now.groups group (child.made ∷ [])) (child.tree ∷ [])) }
    ensures made { IfOk result (λ branch. branch.made ≡ record { group = group; prop = prop }) }
{
    match expr_over(memo.groups(), group, &[child.made]) {
        Some(expr) => {
            let tree = unary_tree(alloc, &expr.op, child.tree)?;
            branch_of(alloc, tree, group, prop)
        }
        None => unreachable!(),
    }
}

fn over_two(
    alloc: Global,
    memo: &Memo,
    group: GroupId,
    prop: Prop,
    left: Branch,
    right: Branch,
) -> Result<Branch, NoMemory>
    requires { way.is_at memo.now.groups group (λ of. way.is_operated of (left.made ∷ right.made ∷ []) prop) ≡ true }
    ensures tree { IfOk result (λ branch. branch.tree ≡ tree_of (given.expr_over memo.now.groups group (left.made ∷ right.made ∷ [])) (left.tree ∷ right.tree ∷ [])) }
    ensures made { IfOk result (λ branch. branch.made ≡ record { group = group; prop = prop }) }
{
    match expr_over(memo.groups(), group, &[left.made, right.made]) {
        Some(expr) => {
            let tree = binary_tree(alloc, &expr.op, left.tree, right.tree)?;
            branch_of(alloc, tree, group, prop)
        }
        None => unreachable!(),
    }
}

fn schema_at(alloc: Global, groups: &[Group], number: GroupId) -> Result<Schema, NoMemory>
    requires { way.is_at groups.now number (λ of. true) ≡ true }
    ensures { IfOk result (λ schema. schema ≡ spec.schema_at groups.now number) }
{
    match at(groups, number.0 as usize) {
        Some(group) => group.schema.try_copy(alloc),
        None => unreachable!(),
    }
}

// The step of a move.
fn step_of_move(
    alloc: Global,
    groups: &[Group],
    child: Branch,
    mv: Move,
    to: u32,
) -> Result<Step, NoMemory>
    requires { way.is_at groups.now child.made.group (λ of. true) ≡ true }
    ensures { IfOk result (λ step. step ≡ spec.step_of groups.now child.made mv child.tree to) }
{
    let schema = schema_at(alloc, groups, child.made.group)?;
    Ok(Step {
        tree: child.tree.into_inner(),
        schema,
        site: site_of(child.made.prop),
        mv,
        to,
    })
}

// A move takes the rows of its child's tree into the next temporary table, from where they are read.
fn moved(
    alloc: Global,
    memo: &Memo,
    child: Branch,
    mv: Move,
    steps: &mut Items<Step>,
) -> Result<Branch, NoMemory>
    requires group { way.is_at memo.now.groups child.made.group (λ of. true) ≡ true }
    requires room { suc (length steps.old) < 2 ^ 32 }
    ensures steps { OnOk result (steps.new ≡ steps.old ++ spec.step_of memo.now.groups child.made mv child.tree (suc (length steps.old)) ∷ []) }
    ensures tree { IfOk result (λ branch. branch.tree ≡ tree.Temp (suc (length steps.old))) }
    ensures made { IfOk result (λ branch. branch.made ≡ record { group = child.made.group; prop = property_after mv }) }
{
    let to = steps.len() as u32 + 1;
    let group = child.made.group;
    steps.push(step_of_move(alloc, memo.groups(), child, mv, to)?)?;
    branch_of(alloc, LocalTree::Temp { id: to }, group, mv.to())
}

// A free change leaves the rows where they are, under another property.
fn freed(child: Branch, to: Prop) -> Branch
    ensures tree { result.tree ≡ child.tree }
    ensures made { result.made ≡ record { group = child.made.group; prop = to } }
{
    Branch {
        tree: child.tree,
        made: Made {
            group: child.made.group,
            prop: to,
        },
    }
}

// Adds the steps of a plan, and gives the tree that is left.
fn cut_node(
    alloc: Global,
    memo: &Memo,
    plan: &Plan,
    steps: &mut Items<Step>,
) -> Result<Branch, NoMemory>
    requires well { (shape_of memo.now.groups no_costs plan.now).fault ≡ None }
    requires room { length steps.old + node_count plan.now < 2 ^ 32 }
    ensures steps { OnOk result (steps.new ≡ steps.old ++ ((spec.cutting memo.now.groups plan.now).fragment (length steps.old)).steps) }
    ensures tree { IfOk result (λ branch. branch.tree ≡ ((spec.cutting memo.now.groups plan.now).fragment (length steps.old)).tree) }
    ensures made { IfOk result (λ branch. branch.made ≡ (spec.cutting memo.now.groups plan.now).made) }
{
    match plan {
        Plan::Scan { group, prop } => scanned(alloc, memo, *group, *prop),
        Plan::Op {
            group,
            prop,
            children,
        } => match children.as_slice() {
            [only] => {
                let child = cut_node(alloc, memo, only, steps)?;
                over_one(alloc, memo, *group, *prop, child)
            }
            [left, right] => {
                let left = cut_node(alloc, memo, left, steps)?;
                let right = cut_node(alloc, memo, right, steps)?;
                over_two(alloc, memo, *group, *prop, left, right)
            }
            _ => unreachable!(),
        },
        Plan::Moved { mv, child } => {
            let child = cut_node(alloc, memo, child.get(), steps)?;
            moved(alloc, memo, child, *mv, steps)
        }
        Plan::Free { to, child } => {
            let child = cut_node(alloc, memo, child.get(), steps)?;
            Ok(freed(child, *to))
        }
    }
}

/// The steps of a plan for the query over a memo: one for each of its moves, children first, which brings its rows into the
/// temporary table of the next number from 1, and the tree whose rows are returned. It answers only want of memory beside.
pub fn cut(alloc: Global, plan: &Plan, memo: &Memo) -> Result<Steps, NoMemory>
    requires plan { query_fault memo.now.groups (shape_of memo.now.groups no_costs plan.now) ≡ None }
    requires few { node_count plan.now < 2 ^ 32 }
    ensures { IfOk result (λ steps. steps ≡ spec.steps_of memo.now.groups plan.now) }
{
    let mut moves = Items::new(alloc);
    let last = cut_node(alloc, memo, plan, &mut moves)?;
    Ok(Steps {
        moves,
        last: last.tree.into_inner(),
        last_site: return_site(last.made.prop),
    })
}
