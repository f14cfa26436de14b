//! The parts of statements.
ghost use Rattle.std.specs.Prelude.{◌≡◌, ◌++◌, IfOk, OnOk, false, flat_map, map};
ghost use Rattle.std.specs.Option.{option_map};
ghost use Rattle.zpl_binding.specs.of_zpl_tree.View.{arm_of, arms_of, expr_of, head_of, item_of, prefix_of};
ghost use Rattle.zpl_binding.specs.of_zpl_tree.View.{statement_of, stmt_of, stmts_of};
ghost use Rattle.zpl_parts.specs.View.{seen};
ghost use Rattle.zpl_parts.specs.Walk.{arm_parts, arms_parts, form_parts, head_parts, item_parts};
ghost use Rattle.zpl_parts.specs.Walk.{prefix_parts, step_parts, stmt_parts, stmts_parts};

use crate::expressions::{walk_expr, walk_exprs, walk_inner};
use crate::parts::{Part, Parts};
use std::alloc::{AllocError, Global};
use zpl_tree::{Arm, Expr, ForHead, Form, Item, Prefix, Stmt};

/// The parts of a statement, such as a procedure's body.
pub fn parts_of_body<'a>(alloc: Global, body: &Stmt<'a>) -> Result<Parts<'a>, AllocError>
    ensures { IfOk result (λ parts. seen parts ≡ stmt_parts (stmt_of body.now)) }
{
    let mut parts = Parts::new(alloc);
    walk_stmt(&mut parts, body)?;
    Ok(parts)
}

#[cycle(walk_statement)]
pub fn walk_stmt<'a>(into: &mut Parts<'a>, stmt: &Stmt<'a>) -> Result<(), AllocError>
    ensures { OnOk result (seen into.new ≡ seen into.old ++ stmt_parts (stmt_of stmt.now)) }
{
    walk_prefixes(into, stmt.prefixes)?;
    walk_form(into, &stmt.form)
}

#[cycle(walk_statement)]
fn walk_stmts<'a>(into: &mut Parts<'a>, stmts: &[Stmt<'a>]) -> Result<(), AllocError>
    ensures { OnOk result (seen into.new ≡ seen into.old ++ stmts_parts (stmts_of stmts.now)) }
{
    for stmt in stmts {
        walk_stmt(into, stmt)?;
    }
    Ok(())
}

#[cycle(walk_statement)]
fn walk_form<'a>(into: &mut Parts<'a>, form: &Form<'a>) -> Result<(), AllocError>
    ensures { OnOk result (seen into.new ≡ seen into.old ++ form_parts (statement_of form.now)) }
{
    match form {
        Form::Assign(_, _, value) | Form::Return(value) => walk_expr(into, false, value),
        Form::Call(name, actuals) => {
            into.put(Part::Call(*name, actuals))?;
            walk_exprs(into, false, actuals)
        }
        Form::Block(body) => walk_stmts(into, body),
        Form::If(arms, otherwise) => {
            walk_arms(into, arms)?;
            match otherwise {
                None => Ok(()),
                Some(body) => walk_stmts(into, body),
            }
        }
        Form::While(test, body) => {
            walk_expr(into, false, test)?;
            walk_stmts(into, body)
        }
        Form::Repeat(body, _, test) => {
            walk_stmts(into, body)?;
            walk_expr(into, false, test)
        }
        Form::For(head, body) => {
            walk_head(into, head)?;
            walk_stmts(into, body)
        }
        Form::Border(_, _) => Ok(()),
        Form::Write(_, items) => walk_items(into, items),
    }
}

#[cycle(walk_statement)]
fn walk_arms<'a>(into: &mut Parts<'a>, arms: &[Arm<'a>]) -> Result<(), AllocError>
    ensures { OnOk result (seen into.new ≡ seen into.old ++ arms_parts (arms_of arms.now)) }
{
    for arm in arms {
        walk_arm(into, arm)?;
    }
    Ok(())
}

#[cycle(walk_statement)]
fn walk_arm<'a>(into: &mut Parts<'a>, arm: &Arm<'a>) -> Result<(), AllocError>
    ensures { OnOk result (seen into.new ≡ seen into.old ++ arm_parts (arm_of arm.now)) }
{
    walk_expr(into, false, arm.test)?;
    walk_stmts(into, arm.body)
}

fn walk_prefixes<'a>(into: &mut Parts<'a>, prefixes: &[Prefix<'a>]) -> Result<(), AllocError>
    ensures { OnOk result (seen into.new ≡ seen into.old
        ++ flat_map prefix_parts (map prefix_of prefixes.now)) }
{
    for prefix in prefixes {
        walk_inner(into, false, &prefix.region)?;
    }
    Ok(())
}

fn walk_head<'a>(into: &mut Parts<'a>, head: &ForHead<'a>) -> Result<(), AllocError>
    ensures { OnOk result (seen into.new ≡ seen into.old ++ head_parts (head_of head.now)) }
{
    walk_expr(into, false, head.first)?;
    walk_expr(into, false, head.last)?;
    walk_step(into, head.step)
}

fn walk_step<'a>(into: &mut Parts<'a>, step: Option<&'a Expr<'a>>) -> Result<(), AllocError>
    ensures { OnOk result (seen into.new ≡ seen into.old
        ++ step_parts (option_map (λ step. expr_of step.now) step.entry)) }
{
    match step {
        None => Ok(()),
        Some(step) => walk_expr(into, false, step),
    }
}

fn walk_items<'a>(into: &mut Parts<'a>, items: &[Item<'a>]) -> Result<(), AllocError>
    ensures { OnOk result (seen into.new
        ≡ seen into.old ++ flat_map item_parts (map item_of items.now)) }
{
    for item in items {
        walk_item(into, item)?;
    }
    Ok(())
}

fn walk_item<'a>(into: &mut Parts<'a>, item: &Item<'a>) -> Result<(), AllocError>
    ensures { OnOk result (seen into.new ≡ seen into.old ++ item_parts (item_of item.now)) }
{
    match item {
        Item::Str(_) => Ok(()),
        Item::Value(value) => walk_expr(into, false, value),
    }
}
