//! Reads that wrap round in statements.
ghost use Rattle.std.specs.Prelude.{◌≡◌, ◌+◌, OnOk, map, sum_by};
ghost use Rattle.std.specs.Option.{option_map};
ghost use Rattle.zpl_lowering.specs.of_zpl_tree.View.{arms_of, expr_of, head_of, item_of, stmt_of, stmts_of};
ghost use Rattle.lower_reads.specs.Reads.{arms_reads, head_reads, item_reads, step_reads};
ghost use Rattle.lower_reads.specs.Reads.{stmt_reads, stmts_reads};

use crate::expressions::{count_expr, count_exprs, count_prefixes};
use std::alloc::AllocError;
use zpl_tree::{Arm, Expr, ForHead, Form, Item, Stmt, nodes_are_seen_with_their_lists};

/// Counts the reads in the step of a `for`.
fn count_step(count: &mut u32, step: Option<&Expr<'_>>) -> Result<(), AllocError>
    ensures { OnOk result (count.new
        ≡ count.old + step_reads (option_map (λ step. expr_of step.now) step.entry)) }
{
    match step {
        Some(step) => count_expr(count, step),
        None => Ok(()),
    }
}

/// Counts the reads in the head of a `for`.
fn count_head(count: &mut u32, head: &ForHead<'_>) -> Result<(), AllocError>
    ensures { OnOk result (count.new ≡ count.old + head_reads (head_of head.now)) }
{
    count_expr(count, head.first)?;
    count_expr(count, head.last)?;
    count_step(count, head.step)?;
    Ok(())
}

/// Counts the reads in an item of a print.
fn count_item(count: &mut u32, item: &Item<'_>) -> Result<(), AllocError>
    ensures { OnOk result (count.new ≡ count.old + item_reads (item_of item.now)) }
{
    match item {
        Item::Str(_) => Ok(()),
        Item::Value(value) => count_expr(count, value),
    }
}

/// Counts the reads in the items of a print.
fn count_items(count: &mut u32, items: &[Item<'_>]) -> Result<(), AllocError>
    ensures { OnOk result (count.new
        ≡ count.old + sum_by item_reads (map item_of items.now)) }
{
    for item in items {
        count_item(count, item)?;
    }
    Ok(())
}

/// Counts the reads in a statement.
#[cycle(statement_reads)]
pub fn count_stmt(count: &mut u32, stmt: &Stmt<'_>) -> Result<(), AllocError>
    ensures { OnOk result (count.new ≡ count.old + stmt_reads (stmt_of stmt.now)) }
{
    nodes_are_seen_with_their_lists();
    count_prefixes(count, stmt.prefixes)?;
    match &stmt.form {
        Form::Assign(_, _, value) => {
            count_expr(count, value)?;
            Ok(())
        }
        Form::Call(_, actuals) => {
            count_exprs(count, actuals)?;
            Ok(())
        }
        Form::Block(body) => {
            count_stmts(count, body)?;
            Ok(())
        }
        Form::If(arms, otherwise) => {
            count_arms(count, arms)?;
            match otherwise {
                Some(body) => {
                    count_stmts(count, body)?;
                    Ok(())
                }
                None => Ok(()),
            }
        }
        Form::While(test, body) => {
            count_expr(count, test)?;
            count_stmts(count, body)?;
            Ok(())
        }
        Form::Repeat(body, _, test) => {
            count_stmts(count, body)?;
            count_expr(count, test)?;
            Ok(())
        }
        Form::For(head, body) => {
            count_head(count, head)?;
            count_stmts(count, body)?;
            Ok(())
        }
        Form::Border(_, _) => Ok(()),
        Form::Write(_, items) => {
            count_items(count, items)?;
            Ok(())
        }
        Form::Return(value) => {
            count_expr(count, value)?;
            Ok(())
        }
    }
}

/// Counts the reads in statements.
#[cycle(statement_reads)]
fn count_stmts(count: &mut u32, stmts: &[Stmt<'_>]) -> Result<(), AllocError>
    ensures { OnOk result (count.new ≡ count.old + stmts_reads (stmts_of stmts.now)) }
{
    for stmt in stmts {
        count_stmt(count, stmt)?;
    }
    Ok(())
}

/// Counts the reads in arms.
#[cycle(statement_reads)]
fn count_arms(count: &mut u32, arms: &[Arm<'_>]) -> Result<(), AllocError>
    ensures { OnOk result (count.new ≡ count.old + arms_reads (arms_of arms.now)) }
{
    for arm in arms {
        count_expr(count, arm.test)?;
        count_stmts(count, arm.body)?;
    }
    Ok(())
}
