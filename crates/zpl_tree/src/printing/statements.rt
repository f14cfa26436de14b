//! Printing statements.
ghost use Rattle.std.specs.Prelude.{◌≡◌, ◌++◌, OnOk, map};
ghost use Rattle.std.specs.List.{flat_map};
ghost use Rattle.std.specs.Option.{option_map};
ghost use Rattle.zpl_tokens.specs.declared.keywords.Key.TheVariants as key;
ghost use Rattle.zpl_tokens.specs.declared.symbols.Sym.TheVariants as sym;
ghost use Rattle.zpl_tree.specs.Spelling.{arm_words, arms_words, assign_words, border_words};
ghost use Rattle.zpl_tree.specs.Spelling.{end_words, expr_words, form_words, head_words};
ghost use Rattle.zpl_tree.specs.Spelling.{item_words, items_words, keyword, mask_words};
ghost use Rattle.zpl_tree.specs.Spelling.{names_words, prefix_words, step_words, stmt_words};
ghost use Rattle.zpl_tree.specs.Spelling.{stmts_words, symbol};
ghost use Rattle.zpl_tree.specs.Syntax as plain;
ghost use Rattle.zpl_tree.specs.View.{arm_of, arms_of, expr_of, exprs_of, head_of, item_of};
ghost use Rattle.zpl_tree.specs.View.{mask_of, name_of, prefix_of, statement_of, stmt_of, stmts_of};
ghost use Rattle.zpl_tree.specs.Word.{Gains};

use super::expressions::{print_call, print_expr, print_inner};
use super::words::{put_keyword, put_name, put_string, put_symbol};
use crate::expressions::Expr;
use crate::names::Name;
use crate::statements::{Arm, ForHead, Form, Item, Mask, Prefix, Stmt};
use std::alloc::AllocError;
use zpl_nums::{Border, Op};
use zpl_tokens::{Key, Sym};

#[cycle(print_statement)]
pub fn print_stmt(text: &mut Vec<u8>, stmt: &Stmt<'_>) -> Result<(), AllocError>
    ensures { OnOk result (Gains text.old.items text.new.items (stmt_words (stmt_of stmt.now))) }
{
    print_prefixes(text, stmt.prefixes)?;
    print_form(text, &stmt.form)
}

#[cycle(print_statement)]
fn print_stmts(text: &mut Vec<u8>, stmts: &[Stmt<'_>]) -> Result<(), AllocError>
    ensures { OnOk result (Gains text.old.items text.new.items (stmts_words (stmts_of stmts.now))) }
{
    for stmt in stmts {
        print_stmt(text, stmt)?;
    }
    Ok(())
}

#[cycle(print_statement)]
fn print_form(text: &mut Vec<u8>, form: &Form<'_>) -> Result<(), AllocError>
    ensures { OnOk result (Gains text.old.items text.new.items
        (form_words (statement_of form.now))) }
{
    match form {
        Form::Assign(name, op, value) => print_assign(text, name, *op, value),
        Form::Call(name, actuals) => print_invocation(text, name, actuals),
        Form::Block(body) => {
            put_keyword(text, Key::Begin)?;
            print_stmts(text, body)?;
            put_end(text)
        }
        Form::If(arms, otherwise) => {
            print_arms(text, arms)?;
            match otherwise {
                None => put_end(text),
                Some(body) => print_else(text, body),
            }
        }
        Form::While(test, body) => {
            put_keyword(text, Key::While)?;
            print_expr(text, test)?;
            print_do(text, body)
        }
        Form::Repeat(body, _, test) => {
            put_keyword(text, Key::Repeat)?;
            print_stmts(text, body)?;
            print_until(text, test)
        }
        Form::For(head, body) => {
            put_keyword(text, Key::For)?;
            print_head(text, head)?;
            print_do(text, body)
        }
        Form::Border(kind, names) => print_border(text, *kind, names),
        Form::Write(line, items) => print_write(text, *line, items),
        Form::Return(value) => print_return(text, value),
    }
}

// The body of a `while` or a `for`.
#[cycle(print_statement)]
fn print_do(text: &mut Vec<u8>, body: &[Stmt<'_>]) -> Result<(), AllocError>
    ensures { OnOk result (Gains text.old.items text.new.items
        (keyword key.Do ++ stmts_words (stmts_of body.now) ++ end_words)) }
{
    put_keyword(text, Key::Do)?;
    print_stmts(text, body)?;
    put_end(text)
}

// The last statements of an `if`, behind `else`.
#[cycle(print_statement)]
fn print_else(text: &mut Vec<u8>, body: &[Stmt<'_>]) -> Result<(), AllocError>
    ensures { OnOk result (Gains text.old.items text.new.items
        (keyword key.Else ++ stmts_words (stmts_of body.now) ++ end_words)) }
{
    put_keyword(text, Key::Else)?;
    print_stmts(text, body)?;
    put_end(text)
}

// The arms of an `if`, the first behind `if` and the others behind `elsif`.
#[cycle(print_statement)]
fn print_arms(text: &mut Vec<u8>, arms: &[Arm<'_>]) -> Result<(), AllocError>
    ensures { OnOk result (Gains text.old.items text.new.items (arms_words (arms_of arms.now))) }
{
    let Some((first, rest)) = arms.split_first() else {
        return Ok(());
    };
    put_keyword(text, Key::If)?;
    print_arm(text, first)?;
    for arm in rest {
        put_keyword(text, Key::Elsif)?;
        print_arm(text, arm)?;
    }
    Ok(())
}

#[cycle(print_statement)]
fn print_arm(text: &mut Vec<u8>, arm: &Arm<'_>) -> Result<(), AllocError>
    ensures { OnOk result (Gains text.old.items text.new.items (arm_words (arm_of arm.now))) }
{
    print_expr(text, arm.test)?;
    put_keyword(text, Key::Then)?;
    print_stmts(text, arm.body)
}

fn print_assign(
    text: &mut Vec<u8>,
    name: &Name<'_>,
    op: Option<Op>,
    value: &Expr<'_>,
) -> Result<(), AllocError>
    ensures { OnOk result (Gains text.old.items text.new.items
        (form_words (plain.Assign (name_of name.now) op (expr_of value.now)))) }
{
    put_name(text, name)?;
    put_assign(text, op)?;
    print_expr(text, value)?;
    put_symbol(text, Sym::Semicolon)
}

fn print_invocation(
    text: &mut Vec<u8>,
    name: &Name<'_>,
    actuals: &[Expr<'_>],
) -> Result<(), AllocError>
    ensures { OnOk result (Gains text.old.items text.new.items
        (form_words (plain.Invoke (name_of name.now) (exprs_of actuals.now)))) }
{
    print_call(text, name, actuals)?;
    put_symbol(text, Sym::Semicolon)
}

fn print_border(text: &mut Vec<u8>, kind: Border, names: &[Name<'_>]) -> Result<(), AllocError>
    ensures { OnOk result (Gains text.old.items text.new.items
        (form_words (plain.Border kind (map name_of names.now)))) }
{
    put_border(text, kind)?;
    print_names(text, names)?;
    put_symbol(text, Sym::Semicolon)
}

fn print_write(text: &mut Vec<u8>, line: bool, items: &[Item<'_>]) -> Result<(), AllocError>
    ensures { OnOk result (Gains text.old.items text.new.items
        (form_words (plain.Write line (map item_of items.now)))) }
{
    put_keyword(text, if line { Key::Writeln } else { Key::Write })?;
    put_symbol(text, Sym::OpenParen)?;
    print_items(text, items)?;
    put_symbol(text, Sym::CloseParen)?;
    put_symbol(text, Sym::Semicolon)
}

fn print_return(text: &mut Vec<u8>, value: &Expr<'_>) -> Result<(), AllocError>
    ensures { OnOk result (Gains text.old.items text.new.items
        (form_words (plain.Return (expr_of value.now)))) }
{
    put_keyword(text, Key::Return)?;
    print_expr(text, value)?;
    put_symbol(text, Sym::Semicolon)
}

// The condition of a `repeat`, behind its statements.
fn print_until(text: &mut Vec<u8>, test: &Expr<'_>) -> Result<(), AllocError>
    ensures { OnOk result (Gains text.old.items text.new.items
        (keyword key.Until ++ expr_words (expr_of test.now) ++ symbol sym.Semicolon)) }
{
    put_keyword(text, Key::Until)?;
    print_expr(text, test)?;
    put_symbol(text, Sym::Semicolon)
}

fn print_prefixes(text: &mut Vec<u8>, prefixes: &[Prefix<'_>]) -> Result<(), AllocError>
    ensures { OnOk result (Gains text.old.items text.new.items
        (flat_map prefix_words (map prefix_of prefixes.now))) }
{
    for prefix in prefixes {
        put_symbol(text, Sym::OpenBracket)?;
        print_inner(text, &prefix.region)?;
        print_mask(text, &prefix.mask)?;
        put_symbol(text, Sym::CloseBracket)?;
    }
    Ok(())
}

fn print_mask(text: &mut Vec<u8>, mask: &Option<Mask<'_>>) -> Result<(), AllocError>
    ensures { OnOk result (Gains text.old.items text.new.items
        (mask_words (option_map mask_of mask.now))) }
{
    let Some(mask) = mask else {
        return Ok(());
    };
    put_keyword(
        text,
        if mask.without {
            Key::Without
        } else {
            Key::With
        },
    )?;
    put_name(text, &mask.name)
}

fn print_head(text: &mut Vec<u8>, head: &ForHead<'_>) -> Result<(), AllocError>
    ensures { OnOk result (Gains text.old.items text.new.items (head_words (head_of head.now))) }
{
    put_name(text, &head.name)?;
    put_symbol(text, Sym::Assign)?;
    print_expr(text, head.first)?;
    put_keyword(text, if head.down { Key::Downto } else { Key::To })?;
    print_expr(text, head.last)?;
    print_step(text, head.step)
}

fn print_step(text: &mut Vec<u8>, step: Option<&Expr<'_>>) -> Result<(), AllocError>
    ensures { OnOk result (Gains text.old.items text.new.items
        (step_words (option_map (λ step. expr_of step.now) step.entry))) }
{
    let Some(step) = step else {
        return Ok(());
    };
    put_keyword(text, Key::By)?;
    print_expr(text, step)
}

/// Appends names with commas between them.
pub fn print_names(text: &mut Vec<u8>, names: &[Name<'_>]) -> Result<(), AllocError>
    ensures { OnOk result (Gains text.old.items text.new.items
        (names_words (map name_of names.now))) }
{
    let Some((first, rest)) = names.split_first() else {
        return Ok(());
    };
    put_name(text, first)?;
    for name in rest {
        put_symbol(text, Sym::Comma)?;
        put_name(text, name)?;
    }
    Ok(())
}

fn print_items(text: &mut Vec<u8>, items: &[Item<'_>]) -> Result<(), AllocError>
    ensures { OnOk result (Gains text.old.items text.new.items
        (items_words (map item_of items.now))) }
{
    let Some((first, rest)) = items.split_first() else {
        return Ok(());
    };
    print_item(text, first)?;
    for item in rest {
        put_symbol(text, Sym::Comma)?;
        print_item(text, item)?;
    }
    Ok(())
}

fn print_item(text: &mut Vec<u8>, item: &Item<'_>) -> Result<(), AllocError>
    ensures { OnOk result (Gains text.old.items text.new.items (item_words (item_of item.now))) }
{
    match item {
        Item::Str(bytes) => put_string(text, bytes),
        Item::Value(value) => print_expr(text, value),
    }
}

fn put_assign(text: &mut Vec<u8>, op: Option<Op>) -> Result<(), AllocError>
    ensures { OnOk result (Gains text.old.items text.new.items (assign_words op)) }
{
    put_symbol(text, assign_symbol(op))
}

// The symbol between a variable and the value that it gets.
fn assign_symbol(op: Option<Op>) -> Sym
    ensures { assign_words op ≡ symbol result }
{
    match op {
        Some(Op::Add) => Sym::AddAssign,
        Some(Op::Sub) => Sym::SubAssign,
        Some(Op::Mul) => Sym::MulAssign,
        Some(Op::Div) => Sym::DivAssign,
        Some(Op::Rem) => Sym::RemAssign,
        Some(Op::And) => Sym::AndAssign,
        Some(Op::Or) => Sym::OrAssign,
        _ => Sym::Assign,
    }
}

fn put_border(text: &mut Vec<u8>, kind: Border) -> Result<(), AllocError>
    ensures { OnOk result (Gains text.old.items text.new.items (border_words kind)) }
{
    match kind {
        Border::Wrap => put_keyword(text, Key::Wrap),
        Border::Reflect => put_keyword(text, Key::Reflect),
    }
}

fn put_end(text: &mut Vec<u8>) -> Result<(), AllocError>
    ensures { OnOk result (Gains text.old.items text.new.items end_words) }
{
    put_keyword(text, Key::End)?;
    put_symbol(text, Sym::Semicolon)
}
