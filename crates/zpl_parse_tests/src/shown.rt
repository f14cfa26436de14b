//! A tree written out: each node in brackets, with its form, its offset and its parts.
use std::alloc::AllocError;
use std::fmt::Debug;
use std::str::from_utf8;
use zpl_nums::Border;
use zpl_tree::{
    Arm, Base, Decl, Define, DimText, Dir, DirDef, Expr, ExprForm, ForHead, Form, Inner, Item,
    Mask, Name, Param, Post, Pre, Prefix, Procedure, Program, RegionBase, RegionDef, Stmt, VarDef,
};

/// Appends a word and a place.
fn show_place(text: &mut String, word: &str, at: u32) -> Result<(), AllocError> {
    write!(text, "{word}@{at}")
}

/// Opens a node.
fn open(text: &mut String, word: &str, at: u32) -> Result<(), AllocError> {
    text.push_str(" (")?;
    show_place(text, word, at)
}

/// Appends a node without parts.
fn show_bare(text: &mut String, word: &str, at: u32) -> Result<(), AllocError> {
    open(text, word, at)?;
    text.push(')')
}

fn show_value(text: &mut String, value: &impl Debug) -> Result<(), AllocError> {
    write!(text, " {value:?}")
}

/// Appends the tree of a program.
pub fn show_program(text: &mut String, program: &Program<'_>) -> Result<(), AllocError> {
    text.push_str("(Program")?;
    show_name(text, &program.name)?;
    for decl in program.decls {
        text.push_str(" (")?;
        text.push_str(decl_word(decl))?;
        show_decl(text, decl)?;
        text.push(')')?;
    }
    text.push(')')
}

fn decl_word(decl: &Decl<'_>) -> &'static str {
    match decl {
        Decl::Config(_) => "Config",
        Decl::Constant(_) => "Constant",
        Decl::Regions(_) => "Regions",
        Decl::Directions(_) => "Directions",
        Decl::Vars(_) => "Vars",
        Decl::Procedure(_) => "Procedure",
    }
}

fn show_decl(text: &mut String, decl: &Decl<'_>) -> Result<(), AllocError> {
    match decl {
        Decl::Config(defines) => show_defines(text, defines),
        Decl::Constant(defines) => show_defines(text, defines),
        Decl::Regions(regions) => show_regions(text, regions),
        Decl::Directions(directions) => show_directions(text, directions),
        Decl::Vars(vars) => show_vars(text, vars),
        Decl::Procedure(procedure) => show_procedure(text, procedure),
    }
}

fn show_defines(text: &mut String, defines: &[Define<'_>]) -> Result<(), AllocError> {
    for define in defines {
        text.push_str(" (Define")?;
        show_name(text, &define.name)?;
        show_base(text, &define.base)?;
        show_expr(text, define.value)?;
        text.push(')')?;
    }
    Ok(())
}

fn show_regions(text: &mut String, regions: &[RegionDef<'_>]) -> Result<(), AllocError> {
    for region in regions {
        text.push_str(" (Region")?;
        show_name(text, &region.name)?;
        show_inner(text, &region.body)?;
        show_posts(text, region.posts)?;
        text.push(')')?;
    }
    Ok(())
}

fn show_directions(text: &mut String, directions: &[DirDef<'_>]) -> Result<(), AllocError> {
    for direction in directions {
        text.push_str(" (Direction")?;
        show_name(text, &direction.name)?;
        show_exprs(text, direction.parts)?;
        text.push(')')?;
    }
    Ok(())
}

fn show_vars(text: &mut String, vars: &[VarDef<'_>]) -> Result<(), AllocError> {
    for var in vars {
        text.push_str(" (Var")?;
        show_names(text, var.names)?;
        show_shape(text, &var.shape)?;
        show_base(text, &var.base)?;
        text.push(')')?;
    }
    Ok(())
}

fn show_procedure(text: &mut String, procedure: &Procedure<'_>) -> Result<(), AllocError> {
    show_name(text, &procedure.name)?;
    show_params(text, procedure.params)?;
    match &procedure.result {
        None => text.push_str(" None")?,
        Some(base) => show_base(text, base)?,
    }
    show_vars(text, procedure.locals)?;
    show_stmt(text, &procedure.body)
}

fn show_params(text: &mut String, params: &[Param<'_>]) -> Result<(), AllocError> {
    for param in params {
        text.push_str(if param.by_ref {
            " (VarParam"
        } else {
            " (Param"
        })?;
        show_names(text, param.names)?;
        show_shape(text, &param.shape)?;
        show_base(text, &param.base)?;
        text.push(')')?;
    }
    Ok(())
}

fn show_base(text: &mut String, base: &Base<'_>) -> Result<(), AllocError> {
    match base {
        Base::Integer => text.push_str(" Integer"),
        Base::Boolean => text.push_str(" Boolean"),
        Base::Other(name) => {
            text.push_str(" (Other")?;
            show_name(text, name)?;
            text.push(')')
        }
    }
}

#[cycle(show_statement)]
fn show_stmts(text: &mut String, stmts: &[Stmt<'_>]) -> Result<(), AllocError> {
    for stmt in stmts {
        show_stmt(text, stmt)?;
    }
    Ok(())
}

#[cycle(show_statement)]
fn show_stmt(text: &mut String, stmt: &Stmt<'_>) -> Result<(), AllocError> {
    show_prefixes(text, stmt.prefixes)?;
    open(text, form_word(&stmt.form), stmt.at)?;
    show_form(text, &stmt.form)?;
    text.push(')')
}

fn form_word(form: &Form<'_>) -> &'static str {
    match form {
        Form::Assign(..) => "Assign",
        Form::Call(..) => "Call",
        Form::Block(_) => "Block",
        Form::If(..) => "If",
        Form::While(..) => "While",
        Form::Repeat(..) => "Repeat",
        Form::For(..) => "For",
        Form::Border(Border::Wrap, _) => "Wrap",
        Form::Border(Border::Reflect, _) => "Reflect",
        Form::Write(false, _) => "Write",
        Form::Write(true, _) => "Writeln",
        Form::Return(_) => "Return",
    }
}

#[cycle(show_statement)]
fn show_form(text: &mut String, form: &Form<'_>) -> Result<(), AllocError> {
    match form {
        Form::Assign(name, op, value) => {
            show_name(text, name)?;
            show_value(text, op)?;
            show_expr(text, value)
        }
        Form::Call(name, actuals) => {
            show_name(text, name)?;
            show_exprs(text, actuals)
        }
        Form::Block(body) => show_stmts(text, body),
        Form::If(arms, otherwise) => {
            show_arms(text, arms)?;
            let Some(body) = otherwise else {
                return Ok(());
            };
            text.push_str(" Else")?;
            show_stmts(text, body)
        }
        Form::While(test, body) => {
            show_expr(text, test)?;
            show_stmts(text, body)
        }
        Form::Repeat(body, until, test) => {
            show_stmts(text, body)?;
            show_place(text, " Until", *until)?;
            show_expr(text, test)
        }
        Form::For(head, body) => {
            show_head(text, head)?;
            show_stmts(text, body)
        }
        Form::Border(_, names) => show_names(text, names),
        Form::Write(_, items) => show_items(text, items),
        Form::Return(value) => show_expr(text, value),
    }
}

#[cycle(show_statement)]
fn show_arms(text: &mut String, arms: &[Arm<'_>]) -> Result<(), AllocError> {
    for arm in arms {
        show_arm(text, arm)?;
    }
    Ok(())
}

#[cycle(show_statement)]
fn show_arm(text: &mut String, arm: &Arm<'_>) -> Result<(), AllocError> {
    open(text, "Arm", arm.at)?;
    show_expr(text, arm.test)?;
    show_stmts(text, arm.body)?;
    text.push(')')
}

fn show_head(text: &mut String, head: &ForHead<'_>) -> Result<(), AllocError> {
    show_name(text, &head.name)?;
    show_expr(text, head.first)?;
    text.push_str(if head.down { " Downto" } else { " To" })?;
    show_expr(text, head.last)?;
    match head.step {
        None => text.push_str(" None"),
        Some(step) => show_expr(text, step),
    }
}

fn show_prefixes(text: &mut String, prefixes: &[Prefix<'_>]) -> Result<(), AllocError> {
    for prefix in prefixes {
        open(text, "Prefix", prefix.at)?;
        show_inner(text, &prefix.region)?;
        show_mask(text, &prefix.mask)?;
        text.push(')')?;
    }
    Ok(())
}

fn show_mask(text: &mut String, mask: &Option<Mask<'_>>) -> Result<(), AllocError> {
    let Some(mask) = mask else {
        return text.push_str(" None");
    };
    text.push_str(if mask.without { " Without" } else { " With" })?;
    show_name(text, &mask.name)
}

fn show_items(text: &mut String, items: &[Item<'_>]) -> Result<(), AllocError> {
    for item in items {
        match item {
            Item::Str(bytes) => {
                text.push_str(" \"")?;
                text.push_str(from_utf8(bytes).unwrap_or("?"))?;
                text.push('"')?;
            }
            Item::Value(value) => show_expr(text, value)?,
        }
    }
    Ok(())
}

#[cycle(show_expression)]
fn show_exprs(text: &mut String, exprs: &[Expr<'_>]) -> Result<(), AllocError> {
    for expr in exprs {
        show_expr(text, expr)?;
    }
    Ok(())
}

#[cycle(show_expression)]
fn show_expr(text: &mut String, expr: &Expr<'_>) -> Result<(), AllocError> {
    open(text, expr_word(&expr.form), expr.at)?;
    show_expr_form(text, &expr.form)?;
    text.push(')')
}

fn expr_word(form: &ExprForm<'_>) -> &'static str {
    match form {
        ExprForm::Number(_) => "Number",
        ExprForm::Truth(_) => "Truth",
        ExprForm::Coord(_) => "Coord",
        ExprForm::Named(_) => "Named",
        ExprForm::Shifted(..) => "Shifted",
        ExprForm::Around(..) => "Around",
        ExprForm::Remap(..) => "Remap",
        ExprForm::Call(..) => "Call",
        ExprForm::Paren(_) => "Paren",
        ExprForm::Neg(_) => "Neg",
        ExprForm::Not(_) => "Not",
        ExprForm::Abs(_) => "Abs",
        ExprForm::Pair(..) => "Pair",
        ExprForm::Reduce(..) => "Reduce",
        ExprForm::Scan(..) => "Scan",
        ExprForm::Flood(..) => "Flood",
    }
}

#[cycle(show_expression)]
fn show_expr_form(text: &mut String, form: &ExprForm<'_>) -> Result<(), AllocError> {
    match form {
        ExprForm::Number(value) => show_value(text, value),
        ExprForm::Truth(value) => show_value(text, value),
        ExprForm::Coord(dimension) => show_value(text, dimension),
        ExprForm::Named(name) => show_name(text, name),
        ExprForm::Shifted(name, shift) => {
            show_name(text, name)?;
            show_dir(text, shift)
        }
        ExprForm::Around(name, shift) => {
            show_name(text, name)?;
            show_dir(text, shift)
        }
        ExprForm::Remap(name, indices) => {
            show_name(text, name)?;
            show_exprs(text, indices)
        }
        ExprForm::Call(name, actuals) => {
            show_name(text, name)?;
            show_exprs(text, actuals)
        }
        ExprForm::Paren(inside) => show_expr(text, inside),
        ExprForm::Neg(operand) => show_expr(text, operand),
        ExprForm::Not(operand) => show_expr(text, operand),
        ExprForm::Abs(inside) => show_expr(text, inside),
        ExprForm::Pair(op, left, right) => {
            show_value(text, op)?;
            show_expr(text, left)?;
            show_expr(text, right)
        }
        ExprForm::Reduce(fold, over, operand) => {
            show_value(text, fold)?;
            show_shape(text, over)?;
            show_expr(text, operand)
        }
        ExprForm::Scan(fold, along, operand) => {
            show_value(text, fold)?;
            show_value(text, along)?;
            show_expr(text, operand)
        }
        ExprForm::Flood(source, operand) => {
            show_inner(text, source)?;
            show_expr(text, operand)
        }
    }
}

#[cycle(show_expression)]
fn show_shape(text: &mut String, shape: &Option<Inner<'_>>) -> Result<(), AllocError> {
    match shape {
        None => text.push_str(" None"),
        Some(inner) => show_inner(text, inner),
    }
}

#[cycle(show_expression)]
fn show_inner(text: &mut String, inner: &Inner<'_>) -> Result<(), AllocError> {
    match inner {
        Inner::Rexpr(rexpr) => {
            text.push_str(" (Rexpr")?;
            show_pres(text, rexpr.pre)?;
            show_region(text, &rexpr.base)?;
            show_posts(text, rexpr.post)?;
        }
        Inner::Dims(dims) => {
            text.push_str(" (Dims")?;
            show_dims(text, dims)?;
        }
    }
    text.push(')')
}

fn show_pres(text: &mut String, pres: &[Pre<'_>]) -> Result<(), AllocError> {
    for pre in pres {
        text.push_str(if pre.outside { " (Of" } else { " (In" })?;
        show_name(text, &pre.dir)?;
        text.push(')')?;
    }
    Ok(())
}

fn show_region(text: &mut String, base: &RegionBase<'_>) -> Result<(), AllocError> {
    match base {
        RegionBase::Named(name) => show_name(text, name),
        RegionBase::Ditto(at) => show_bare(text, "Ditto", *at),
    }
}

#[cycle(show_expression)]
fn show_posts(text: &mut String, posts: &[Post<'_>]) -> Result<(), AllocError> {
    for post in posts {
        text.push_str(if post.stride { " (By" } else { " (At" })?;
        show_dir(text, &post.dir)?;
        text.push(')')?;
    }
    Ok(())
}

#[cycle(show_expression)]
fn show_dir(text: &mut String, dir: &Dir<'_>) -> Result<(), AllocError> {
    match dir {
        Dir::Named(name) => show_name(text, name),
        Dir::Vector(parts) => {
            text.push_str(" (Vector")?;
            show_exprs(text, parts)?;
            text.push(')')
        }
    }
}

#[cycle(show_expression)]
fn show_dims(text: &mut String, dims: &[DimText<'_>]) -> Result<(), AllocError> {
    for dim in dims {
        show_dim(text, dim)?;
    }
    Ok(())
}

#[cycle(show_expression)]
fn show_dim(text: &mut String, dim: &DimText<'_>) -> Result<(), AllocError> {
    match dim {
        DimText::Blank(at) => show_bare(text, "Blank", *at),
        DimText::Star(at) => show_bare(text, "Star", *at),
        DimText::One(index) => {
            text.push_str(" (One")?;
            show_expr(text, index)?;
            text.push(')')
        }
        DimText::Span(low, high) => {
            text.push_str(" (Span")?;
            show_expr(text, low)?;
            show_expr(text, high)?;
            text.push(')')
        }
    }
}

fn show_names(text: &mut String, names: &[Name<'_>]) -> Result<(), AllocError> {
    for name in names {
        show_name(text, name)?;
    }
    Ok(())
}

fn show_name(text: &mut String, name: &Name<'_>) -> Result<(), AllocError> {
    text.push(' ')?;
    show_place(text, from_utf8(name.text).unwrap_or("?"), name.at)
}
