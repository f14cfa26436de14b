//! What the kind of a token says of the rules that it begins or goes on.
ghost use Rattle.std.specs.Prelude.{◌≡◌};
ghost use Rattle.zpl_tokens.specs.declared.Kind.TheVariants.{Symbol};
ghost use Rattle.zpl_tokens.specs.declared.symbols.Sym.TheVariants.{OpenParen};
ghost use Rattle.zpl_parse.specs.Classes.{opening_of, opening_symbol_of, opening_keyword_of};
ghost use Rattle.zpl_parse.specs.Classes.{or_op, and_op, comp_op, sum_op, term_op, folding_of};
ghost use Rattle.zpl_parse.specs.Classes.{assigning, start_of, start_keyword, begins_stmt, part_of};
ghost use Rattle.zpl_parse.specs.Classes.{outside_of, stride_of, without_of, down_of};
ghost use Rattle.zpl_parse.specs.Classes.{closes_region, closes_dim, follows_region, suffix_of};
ghost use Rattle.zpl_parse.specs.Operators.{operator_of, below_of, is_alone};

use zpl_nums::{Border, Fold, Op};
use zpl_tokens::{Key, Kind, Sym};

/// What the first token of an expression begins.
#[derive(Clone, Copy)]
pub enum Opening {
    /// A number.
    Number(i64),
    /// `true` or `false`.
    Truth(bool),
    /// `Index1`, `Index2` or `Index3`.
    Coord(u8),
    /// A name, alone, shifted or called.
    Name,
    /// An expression in brackets.
    Paren,
    /// The negative of an operand.
    Minus,
    /// The opposite of an operand.
    Not,
    /// The size of an expression.
    Abs,
    /// A reduction or a scan, or for `max` and `min` the greater or the lesser of two.
    Fold(Fold),
    /// A flood.
    Flood,
}

/// The levels of operators between two operands, from the one that binds weakest.
#[derive(Clone, Copy)]
pub enum Level {
    /// `|`.
    Or,
    /// `&`.
    And,
    /// A comparison, of which one alone stands between two operands.
    Comparison,
    /// `+` and `-`.
    Sum,
    /// `*`, `/` and `%`.
    Term,
}

/// What stands behind an operator that folds.
#[derive(Clone, Copy)]
pub enum Folding {
    /// `<<`, of a reduction.
    Reduce,
    /// `||`, of a scan.
    Scan,
    /// `(`, behind `max` or `min`, with two operands.
    Pair(Op),
}

/// What the first token of a statement behind its prefixes begins.
#[derive(Clone, Copy)]
pub enum Start {
    /// An assignment or a call.
    Name,
    /// A block.
    Block,
    /// An `if`.
    If,
    /// A `while`.
    While,
    /// A `repeat`.
    Repeat,
    /// A `for`.
    For,
    /// A `wrap` or a `reflect`.
    Border(Border),
    /// A `writeln`, or else a `write`.
    Write(bool),
    /// A `return`.
    Return,
}

/// What the first token of a declaration begins.
#[derive(Clone, Copy)]
pub enum Part {
    /// Configs.
    Config,
    /// Constants.
    Constant,
    /// Regions.
    Region,
    /// Directions.
    Direction,
    /// Global variables.
    Var,
    /// A procedure.
    Procedure,
}

/// What stands behind a name.
#[derive(Clone, Copy)]
pub enum Suffix {
    /// `@`, of a shift or of a read that wraps round.
    Shift,
    /// `#`, of a remap.
    Remap,
    /// `(`, of a call.
    Call,
}

/// What a token begins as the first one of an expression.
pub fn opened_by(kind: Kind) -> Option<Opening>
    ensures { result ≡ opening_of kind }
{
    match kind {
        Kind::Number(value) if value >= 0 => Some(Opening::Number(value)),
        Kind::Name => Some(Opening::Name),
        Kind::Symbol(symbol) => opening_symbol(symbol),
        Kind::Word(key) => opening_keyword(key),
        _ => None,
    }
}

/// What a symbol begins as the first token of an expression.
fn opening_symbol(symbol: Sym) -> Option<Opening>
    ensures { result ≡ opening_symbol_of symbol }
{
    match symbol {
        Sym::OpenParen => Some(Opening::Paren),
        Sym::Minus => Some(Opening::Minus),
        Sym::Not => Some(Opening::Not),
        Sym::Flood => Some(Opening::Flood),
        Sym::Plus => Some(Opening::Fold(Fold::Sum)),
        Sym::Star => Some(Opening::Fold(Fold::Prod)),
        Sym::And => Some(Opening::Fold(Fold::All)),
        Sym::Or => Some(Opening::Fold(Fold::Any)),
        _ => None,
    }
}

/// What a keyword begins as the first token of an expression.
fn opening_keyword(key: Key) -> Option<Opening>
    ensures { result ≡ opening_keyword_of key }
{
    match key {
        Key::Max => Some(Opening::Fold(Fold::Max)),
        Key::Min => Some(Opening::Fold(Fold::Min)),
        Key::Abs => Some(Opening::Abs),
        Key::True => Some(Opening::Truth(true)),
        Key::False => Some(Opening::Truth(false)),
        Key::Index1 => Some(Opening::Coord(1)),
        Key::Index2 => Some(Opening::Coord(2)),
        Key::Index3 => Some(Opening::Coord(3)),
        _ => None,
    }
}

/// What a token begins as the first one behind a name.
pub fn suffixed_by(kind: Kind) -> Option<Suffix>
    ensures { result ≡ suffix_of kind }
{
    match kind {
        Kind::Symbol(Sym::At) => Some(Suffix::Shift),
        Kind::Symbol(Sym::Hash) => Some(Suffix::Remap),
        Kind::Symbol(Sym::OpenParen) => Some(Suffix::Call),
        _ => None,
    }
}

/// The operator of a level that a token is.
pub fn operator(level: Level, kind: Kind) -> Option<Op>
    ensures { result ≡ operator_of level kind }
{
    match level {
        Level::Or => or_operator(kind),
        Level::And => and_operator(kind),
        Level::Comparison => comparison(kind),
        Level::Sum => sum_operator(kind),
        Level::Term => term_operator(kind),
    }
}

/// The level of what stands between the operators of a level, or none where that is unary.
pub fn below(level: Level) -> Option<Level>
    ensures { result ≡ below_of level }
{
    match level {
        Level::Or => Some(Level::And),
        Level::And => Some(Level::Comparison),
        Level::Comparison => Some(Level::Sum),
        Level::Sum => Some(Level::Term),
        Level::Term => None,
    }
}

/// Whether one operator of a level alone stands between two operands.
pub fn stands_alone(level: Level) -> bool
    ensures { result ≡ is_alone level }
{
    matches!(level, Level::Comparison)
}

/// `|`.
fn or_operator(kind: Kind) -> Option<Op>
    ensures { result ≡ or_op kind }
{
    match kind {
        Kind::Symbol(Sym::Or) => Some(Op::Or),
        _ => None,
    }
}

/// `&`.
fn and_operator(kind: Kind) -> Option<Op>
    ensures { result ≡ and_op kind }
{
    match kind {
        Kind::Symbol(Sym::And) => Some(Op::And),
        _ => None,
    }
}

/// A comparison.
fn comparison(kind: Kind) -> Option<Op>
    ensures { result ≡ comp_op kind }
{
    match kind {
        Kind::Symbol(Sym::Equal) => Some(Op::Eq),
        Kind::Symbol(Sym::NotEqual) => Some(Op::Ne),
        Kind::Symbol(Sym::Less) => Some(Op::Lt),
        Kind::Symbol(Sym::LessEqual) => Some(Op::Le),
        Kind::Symbol(Sym::Greater) => Some(Op::Gt),
        Kind::Symbol(Sym::GreaterEqual) => Some(Op::Ge),
        _ => None,
    }
}

/// `+` or `-`.
fn sum_operator(kind: Kind) -> Option<Op>
    ensures { result ≡ sum_op kind }
{
    match kind {
        Kind::Symbol(Sym::Plus) => Some(Op::Add),
        Kind::Symbol(Sym::Minus) => Some(Op::Sub),
        _ => None,
    }
}

/// `*`, `/` or `%`.
fn term_operator(kind: Kind) -> Option<Op>
    ensures { result ≡ term_op kind }
{
    match kind {
        Kind::Symbol(Sym::Star) => Some(Op::Mul),
        Kind::Symbol(Sym::Slash) => Some(Op::Div),
        Kind::Symbol(Sym::Percent) => Some(Op::Rem),
        _ => None,
    }
}

/// What stands behind an operator that folds.
pub fn folded_by(operator: Fold, kind: Kind) -> Option<Folding>
    ensures { result ≡ folding_of operator kind }
{
    match kind {
        Kind::Symbol(Sym::Reduce) => Some(Folding::Reduce),
        Kind::Symbol(Sym::Scan) => Some(Folding::Scan),
        Kind::Symbol(Sym::OpenParen) => pair_folding(operator),
        _ => None,
    }
}

/// What a bracket behind an operator says, which `max` and `min` alone may have.
fn pair_folding(operator: Fold) -> Option<Folding>
    ensures { result ≡ folding_of operator (Symbol OpenParen) }
{
    match operator {
        Fold::Max => Some(Folding::Pair(Op::Max)),
        Fold::Min => Some(Folding::Pair(Op::Min)),
        _ => None,
    }
}

/// An assignment, with the operator of `op=`.
pub fn assignment(kind: Kind) -> Option<Option<Op>>
    ensures { result ≡ assigning kind }
{
    match kind {
        Kind::Symbol(symbol) => assigning_symbol(symbol),
        _ => None,
    }
}

/// The assignment that a symbol is.
fn assigning_symbol(symbol: Sym) -> Option<Option<Op>>
    ensures { result ≡ assigning (Symbol symbol) }
{
    match symbol {
        Sym::Assign => Some(None),
        Sym::AddAssign => Some(Some(Op::Add)),
        Sym::SubAssign => Some(Some(Op::Sub)),
        Sym::MulAssign => Some(Some(Op::Mul)),
        Sym::DivAssign => Some(Some(Op::Div)),
        Sym::RemAssign => Some(Some(Op::Rem)),
        Sym::AndAssign => Some(Some(Op::And)),
        Sym::OrAssign => Some(Some(Op::Or)),
        _ => None,
    }
}

/// What a token begins as the first one of a statement behind its prefixes.
pub fn started_by(kind: Kind) -> Option<Start>
    ensures { result ≡ start_of kind }
{
    match kind {
        Kind::Name => Some(Start::Name),
        Kind::Word(key) => starting_keyword(key),
        _ => None,
    }
}

/// What a keyword begins as the first token of a statement.
fn starting_keyword(key: Key) -> Option<Start>
    ensures { result ≡ start_keyword key }
{
    match key {
        Key::Begin => Some(Start::Block),
        Key::If => Some(Start::If),
        Key::While => Some(Start::While),
        Key::Repeat => Some(Start::Repeat),
        Key::For => Some(Start::For),
        Key::Wrap => Some(Start::Border(Border::Wrap)),
        Key::Reflect => Some(Start::Border(Border::Reflect)),
        Key::Write => Some(Start::Write(false)),
        Key::Writeln => Some(Start::Write(true)),
        Key::Return => Some(Start::Return),
        _ => None,
    }
}

/// Whether a token may begin a statement.
pub fn begins_statement(kind: Kind) -> bool
    ensures { result ≡ begins_stmt kind }
{
    match kind {
        Kind::Symbol(Sym::OpenBracket) => true,
        _ => started_by(kind).is_some(),
    }
}

/// What a token begins as the first one of a declaration.
pub fn declared_by(kind: Kind) -> Option<Part>
    ensures { result ≡ part_of kind }
{
    match kind {
        Kind::Word(Key::Config) => Some(Part::Config),
        Kind::Word(Key::Constant) => Some(Part::Constant),
        Kind::Word(Key::Region) => Some(Part::Region),
        Kind::Word(Key::Direction) => Some(Part::Direction),
        Kind::Word(Key::Var) => Some(Part::Var),
        Kind::Word(Key::Procedure) => Some(Part::Procedure),
        _ => None,
    }
}

/// `of`, which goes outside, or `in`.
pub fn outside(kind: Kind) -> Option<bool>
    ensures { result ≡ outside_of kind }
{
    match kind {
        Kind::Word(Key::Of) => Some(true),
        Kind::Word(Key::In) => Some(false),
        _ => None,
    }
}

/// `by`, which strides, or `at`.
pub fn stride(kind: Kind) -> Option<bool>
    ensures { result ≡ stride_of kind }
{
    match kind {
        Kind::Word(Key::By) => Some(true),
        Kind::Word(Key::At) => Some(false),
        _ => None,
    }
}

/// `without` or `with`.
pub fn without(kind: Kind) -> Option<bool>
    ensures { result ≡ without_of kind }
{
    match kind {
        Kind::Word(Key::Without) => Some(true),
        Kind::Word(Key::With) => Some(false),
        _ => None,
    }
}

/// `downto` or `to`.
pub fn downwards(kind: Kind) -> Option<bool>
    ensures { result ≡ down_of kind }
{
    match kind {
        Kind::Word(Key::Downto) => Some(true),
        Kind::Word(Key::To) => Some(false),
        _ => None,
    }
}

/// Whether a token may stand behind the region in a bracket.
pub fn ends_region(kind: Kind) -> bool
    ensures { result ≡ closes_region kind }
{
    matches!(
        kind,
        Kind::Symbol(Sym::CloseBracket) | Kind::Word(Key::With) | Kind::Word(Key::Without)
    )
}

/// Whether a token may stand behind a dimension.
pub fn ends_dimension(kind: Kind) -> bool
    ensures { result ≡ closes_dim kind }
{
    match kind {
        Kind::Symbol(Sym::Comma) => true,
        _ => ends_region(kind),
    }
}

/// Whether a token makes a name before it the beginning of a region expression.
pub fn goes_on_region(kind: Kind) -> bool
    ensures { result ≡ follows_region kind }
{
    match kind {
        Kind::Word(Key::Of) | Kind::Word(Key::In) | Kind::Word(Key::At) | Kind::Word(Key::By) => {
            true
        }
        _ => ends_region(kind),
    }
}
