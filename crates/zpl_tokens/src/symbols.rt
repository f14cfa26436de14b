//! The symbols of the language.
ghost use Rattle.std.specs.Prelude.{◌≡◌};
ghost use Rattle.zpl_tokens.specs.Sym.{symbol_text};

/// A symbol, named for what it says in a program.
#[derive(Clone, Copy, Debug, PartialEq, Eq)]
pub enum Sym {
    /// `:=`, assignment.
    Assign,
    /// `+=`, assignment of a sum.
    AddAssign,
    /// `-=`, assignment of a difference.
    SubAssign,
    /// `*=`, assignment of a product.
    MulAssign,
    /// `/=`, assignment of a quotient.
    DivAssign,
    /// `%=`, assignment of a remainder.
    RemAssign,
    /// `&=`, assignment of a conjunction.
    AndAssign,
    /// `|=`, assignment of a disjunction.
    OrAssign,
    /// `..`, between the bounds of a dimension.
    DotDot,
    /// `<<`, a reduction.
    Reduce,
    /// `>>`, a flood.
    Flood,
    /// `||`, a scan.
    Scan,
    /// `<=`, at most.
    LessEqual,
    /// `>=`, at least.
    GreaterEqual,
    /// `!=`, unequal.
    NotEqual,
    /// `=`, equal.
    Equal,
    /// `<`, below.
    Less,
    /// `>`, above.
    Greater,
    /// `+`, plus.
    Plus,
    /// `-`, minus.
    Minus,
    /// `*`, times, or a flood dimension.
    Star,
    /// `/`, divided by.
    Slash,
    /// `%`, remainder.
    Percent,
    /// `&`, and.
    And,
    /// `|`, or.
    Or,
    /// `!`, not.
    Not,
    /// `(`, an opening round bracket.
    OpenParen,
    /// `)`, a closing round bracket.
    CloseParen,
    /// `[`, an opening square bracket.
    OpenBracket,
    /// `]`, a closing square bracket.
    CloseBracket,
    /// `,`, a comma.
    Comma,
    /// `;`, a semicolon.
    Semicolon,
    /// `:`, a colon.
    Colon,
    /// `@`, a shift.
    At,
    /// `#`, no rule of the grammar takes it.
    Hash,
    /// `^`, no rule of the grammar takes it.
    Caret,
}

impl Sym {
    /// How the language writes it.
    pub fn text(self) -> &'static str
        ensures { result.now ≡ symbol_text self }
    {
        match self {
            Sym::Assign => ":=",
            Sym::AddAssign => "+=",
            Sym::SubAssign => "-=",
            Sym::MulAssign => "*=",
            Sym::DivAssign => "/=",
            Sym::RemAssign => "%=",
            Sym::AndAssign => "&=",
            Sym::OrAssign => "|=",
            Sym::DotDot => "..",
            Sym::Reduce => "<<",
            Sym::Flood => ">>",
            Sym::Scan => "||",
            Sym::LessEqual => "<=",
            Sym::GreaterEqual => ">=",
            Sym::NotEqual => "!=",
            Sym::Equal => "=",
            Sym::Less => "<",
            Sym::Greater => ">",
            Sym::Plus => "+",
            Sym::Minus => "-",
            Sym::Star => "*",
            Sym::Slash => "/",
            Sym::Percent => "%",
            Sym::And => "&",
            Sym::Or => "|",
            Sym::Not => "!",
            Sym::OpenParen => "(",
            Sym::CloseParen => ")",
            Sym::OpenBracket => "[",
            Sym::CloseBracket => "]",
            Sym::Comma => ",",
            Sym::Semicolon => ";",
            Sym::Colon => ":",
            Sym::At => "@",
            Sym::Hash => "#",
            Sym::Caret => "^",
        }
    }
}
