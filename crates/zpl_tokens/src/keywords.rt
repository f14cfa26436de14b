//! The keywords of the language.
ghost use Rattle.std.specs.Prelude.{◌≡◌};
ghost use Rattle.zpl_tokens.specs.Key.{keyword_text};

/// A keyword.
#[derive(Clone, Copy, Debug, PartialEq, Eq)]
pub enum Key {
    /// `program`.
    Program,
    /// `config`.
    Config,
    /// `var`.
    Var,
    /// `constant`.
    Constant,
    /// `region`.
    Region,
    /// `direction`.
    Direction,
    /// `procedure`.
    Procedure,
    /// `begin`.
    Begin,
    /// `end`.
    End,
    /// `if`.
    If,
    /// `then`.
    Then,
    /// `elsif`.
    Elsif,
    /// `else`.
    Else,
    /// `while`.
    While,
    /// `do`.
    Do,
    /// `repeat`.
    Repeat,
    /// `until`.
    Until,
    /// `for`.
    For,
    /// `to`.
    To,
    /// `downto`.
    Downto,
    /// `by`.
    By,
    /// `of`.
    Of,
    /// `in`.
    In,
    /// `at`.
    At,
    /// `with`.
    With,
    /// `without`.
    Without,
    /// `wrap`.
    Wrap,
    /// `reflect`.
    Reflect,
    /// `return`.
    Return,
    /// `integer`.
    Integer,
    /// `boolean`.
    Boolean,
    /// `true`.
    True,
    /// `false`.
    False,
    /// `max`.
    Max,
    /// `min`.
    Min,
    /// `abs`.
    Abs,
    /// `write`.
    Write,
    /// `writeln`.
    Writeln,
    /// `Index1`.
    Index1,
    /// `Index2`.
    Index2,
    /// `Index3`.
    Index3,
}

impl Key {
    /// How the language writes it.
    pub fn text(self) -> &'static str
        ensures { result.now ≡ keyword_text self }
    {
        match self {
            Key::Program => "program",
            Key::Config => "config",
            Key::Var => "var",
            Key::Constant => "constant",
            Key::Region => "region",
            Key::Direction => "direction",
            Key::Procedure => "procedure",
            Key::Begin => "begin",
            Key::End => "end",
            Key::If => "if",
            Key::Then => "then",
            Key::Elsif => "elsif",
            Key::Else => "else",
            Key::While => "while",
            Key::Do => "do",
            Key::Repeat => "repeat",
            Key::Until => "until",
            Key::For => "for",
            Key::To => "to",
            Key::Downto => "downto",
            Key::By => "by",
            Key::Of => "of",
            Key::In => "in",
            Key::At => "at",
            Key::With => "with",
            Key::Without => "without",
            Key::Wrap => "wrap",
            Key::Reflect => "reflect",
            Key::Return => "return",
            Key::Integer => "integer",
            Key::Boolean => "boolean",
            Key::True => "true",
            Key::False => "false",
            Key::Max => "max",
            Key::Min => "min",
            Key::Abs => "abs",
            Key::Write => "write",
            Key::Writeln => "writeln",
            Key::Index1 => "Index1",
            Key::Index2 => "Index2",
            Key::Index3 => "Index3",
        }
    }
}
