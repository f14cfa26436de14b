//! The fields of lines that have no number in them.
ghost use Rattle.std.specs.Prelude.{◌≡◌, ◌≢◌, MatchOption};
ghost use Rattle.listing_lines.specs.declared.names.Name.{Name as Word};
ghost use Rattle.listing_lines.specs.Name.{name_text};

/// A field that is one of these words or signs.
#[derive(Clone, Copy, Debug, PartialEq, Eq)]
pub enum Name {
    /// `-`.
    Minus,
    /// `*`.
    Star,
    /// `-*`.
    MinusStar,
    /// `+`.
    Plus,
    /// `/`.
    Slash,
    /// `%`.
    Percent,
    /// `=`.
    Equal,
    /// `!=`.
    NotEqual,
    /// `<`.
    Less,
    /// `<=`.
    LessEqual,
    /// `>`.
    Greater,
    /// `>=`.
    GreaterEqual,
    /// `&`.
    And,
    /// `|`.
    Or,
    /// `max`.
    Max,
    /// `min`.
    Min,
    /// `neg`.
    Neg,
    /// `not`.
    Not,
    /// `abs`.
    Abs,
    /// `sum`.
    Sum,
    /// `prod`.
    Prod,
    /// `all`.
    All,
    /// `any`.
    Any,
    /// `part`.
    Part,
    /// `flood`.
    Flood,
    /// `number`.
    Number,
    /// `truth`.
    Truth,
}

impl Name {
    /// How a listing writes it.
    pub fn text(self) -> &'static [u8]
        ensures { result.now ≡ name_text self }
    {
        match self {
            Name::Minus => b"-",
            Name::Star => b"*",
            Name::MinusStar => b"-*",
            Name::Plus => b"+",
            Name::Slash => b"/",
            Name::Percent => b"%",
            Name::Equal => b"=",
            Name::NotEqual => b"!=",
            Name::Less => b"<",
            Name::LessEqual => b"<=",
            Name::Greater => b">",
            Name::GreaterEqual => b">=",
            Name::And => b"&",
            Name::Or => b"|",
            Name::Max => b"max",
            Name::Min => b"min",
            Name::Neg => b"neg",
            Name::Not => b"not",
            Name::Abs => b"abs",
            Name::Sum => b"sum",
            Name::Prod => b"prod",
            Name::All => b"all",
            Name::Any => b"any",
            Name::Part => b"part",
            Name::Flood => b"flood",
            Name::Number => b"number",
            Name::Truth => b"truth",
        }
    }
}

/// The name that is written so.
pub(crate) fn name_of(word: &[u8]) -> Option<Name>
    ensures { MatchOption result
        ((name : Word) → word.now ≢ name_text name)
        (λ name. word.now ≡ name_text name) }
{
    match word {
        b"-" => Some(Name::Minus),
        b"*" => Some(Name::Star),
        b"-*" => Some(Name::MinusStar),
        b"+" => Some(Name::Plus),
        b"/" => Some(Name::Slash),
        b"%" => Some(Name::Percent),
        b"=" => Some(Name::Equal),
        b"!=" => Some(Name::NotEqual),
        b"<" => Some(Name::Less),
        b"<=" => Some(Name::LessEqual),
        b">" => Some(Name::Greater),
        b">=" => Some(Name::GreaterEqual),
        b"&" => Some(Name::And),
        b"|" => Some(Name::Or),
        b"max" => Some(Name::Max),
        b"min" => Some(Name::Min),
        b"neg" => Some(Name::Neg),
        b"not" => Some(Name::Not),
        b"abs" => Some(Name::Abs),
        b"sum" => Some(Name::Sum),
        b"prod" => Some(Name::Prod),
        b"all" => Some(Name::All),
        b"any" => Some(Name::Any),
        b"part" => Some(Name::Part),
        b"flood" => Some(Name::Flood),
        b"number" => Some(Name::Number),
        b"truth" => Some(Name::Truth),
        _ => None,
    }
}
