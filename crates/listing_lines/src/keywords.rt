//! The words that lines of a listing begin with.
ghost use Rattle.std.specs.Prelude.{◌≡◌, ◌≢◌, MatchOption};
ghost use Rattle.listing_lines.specs.declared.keywords.Keyword.{Keyword as Key};
ghost use Rattle.listing_lines.specs.Keyword.{keyword_text};

/// The word that a line begins with. It says what the line is.
#[derive(Clone, Copy, Debug, PartialEq, Eq)]
pub enum Keyword {
    /// `zplnode`.
    Version,
    /// `grid`.
    Grid,
    /// `scalars`.
    Scalars,
    /// `slots`.
    Slots,
    /// `cells`.
    Cells,
    /// `array`.
    Array,
    /// `text`.
    Text,
    /// `expr`.
    Expr,
    /// `group`.
    Group,
    /// `exchange`.
    Exchange,
    /// `item`.
    Item,
    /// `code`.
    Code,
    /// `put`.
    Put,
    /// `cell`.
    Cell,
    /// `acc`.
    Acc,
    /// `if`.
    If,
    /// `else`.
    Else,
    /// `fi`.
    Fi,
    /// `while`.
    While,
    /// `od`.
    Od,
    /// `repeat`.
    Repeat,
    /// `until`.
    Until,
    /// `set`.
    Set,
    /// `fix`.
    Fix,
    /// `dims`.
    Dims,
    /// `of`.
    Of,
    /// `in`.
    In,
    /// `at`.
    At,
    /// `by`.
    By,
    /// `need`.
    Need,
    /// `same`.
    Same,
    /// `fits`.
    Fits,
    /// `room`.
    Room,
    /// `clear`.
    Clear,
    /// `loop`.
    Loop,
    /// `start`.
    Start,
    /// `finish`.
    Finish,
    /// `wrap`.
    Wrap,
    /// `reflect`.
    Reflect,
    /// `flood`.
    Flood,
    /// `part`.
    Part,
    /// `scan`.
    Scan,
    /// `vote`.
    Vote,
    /// `fold`.
    Fold,
    /// `treevote`.
    TreeVote,
    /// `treefold`.
    TreeFold,
    /// `print`.
    Print,
    /// `number`.
    Number,
    /// `truth`.
    Truth,
    /// `gather`.
    Gather,
    /// `jump`.
    Jump,
    /// `unless`.
    Unless,
    /// `trap`.
    Trap,
    /// `end`.
    End,
    /// `remap`.
    Remap,
}

impl Keyword {
    /// How a listing writes it.
    pub fn text(self) -> &'static [u8]
        ensures { result.now ≡ keyword_text self }
    {
        match self {
            Keyword::Version => b"zplnode",
            Keyword::Grid => b"grid",
            Keyword::Scalars => b"scalars",
            Keyword::Slots => b"slots",
            Keyword::Cells => b"cells",
            Keyword::Array => b"array",
            Keyword::Text => b"text",
            Keyword::Expr => b"expr",
            Keyword::Group => b"group",
            Keyword::Exchange => b"exchange",
            Keyword::Item => b"item",
            Keyword::Code => b"code",
            Keyword::Put => b"put",
            Keyword::Cell => b"cell",
            Keyword::Acc => b"acc",
            Keyword::If => b"if",
            Keyword::Else => b"else",
            Keyword::Fi => b"fi",
            Keyword::While => b"while",
            Keyword::Od => b"od",
            Keyword::Repeat => b"repeat",
            Keyword::Until => b"until",
            Keyword::Set => b"set",
            Keyword::Fix => b"fix",
            Keyword::Dims => b"dims",
            Keyword::Of => b"of",
            Keyword::In => b"in",
            Keyword::At => b"at",
            Keyword::By => b"by",
            Keyword::Need => b"need",
            Keyword::Same => b"same",
            Keyword::Fits => b"fits",
            Keyword::Room => b"room",
            Keyword::Clear => b"clear",
            Keyword::Loop => b"loop",
            Keyword::Start => b"start",
            Keyword::Finish => b"finish",
            Keyword::Wrap => b"wrap",
            Keyword::Reflect => b"reflect",
            Keyword::Flood => b"flood",
            Keyword::Part => b"part",
            Keyword::Scan => b"scan",
            Keyword::Vote => b"vote",
            Keyword::Fold => b"fold",
            Keyword::TreeVote => b"treevote",
            Keyword::TreeFold => b"treefold",
            Keyword::Print => b"print",
            Keyword::Number => b"number",
            Keyword::Truth => b"truth",
            Keyword::Gather => b"gather",
            Keyword::Jump => b"jump",
            Keyword::Unless => b"unless",
            Keyword::Trap => b"trap",
            Keyword::End => b"end",
            Keyword::Remap => b"remap",
        }
    }
}

/// The keyword that is written so.
pub(crate) fn keyword_of(word: &[u8]) -> Option<Keyword>
    ensures { MatchOption result
        ((keyword : Key) → word.now ≢ keyword_text keyword)
        (λ keyword. word.now ≡ keyword_text keyword) }
{
    match word {
        b"zplnode" => Some(Keyword::Version),
        b"grid" => Some(Keyword::Grid),
        b"scalars" => Some(Keyword::Scalars),
        b"slots" => Some(Keyword::Slots),
        b"cells" => Some(Keyword::Cells),
        b"array" => Some(Keyword::Array),
        b"text" => Some(Keyword::Text),
        b"expr" => Some(Keyword::Expr),
        b"group" => Some(Keyword::Group),
        b"exchange" => Some(Keyword::Exchange),
        b"item" => Some(Keyword::Item),
        b"code" => Some(Keyword::Code),
        b"put" => Some(Keyword::Put),
        b"cell" => Some(Keyword::Cell),
        b"acc" => Some(Keyword::Acc),
        b"if" => Some(Keyword::If),
        b"else" => Some(Keyword::Else),
        b"fi" => Some(Keyword::Fi),
        b"while" => Some(Keyword::While),
        b"od" => Some(Keyword::Od),
        b"repeat" => Some(Keyword::Repeat),
        b"until" => Some(Keyword::Until),
        b"set" => Some(Keyword::Set),
        b"fix" => Some(Keyword::Fix),
        b"dims" => Some(Keyword::Dims),
        b"of" => Some(Keyword::Of),
        b"in" => Some(Keyword::In),
        b"at" => Some(Keyword::At),
        b"by" => Some(Keyword::By),
        b"need" => Some(Keyword::Need),
        b"same" => Some(Keyword::Same),
        b"fits" => Some(Keyword::Fits),
        b"room" => Some(Keyword::Room),
        b"clear" => Some(Keyword::Clear),
        b"loop" => Some(Keyword::Loop),
        b"start" => Some(Keyword::Start),
        b"finish" => Some(Keyword::Finish),
        b"wrap" => Some(Keyword::Wrap),
        b"reflect" => Some(Keyword::Reflect),
        b"flood" => Some(Keyword::Flood),
        b"part" => Some(Keyword::Part),
        b"scan" => Some(Keyword::Scan),
        b"vote" => Some(Keyword::Vote),
        b"fold" => Some(Keyword::Fold),
        b"treevote" => Some(Keyword::TreeVote),
        b"treefold" => Some(Keyword::TreeFold),
        b"print" => Some(Keyword::Print),
        b"number" => Some(Keyword::Number),
        b"truth" => Some(Keyword::Truth),
        b"gather" => Some(Keyword::Gather),
        b"jump" => Some(Keyword::Jump),
        b"unless" => Some(Keyword::Unless),
        b"trap" => Some(Keyword::Trap),
        b"end" => Some(Keyword::End),
        b"remap" => Some(Keyword::Remap),
        _ => None,
    }
}
