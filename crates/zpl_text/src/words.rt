//! Names and keywords.
ghost use Rattle.std.specs.Prelude.{◌≡◌, ◌≢◌, ◌<◌, ℕ, Bool, List, length, MatchOption};
ghost use Rattle.std.specs.List.{prefix_len};
ghost use Rattle.zpl_tokens.specs.declared.keywords.Key.{Key as Keyword};
ghost use Rattle.zpl_tokens.specs.Key.{keyword_text};
ghost use Rattle.zpl_text.specs.Bytes.{is_word_start, is_word_byte, FirstPasses};
ghost use Rattle.zpl_text.specs.Kinds.{IsWord, IsToken};
ghost use Rattle.zpl_text.specs.Cutting.{MayStand, IsCut, IsSound};

use zpl_tokens::{Key, Kind};

/// The word at the front, a name or a keyword, and what is left behind it.
pub fn word_at(bytes: &[u8]) -> (Kind, &[u8])
    requires { FirstPasses is_word_start bytes.now }
    ensures cut { (ditto : Bool) → IsCut ditto bytes.now result.0 result.1.now }
    ensures sound { IsSound result.0 result.1.now }
    ensures shorter { length result.1.now < length bytes.now }
{
    let (word, after) = bytes.split_at(word_len(bytes));
    (kind_of(word), after)
}

/// Whether the word is a name or which keyword it is.
fn kind_of(word: &[u8]) -> Kind
    requires { IsWord word.now }
    ensures token { IsToken word.now result }
    ensures place { (ditto : Bool) → MayStand ditto result }
    ensures sound { (after : List ℕ) → IsSound result after }
{
    match keyword_of(word) {
        Some(key) => Kind::Word(key),
        None => Kind::Name,
    }
}

/// Whether a word may begin with the byte.
pub fn is_word_start(byte: u8) -> bool
    ensures { result ≡ is_word_start byte }
{
    byte.is_ascii_alphabetic() || byte == b'_'
}

/// How many bytes at the front can stand in a word.
fn word_len(bytes: &[u8]) -> usize
    ensures { result ≡ prefix_len is_word_byte bytes.now }
{
    bytes
        .iter()
        .take_while(|byte| is_word_start(**byte) || byte.is_ascii_digit())
        .count()
}

/// The keyword that is written so.
fn keyword_of(word: &[u8]) -> Option<Key>
    ensures { MatchOption result
        ((key : Keyword) → word.now ≢ keyword_text key)
        (λ key. word.now ≡ keyword_text key) }
{
    match word {
        b"program" => Some(Key::Program),
        b"config" => Some(Key::Config),
        b"var" => Some(Key::Var),
        b"constant" => Some(Key::Constant),
        b"region" => Some(Key::Region),
        b"direction" => Some(Key::Direction),
        b"procedure" => Some(Key::Procedure),
        b"begin" => Some(Key::Begin),
        b"end" => Some(Key::End),
        b"if" => Some(Key::If),
        b"then" => Some(Key::Then),
        b"elsif" => Some(Key::Elsif),
        b"else" => Some(Key::Else),
        b"while" => Some(Key::While),
        b"do" => Some(Key::Do),
        b"repeat" => Some(Key::Repeat),
        b"until" => Some(Key::Until),
        b"for" => Some(Key::For),
        b"to" => Some(Key::To),
        b"downto" => Some(Key::Downto),
        b"by" => Some(Key::By),
        b"of" => Some(Key::Of),
        b"in" => Some(Key::In),
        b"at" => Some(Key::At),
        b"with" => Some(Key::With),
        b"without" => Some(Key::Without),
        b"wrap" => Some(Key::Wrap),
        b"reflect" => Some(Key::Reflect),
        b"return" => Some(Key::Return),
        b"integer" => Some(Key::Integer),
        b"boolean" => Some(Key::Boolean),
        b"true" => Some(Key::True),
        b"false" => Some(Key::False),
        b"max" => Some(Key::Max),
        b"min" => Some(Key::Min),
        b"abs" => Some(Key::Abs),
        b"write" => Some(Key::Write),
        b"writeln" => Some(Key::Writeln),
        b"Index1" => Some(Key::Index1),
        b"Index2" => Some(Key::Index2),
        b"Index3" => Some(Key::Index3),
        _ => None,
    }
}
