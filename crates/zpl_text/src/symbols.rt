//! Symbols.
ghost use Rattle.std.specs.Prelude.{◌≡◌, ◌≢◌, ◌<◌, [], ◌∷◌, Bool, length, MatchOption, IfSome};
ghost use Rattle.zpl_tokens.specs.declared.Kind.TheVariants.{Symbol};
ghost use Rattle.zpl_tokens.specs.declared.symbols.Sym.{Sym as Sign};
ghost use Rattle.zpl_tokens.specs.Sym.{symbol_text};
ghost use Rattle.zpl_text.specs.Scanning.{AllAreSingle, IsDoubleAt};
ghost use Rattle.zpl_text.specs.Bytes.{is_word_byte, quote, BeginsWith, FirstPasses};
ghost use Rattle.zpl_text.specs.Cutting.{IsCut, BeginsNoToken};

use zpl_tokens::Sym;

/// The symbol at the front, and what is left behind it.
pub fn symbol_at(bytes: &[u8]) -> Option<(Sym, &[u8])>
    requires some { 0 < length bytes.now }
    requires no_word { ¬ FirstPasses is_word_byte bytes.now }
    requires no_quote { ¬ BeginsWith (quote ∷ []) bytes.now }
    ensures cut { MatchOption result
        (BeginsNoToken bytes.now)
        (λ found. (ditto : Bool) → IsCut ditto bytes.now (Symbol found.0) found.1.now) }
    ensures shorter { IfSome result (λ found. length found.1.now < length bytes.now) }
{
    if let Some(symbol) = double_at(bytes) {
        return Some((symbol, &bytes[2..]));
    }
    let symbol = single_of(bytes[0])?;
    Some((symbol, &bytes[1..]))
}

/// The symbol of two bytes at the front, unless three bars stand together there.
fn double_at(bytes: &[u8]) -> Option<Sym>
    ensures { MatchOption result (AllAreSingle bytes.now) (IsDoubleAt bytes.now) }
{
    if bytes.len() < 2 || bytes.starts_with(b"|||") {
        return None;
    }
    pair_of(bytes[0], bytes[1])
}

/// The symbol of one byte.
fn single_of(byte: u8) -> Option<Sym>
    ensures { MatchOption result
        ((symbol : Sign) → symbol_text symbol ≢ byte ∷ [])
        (λ symbol. symbol_text symbol ≡ byte ∷ []) }
{
    match byte {
        b'=' => Some(Sym::Equal),
        b'<' => Some(Sym::Less),
        b'>' => Some(Sym::Greater),
        b'+' => Some(Sym::Plus),
        b'-' => Some(Sym::Minus),
        b'*' => Some(Sym::Star),
        b'/' => Some(Sym::Slash),
        b'%' => Some(Sym::Percent),
        b'&' => Some(Sym::And),
        b'|' => Some(Sym::Or),
        b'!' => Some(Sym::Not),
        b'(' => Some(Sym::OpenParen),
        b')' => Some(Sym::CloseParen),
        b'[' => Some(Sym::OpenBracket),
        b']' => Some(Sym::CloseBracket),
        b',' => Some(Sym::Comma),
        b';' => Some(Sym::Semicolon),
        b':' => Some(Sym::Colon),
        b'@' => Some(Sym::At),
        b'#' => Some(Sym::Hash),
        b'^' => Some(Sym::Caret),
        _ => None,
    }
}

/// The symbol of two bytes.
fn pair_of(first: u8, second: u8) -> Option<Sym>
    ensures { MatchOption result
        ((symbol : Sign) → symbol_text symbol ≢ first ∷ second ∷ [])
        (λ symbol. symbol_text symbol ≡ first ∷ second ∷ []) }
{
    match (first, second) {
        (b':', b'=') => Some(Sym::Assign),
        (b'+', b'=') => Some(Sym::AddAssign),
        (b'-', b'=') => Some(Sym::SubAssign),
        (b'*', b'=') => Some(Sym::MulAssign),
        (b'/', b'=') => Some(Sym::DivAssign),
        (b'%', b'=') => Some(Sym::RemAssign),
        (b'&', b'=') => Some(Sym::AndAssign),
        (b'|', b'=') => Some(Sym::OrAssign),
        (b'.', b'.') => Some(Sym::DotDot),
        (b'<', b'<') => Some(Sym::Reduce),
        (b'>', b'>') => Some(Sym::Flood),
        (b'|', b'|') => Some(Sym::Scan),
        (b'<', b'=') => Some(Sym::LessEqual),
        (b'>', b'=') => Some(Sym::GreaterEqual),
        (b'!', b'=') => Some(Sym::NotEqual),
        _ => None,
    }
}
