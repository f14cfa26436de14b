//! The laws of tokens and faults.
//!
//! Each law is the contract of a function that does nothing: a call brings the law into a proof.
ghost use Rattle.std.specs.Prelude.{◌≡◌, ◌<◌, ◌⊎◌, ℕ, List, length};
ghost use Rattle.zpl_text.specs.declared.tokens.Token.{Token as Cutting};
ghost use Rattle.zpl_text.specs.declared.faults.LexFault.{LexFault as Fault};
ghost use Rattle.zpl_text.specs.Faults.{lexical_offset};
ghost use Rattle.zpl_text.specs.Spans.{AreSpans, BeginWith};
ghost use Rattle.zpl_text.specs.Tokens.{IsFound, IsTokens, HasFault};

/// A text has at most one list of tokens, or at most one fault, and not both.
pub fn text_is_cut_one_way()
    ensures tokens { (text : List ℕ) (tokens others : List Cutting)
        → IsTokens text tokens → IsTokens text others → tokens ≡ others }
    ensures fault { (text : List ℕ) (found others : List Cutting) (fault other : Fault)
        → HasFault text found fault → HasFault text others other
        → (found ≡ others) × (fault ≡ other) }
    ensures not_both { (text : List ℕ) (tokens found : List Cutting) (fault : Fault)
        → IsTokens text tokens → ¬ HasFault text found fault }
{}

/// Each text has tokens or a fault.
pub fn text_has_tokens_or_a_fault()
    ensures { (text : List ℕ) →
        ((tokens : List Cutting) × IsTokens text tokens)
        ⊎ ((found : List Cutting) × (fault : Fault) × HasFault text found fault) }
{}

/// The tokens of a text stand in it in order, each where its offsets say, and no number is over the
/// greatest. So do the tokens before a fault, and any first tokens.
pub fn tokens_are_in_order()
    ensures tokens { (text : List ℕ) (tokens : List Cutting)
        → IsTokens text tokens → AreSpans text 0 tokens }
    ensures found { (text : List ℕ) (found : List Cutting)
        → IsFound text found → AreSpans text 0 found }
{}

/// What is found of a text is a front of its tokens, or of those before its fault.
pub fn found_is_a_front()
    ensures tokens { (text : List ℕ) (found tokens : List Cutting)
        → IsFound text found → IsTokens text tokens → BeginWith found tokens }
    ensures fault { (text : List ℕ) (found others : List Cutting) (fault : Fault)
        → IsFound text found → HasFault text others fault → BeginWith found others }
{}

/// The place of a fault is a byte of the text.
pub fn faults_are_in_the_text()
    ensures { (text : List ℕ) (found : List Cutting) (fault : Fault)
        → HasFault text found fault → lexical_offset fault < length text }
{}
