ghost use Rattle.std.specs.Prelude.{◌≡◌, ◌⊎◌, ◌+◌, ◌<◌, ◌≤◌, ℕ, List, length};
ghost use Rattle.std.specs.List.{AllByRecursion};
ghost use Rattle.pt_val.specs.declared.place.Place.{Place};
ghost use Rattle.pt_token.specs.declared.token.Token.{Token};
ghost use Rattle.pt_token.specs.Ending.{EndOnce};
ghost use Rattle.pt_lex.specs.Lexing.{NotUtf8At, TokensOf};

/// A text has one list of tokens at most.
pub fn one_token_list()
    ensures { (bytes : List ℕ) (tokens others : List Token) → TokensOf bytes tokens → TokensOf bytes others → tokens ≡ others }
{}

/// Bytes are a text with its tokens, or are not UTF-8 from some place on.
pub fn every_text_has_tokens()
    ensures { (bytes : List ℕ) → ((tokens : List Token) × TokensOf bytes tokens) ⊎ ((place : Place) × NotUtf8At bytes place) }
{}

/// Bytes that have tokens are UTF-8.
pub fn tokens_are_utf8()
    ensures { (bytes : List ℕ) (tokens : List Token) (place : Place) → TokensOf bytes tokens → NotUtf8At bytes place → ⊥ }
{}

/// Bytes stop to be UTF-8 at one place.
pub fn one_place_not_utf8()
    ensures { (bytes : List ℕ) (place other : Place) → NotUtf8At bytes place → NotUtf8At bytes other → place ≡ other }
{}

/// The end of the text or a malformed token is the last token and no other, every token stands in a line of the text,
/// and there is one token more than bytes at most.
pub fn tokens_end_once()
    ensures once { (bytes : List ℕ) (tokens : List Token) → TokensOf bytes tokens → EndOnce tokens }
    ensures real { (bytes : List ℕ) (tokens : List Token) → TokensOf bytes tokens → AllByRecursion (λ token. 0 < token.at.line) tokens }
    ensures few { (bytes : List ℕ) (tokens : List Token) → TokensOf bytes tokens → length tokens ≤ length bytes + 1 }
{}
