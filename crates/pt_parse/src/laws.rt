ghost use Rattle.std.specs.Prelude.{◌≡◌, ◌⊎◌, ℕ, List};
ghost use Rattle.pt_ast.specs.Trees.{SuiteTree};
ghost use Rattle.pt_parse.specs.declared.fault.SuiteFault.{SuiteFault};
ghost use Rattle.pt_parse.specs.Suites.{Reads, HasFault};

use pt_lex::{
    every_text_has_tokens, one_place_not_utf8, one_token_list, tokens_are_utf8, tokens_end_once,
};

/// Bytes are the text of one suite at most.
pub fn one_suite()
    ensures { (bytes : List ℕ) (suite other : SuiteTree) → Reads bytes suite → Reads bytes other → suite ≡ other }
{
    one_token_list();
    tokens_end_once();
}

/// Bytes have a fault exactly where they are the text of no suite.
pub fn suite_or_fault()
    ensures some { (bytes : List ℕ) → ((suite : SuiteTree) × Reads bytes suite) ⊎ ((fault : SuiteFault) × HasFault bytes fault) }
    ensures not_both { (bytes : List ℕ) (suite : SuiteTree) (fault : SuiteFault) → Reads bytes suite → HasFault bytes fault → ⊥ }
{
    one_token_list();
    every_text_has_tokens();
    tokens_are_utf8();
    tokens_end_once();
}

/// Bytes have one first fault at most.
pub fn one_first_fault()
    ensures { (bytes : List ℕ) (fault other : SuiteFault) → HasFault bytes fault → HasFault bytes other → fault ≡ other }
{
    one_token_list();
    tokens_are_utf8();
    one_place_not_utf8();
    tokens_end_once();
}
