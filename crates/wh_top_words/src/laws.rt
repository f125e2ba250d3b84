//! The law of the command line: words ask for one request at most.

ghost use Rattle.std.specs.Prelude.{◌≡◌, ℕ, List};
ghost use Rattle.wh_top_words.specs.Words.{Asks, Request};

/// Words ask for one request at most.
pub fn words_ask_for_one_request()
    ensures { (words : List (List ℕ)) (a b : Request) → Asks words a → Asks words b → a ≡ b }
{}
