//! The requests that the words of `wanda_explain` make.

ghost use Rattle.std.specs.Prelude.{◌≡◌, ◌↔◌, ◌⊎◌, ◌∷◌, [], ℕ, List, All, IsTrue, MatchOption, length, map, string_bytes};
ghost use Rattle.wh_explain_words.specs.Asked.{Asked, Asks, IsName, Name, asked_by};

/// What the words ask for.
#[derive(Clone, Copy)]
pub enum Request<'a> {
    /// Explain the system in the file, by the certificate in the other file or by a search.
    Explain {
        /// The name of the system file.
        file: &'a str,
        /// The name of the certificate file, if there is one.
        cert: Option<&'a str>,
    },
    /// Say what is likely not meant in the system in the file.
    Lint {
        /// The name of the system file.
        file: &'a str,
    },
    /// Draw the dependency graph of the system in the file.
    Graph {
        /// The name of the system file.
        file: &'a str,
    },
}

/// The request that the words behind the program's own name make; `None` exactly where they are not `FILE`, `FILE
/// CERT`, `--lint FILE` or `--graph FILE`. A word of several bytes that begins with `-` names a file only behind a word
/// `--`, and so does an empty word.
pub fn read_request(words: &[String]) -> Option<Request<'_>>
    ensures { MatchOption result ((asked : Asked) → Asks (map string_bytes words.now) asked → ⊥)
        (λ request. Asks (map string_bytes words.now) (asked_by request)) }
{
    let [first, rest @ ..] = words else {
        return None;
    };
    match first.as_str() {
        "--lint" => Some(Request::Lint {
            file: one_name(rest)?,
        }),
        "--graph" => Some(Request::Graph {
            file: one_name(rest)?,
        }),
        _ => to_explain(words),
    }
}

// The system file, and the certificate file if there is one.
fn to_explain(words: &[String]) -> Option<Request<'_>>
    ensures { MatchOption result
        ((names : List (List ℕ)) → Name (map string_bytes words.now) names → (length names ≡ 1) ⊎ (length names ≡ 2) → ⊥)
        (λ request. Asks (map string_bytes words.now) (asked_by request)) }
{
    match names_of(words)? {
        [] => None,
        [file] => Some(Request::Explain {
            file: file.as_str(),
            cert: None,
        }),
        [file, cert] => Some(Request::Explain {
            file: file.as_str(),
            cert: Some(cert.as_str()),
        }),
        [_, _, _, ..] => None,
    }
}

// The only name of a file.
fn one_name(words: &[String]) -> Option<&str>
    ensures { MatchOption result ((file : List ℕ) → Name (map string_bytes words.now) (file ∷ []) → ⊥)
        (λ file. Name (map string_bytes words.now) (file.now ∷ [])) }
{
    match names_of(words)? {
        [] => None,
        [file] => Some(file.as_str()),
        [_, _, ..] => None,
    }
}

// The names of files: all words behind a first `--`, or these words, if none of them looks like an option.
fn names_of(words: &[String]) -> Option<&[String]>
    ensures { MatchOption result ((names : List (List ℕ)) → Name (map string_bytes words.now) names → ⊥)
        (λ names. (files : List (List ℕ)) → Name (map string_bytes words.now) files ↔ (files ≡ map string_bytes names.now)) }
{
    if let [first, rest @ ..] = words
        && first.as_str() == "--"
    {
        return Some(rest);
    }
    if are_names(words) { Some(words) } else { None }
}

// Whether each word names a file where no `--` stands before it.
fn are_names(words: &[String]) -> bool
    ensures { IsTrue result ↔ All IsName (map string_bytes words.now) }
{
    for word in words {
        if !is_name(word.as_str()) {
            return false;
        }
    }
    true
}

// Whether a word names a file where no `--` stands before it.
fn is_name(word: &str) -> bool
    ensures { IsTrue result ↔ IsName word.now }
{
    match word.as_bytes() {
        [] => false,
        [_] => true,
        [first, ..] => *first != b'-',
    }
}
