//! Inferences, filters and their texts determine one another, and the readers go along the fronts of texts.

ghost use Rattle.std.specs.Prelude.{◌≡◌, ◌≤◌, ℕ, List, [], ◌∷◌, ◌++◌, length};
ghost use Rattle.wh_text.specs.Chars.{line_feed};
ghost use Rattle.wh_order_inference.specs.Inferences.{Inference, entries};
ghost use Rattle.wh_order_inference.specs.InferenceText.{put_inference, of_inference};
ghost use Rattle.wh_order_inference.specs.InferenceLimits.{InferenceFits, depth, deepest_inference};
ghost use Rattle.wh_order_inference.specs.FilterText.{WrittenFilter, put_filter, FilterFits};
ghost use Rattle.wh_order_text.specs.FilterMachine as f;
ghost use Rattle.wh_order_text.specs.FiltersRead as r;
ghost use Rattle.wh_order_text.specs.InferenceMachine.{scan, start, read};
ghost use Rattle.wh_order_text.specs.InferencesRead.{Led};

/// Bytes that the reader goes along begin a line that is an inference. Bytes behind which it has read an inference are
/// the text of that inference. Bytes that it refuses begin no such line.
pub fn inference_led()
    ensures { (bytes : List ℕ) → Led (scan start bytes) bytes }
{}

/// The text of an inference within the limits is read, whatever comes behind it. So reading what was printed gives it
/// back.
pub fn inference_read()
    ensures { (i : Inference) (byte : ℕ) (rest : List ℕ) → InferenceFits 0 i
        → scan start (put_inference i (byte ∷ rest)) ≡ read i (byte ∷ rest) }
{}

/// A text is that of one inference.
pub fn one_inference()
    ensures { (i j : Inference) → InferenceFits 0 i → InferenceFits 0 j → of_inference i ≡ of_inference j → i ≡ j }
{}

/// No inference's text is the front of a longer one.
pub fn no_inference_prefix()
    ensures { (i j : Inference) (more : List ℕ) → InferenceFits 0 i → InferenceFits 0 j
        → of_inference i ++ more ≡ of_inference j → more ≡ [] }
{}

/// An inference has no more inferences in it than its text has bytes. So a line below 2^32 bytes has fewer than 2^32.
pub fn entries_short()
    ensures { (i : Inference) → InferenceFits 0 i → entries i ≤ length (of_inference i) }
{}

/// What is within the limits nests at most 64 deep.
pub fn depth_within()
    ensures { (i : Inference) → InferenceFits 0 i → depth i ≤ deepest_inference }
{}

/// Bytes that the reader goes along begin a line that is a filter. Bytes behind which it has read a filter are the text
/// of that filter. Bytes that it refuses begin no such line.
pub fn filter_led()
    ensures { (bytes : List ℕ) → r.Led (f.scan f.start bytes) bytes }
{}

/// The text of a filter within the limits is read at the end of its line. So reading what was printed gives it back.
pub fn filter_read()
    ensures { (filter : WrittenFilter) (rest : List ℕ) → FilterFits filter
        → f.scan f.start (put_filter filter (line_feed ∷ rest)) ≡ f.read filter (line_feed ∷ rest) }
{}

/// A line is that of one filter, and no filter's line is the front of a longer one.
pub fn one_filter()
    ensures { (f g : WrittenFilter) (r s : List ℕ) → FilterFits f → FilterFits g
        → put_filter f (line_feed ∷ r) ≡ put_filter g (line_feed ∷ s) → (f ≡ g) × (r ≡ s) }
{}
