//! The words that lines of a script begin with, and the fields after each.
//!
//! 1. One table of words and fields: what a line has to have is read from it, and nowhere said again.

ghost use Rattle.std.specs.Prelude.{◌≡◌};
ghost use Rattle.std.specs.Str.{bytes_eq};
ghost use Rattle.script_lang.specs.Words.{word_text, kinds_of, is_needed, is_begin, word_of, WordsAreRead};

/// The first field of a line, which says what the line does.
#[derive(Clone, Copy, Debug, PartialEq, Eq)]
pub(crate) enum Word {
    Begin,
    Commit,
    Abort,
    Vertex,
    Unvertex,
    Edge,
    Set,
    Drop,
    Weight,
    Neighbours,
    Count,
    Bfs,
    Wcc,
    Cdlp,
    Sssp,
    FastBfs,
    FastSssp,
}

/// What a field after the word says.
#[derive(Clone, Copy, Debug, PartialEq, Eq)]
pub(crate) enum FieldKind {
    /// A vertex, the source of an edge, or the root of a search.
    Vertex,
    /// The target of an edge.
    Target,
    /// What an edge weighs.
    Weight,
    /// A weight that may be missing, and then is 1. Only the last field of a line is of this kind.
    OptionalWeight,
    /// How many rounds there are.
    Rounds,
    /// How wide the buckets of a search are.
    Width,
    /// What the result is called.
    File,
}

/// All words.
pub(crate) const WORDS: [Word; 17] = [
    Word::Begin,
    Word::Commit,
    Word::Abort,
    Word::Vertex,
    Word::Unvertex,
    Word::Edge,
    Word::Set,
    Word::Drop,
    Word::Weight,
    Word::Neighbours,
    Word::Count,
    Word::Bfs,
    Word::Wcc,
    Word::Cdlp,
    Word::Sssp,
    Word::FastBfs,
    Word::FastSssp,
];

/// The word that a field is, if it is one.
pub(crate) fn word_of(field: &[u8]) -> Option<Word>
    ensures { result ≡ word_of field.now }
{
    // One after the other: seventeen short words are compared sooner than a map is asked.
    WORDS.iter().copied().find(|word| word.is(field))
}

impl Word {
    /// The word as a script has it.
    fn text(self) -> &'static [u8]
        ensures { result.now ≡ word_text self }
    {
        match self {
            Word::Begin => b"begin",
            Word::Commit => b"commit",
            Word::Abort => b"abort",
            Word::Vertex => b"vertex",
            Word::Unvertex => b"unvertex",
            Word::Edge => b"edge",
            Word::Set => b"set",
            Word::Drop => b"drop",
            Word::Weight => b"weight",
            Word::Neighbours => b"neighbours",
            Word::Count => b"count",
            Word::Bfs => b"bfs",
            Word::Wcc => b"wcc",
            Word::Cdlp => b"cdlp",
            Word::Sssp => b"sssp",
            Word::FastBfs => b"fastbfs",
            Word::FastSssp => b"fastsssp",
        }
    }

    /// The fields after the word, from left to right.
    pub(crate) fn kinds(self) -> &'static [FieldKind]
        ensures { result.now ≡ kinds_of self }
    {
        match self {
            Word::Begin => &[],
            Word::Commit => &[],
            Word::Abort => &[],
            Word::Vertex => &[FieldKind::Vertex],
            Word::Unvertex => &[FieldKind::Vertex],
            Word::Edge => &[
                FieldKind::Vertex,
                FieldKind::Target,
                FieldKind::OptionalWeight,
            ],
            Word::Set => &[FieldKind::Vertex, FieldKind::Target, FieldKind::Weight],
            Word::Drop => &[FieldKind::Vertex, FieldKind::Target],
            Word::Weight => &[FieldKind::Vertex, FieldKind::Target],
            Word::Neighbours => &[FieldKind::Vertex],
            Word::Count => &[],
            Word::Bfs => &[FieldKind::Vertex, FieldKind::File],
            Word::Wcc => &[FieldKind::File],
            Word::Cdlp => &[FieldKind::Rounds, FieldKind::File],
            Word::Sssp => &[FieldKind::Vertex, FieldKind::File],
            Word::FastBfs => &[FieldKind::Vertex, FieldKind::File],
            Word::FastSssp => &[FieldKind::Vertex, FieldKind::Width, FieldKind::File],
        }
    }

    fn is(self, field: &[u8]) -> bool
        ensures { result ≡ bytes_eq (word_text self) field.now }
    {
        self.text() == field
    }

    pub(crate) fn is_begin(self) -> bool
        ensures { result ≡ is_begin self }
    {
        match self {
            Word::Begin => true,
            _ => false,
        }
    }
}

impl FieldKind {
    /// Whether a line has to have the field.
    pub(crate) fn is_needed(self) -> bool
        ensures { result ≡ is_needed self }
    {
        match self {
            FieldKind::OptionalWeight => false,
            _ => true,
        }
    }
}

/// Each word is read from its own text.
pub fn words_are_read()
    ensures { WordsAreRead }
{}
