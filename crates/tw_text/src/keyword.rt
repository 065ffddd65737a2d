//! The first words of lines.

ghost use Rattle.std.specs.List.{find, list_any};
ghost use Rattle.std.specs.Prelude.{◌≡◌, ◌==◌, bytes_eq, length, map};
ghost use Rattle.tw_text.specs.Statements.{keyword_of, takes, takes_words, word_of};

/// What a line from the second on begins with, and what follows it. A link has one delay in version 1
/// of the text, and two in version 2.
#[derive(Clone, Copy)]
pub(crate) enum Keyword {
    Nodes,
    Link,
    TwoWayLink,
    Path,
    Fail,
    Restore,
    Swap,
    Forbid,
    Allow,
    End,
}

/// The keywords of version 1.
const FIRST_KEYWORDS: [Keyword; 7] = [
    Keyword::Nodes,
    Keyword::Link,
    Keyword::Path,
    Keyword::Fail,
    Keyword::Restore,
    Keyword::Swap,
    Keyword::End,
];

/// The keywords of version 2.
const SECOND_KEYWORDS: [Keyword; 9] = [
    Keyword::Nodes,
    Keyword::TwoWayLink,
    Keyword::Path,
    Keyword::Fail,
    Keyword::Restore,
    Keyword::Swap,
    Keyword::Forbid,
    Keyword::Allow,
    Keyword::End,
];

impl Keyword {
    /// The keyword that a word is in a version of the text, if it is one.
    pub(crate) fn from_word(version: u32, word: &[u8]) -> Option<Keyword>
        ensures { result ≡ keyword_of version word.now }
    {
        if version == 1 {
            find_keyword(&FIRST_KEYWORDS, word)
        } else {
            find_keyword(&SECOND_KEYWORDS, word)
        }
    }

    /// The word of the keyword.
    fn word(self) -> &'static [u8]
        ensures { result.now ≡ word_of self }
    {
        match self {
            Keyword::Nodes => b"nodes",
            Keyword::Link | Keyword::TwoWayLink => b"link",
            Keyword::Path => b"path",
            Keyword::Fail => b"fail",
            Keyword::Restore => b"restore",
            Keyword::Swap => b"swap",
            Keyword::Forbid => b"forbid",
            Keyword::Allow => b"allow",
            Keyword::End => b"end",
        }
    }

    /// Whether these words may follow the keyword on its line, whatever numbers they are.
    pub(crate) fn takes_words(self, words: &[&[u8]]) -> bool
        ensures { result ≡ takes_words self (map (λ w. w.now) words.now) }
    {
        self.takes(words.len()) && !has_empty(words)
    }

    /// Whether so many words may follow the keyword on its line.
    fn takes(self, count: usize) -> bool
        ensures { result ≡ takes self count }
    {
        match self {
            Keyword::Nodes => count == 1,
            Keyword::Link | Keyword::Fail | Keyword::Restore | Keyword::Forbid | Keyword::Allow =>
                count == 3,
            Keyword::Path => count >= 2,
            Keyword::TwoWayLink | Keyword::Swap => count == 4,
            Keyword::End => count == 0,
        }
    }
}

/// The keyword among these that a word is, if it is one.
fn find_keyword(keywords: &[Keyword], word: &[u8]) -> Option<Keyword>
    ensures { result ≡ find (λ k. bytes_eq word.now (word_of k)) keywords.now }
{
    keywords
        .iter()
        .copied()
        .find(|keyword| word == keyword.word())
}

/// Whether one of the words is empty.
fn has_empty(words: &[&[u8]]) -> bool
    ensures { result ≡ list_any (λ w. length w.now == 0) words.now }
{
    words.iter().any(|word| word.is_empty())
}
