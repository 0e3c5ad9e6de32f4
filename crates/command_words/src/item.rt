//! What words are.

/// What one word is, or an option and the word that is its value.
#[derive(Clone, Copy, PartialEq, Eq, Debug)]
pub enum Item<'a> {
    /// An option without a value, its dashes included.
    Flag(&'a str),
    /// An option, its dashes included, and its value, which may be empty.
    Valued(&'a str, &'a str),
    /// Any other word.
    Name(&'a str),
}
