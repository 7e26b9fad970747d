//! How the subcommands are used.

/// How many words an argument takes, and how they are given.
#[derive(Clone, Copy, Debug, PartialEq, Eq)]
pub enum ArgumentKind {
    /// One word, which is required.
    Word,
    /// One word after the option of the argument's name: `--name WORD` or `--name=WORD`, at most
    /// once. It may be left out.
    NamedWord,
    /// One word or more, as the last argument.
    SomeWords,
    /// Any number of words, as the last argument.
    AnyWords,
}
