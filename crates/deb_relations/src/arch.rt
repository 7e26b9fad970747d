//! The words of an architecture, and which architecture words match it.

ghost use Rattle.std.specs.Prelude.{◌≡◌, ◌++◌, ◌||◌, true, bytes_eq, IfOk, OnErr};
ghost use Rattle.deb_text.specs.Lists.{is_nonempty};
ghost use Rattle.deb_relations.specs.Arch.{arch_matches};

use deb_text::Text;
use std::alloc::{AllocError, Global};

/// An architecture: its name, and the words of its operating system and of its processor in a wildcard.
/// Source: Debian Policy 11.1.1.
#[derive(Debug, Drop)]
pub struct ArchWords {
    /// The name, as `amd64`.
    pub name: Text,
    /// The operating system's word, as `linux`.
    pub os: Text,
    /// The processor's word, as `amd64`.
    pub cpu: Text,
}

impl ArchWords {
    /// Keeps copies of the three words, whatever their form. The only error is that
    /// memory ran out; empty words take none.
    /// Source: Debian Policy 11.1.1.
    pub fn new(alloc: Global, name: &str, os: &str, cpu: &str) -> Result<ArchWords, AllocError>
        ensures value { IfOk result (λ a.
            a ≡ record { name = name.now; os = os.now; cpu = cpu.now }) }
        ensures memory { OnErr result
            ((is_nonempty name.now || (is_nonempty os.now || is_nonempty cpu.now)) ≡ true) }
    {
        Ok(ArchWords {
            name: Text::copied(alloc, name)?,
            os: Text::copied(alloc, os)?,
            cpu: Text::copied(alloc, cpu)?,
        })
    }
}

// Whether a word is a front followed by a back.
fn is_joined(word: &str, front: &str, back: &str) -> bool
    ensures { result ≡ bytes_eq word.now (front.now ++ back.now) }
{
    match word.as_bytes().strip_prefix(front.as_bytes()) {
        Some(rest) => rest == back.as_bytes(),
        None => false,
    }
}

/// Whether an architecture word matches the architecture: its name, `any`, `any-any`, its operating
/// system before `-any`, or its processor after `any-`. Nothing else matches. It takes no memory.
/// Source: Debian Policy 11.1.1; that `any-any` matches is this project's own.
#[tactic(auto, unfolding(crate::specs::Arch::arch_matches))]
pub fn arch_matches(word: &str, arch: &ArchWords) -> bool
    ensures { result ≡ arch_matches word.now arch.now }
{
    word == arch.name.as_str()
        || word == "any"
        || word == "any-any"
        || is_joined(word, arch.os.as_str(), "-any")
        || is_joined(word, "any-", arch.cpu.as_str())
}
