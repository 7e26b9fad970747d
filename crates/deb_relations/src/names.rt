//! The forms of the words of relations.

ghost use Rattle.std.specs.Prelude.{◌≡◌};
ghost use Rattle.std.specs.List.{list_all};
ghost use Rattle.deb_relations.specs.Names.{is_lower_or_digit, is_package_char, is_arch_char, begins_with_lower_or_digit, is_arch_word, is_package_name};

#[tactic(auto, unfolding(crate::specs::Names::is_lower_or_digit))]
fn is_lower_or_digit(byte: u8) -> bool
    ensures { result ≡ is_lower_or_digit byte }
{
    byte.is_ascii_lowercase() || byte.is_ascii_digit()
}

#[tactic(auto, unfolding(crate::specs::Names::is_package_char))]
pub(crate) fn is_package_char(byte: u8) -> bool
    ensures { result ≡ is_package_char byte }
{
    is_lower_or_digit(byte) || byte == b'+' || byte == b'-' || byte == b'.'
}

#[tactic(auto, unfolding(crate::specs::Names::is_arch_char))]
pub(crate) fn is_arch_char(byte: u8) -> bool
    ensures { result ≡ is_arch_char byte }
{
    is_lower_or_digit(byte) || byte == b'-'
}

fn begins_with_lower_or_digit(text: &str) -> bool
    ensures { result ≡ begins_with_lower_or_digit text.now }
{
    match text.as_bytes() {
        [] => false,
        [first, ..] => is_lower_or_digit(*first),
    }
}

// Whether all characters of a text may stand in the name of a package.
fn has_package_chars(text: &str) -> bool
    ensures { result ≡ list_all is_package_char text.now }
{
    text.bytes().all(|c| is_package_char(c))
}

// Whether all characters of a text may stand in an architecture word.
fn has_arch_chars(text: &str) -> bool
    ensures { result ≡ list_all is_arch_char text.now }
{
    text.bytes().all(|c| is_arch_char(c))
}

/// Whether a text is an architecture word: lower-case letters, digits and `-`, of which the first is a letter
/// or a digit. It takes no memory.
/// Source: Debian Policy 11.1.1; the form is this project's own.
#[tactic(auto, unfolding(crate::specs::Names::is_arch_word))]
pub fn is_arch_word(text: &str) -> bool
    ensures value { result ≡ is_arch_word text.now }
{
    begins_with_lower_or_digit(text) && has_arch_chars(text)
}

/// Whether a text is the name of a package: 2 to 200 bytes, lower-case letters, digits, `+`, `-` and `.`, of
/// which the first is a letter or a digit. It takes no memory.
/// Source: Debian Policy 5.6.1; the upper limit is this project's own.
#[tactic(auto, unfolding(crate::specs::Names::is_package_name))]
pub fn is_package_name(text: &str) -> bool
    ensures value { result ≡ is_package_name text.now }
{
    begins_with_lower_or_digit(text)
        && has_package_chars(text)
        && 1 < text.len()
        && text.len() < 201
}
