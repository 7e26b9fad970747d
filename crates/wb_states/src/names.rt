//! The forms of names.
ghost use Rattle.std.specs.Prelude.{◌≡◌};
ghost use Rattle.std.specs.Char.{is_ascii_alphanumeric, is_ascii_graphic};
ghost use Rattle.std.specs.List.{list_all};
ghost use Rattle.deb_relations.specs.Names.{is_lower_or_digit, is_arch_word, is_package_name};
ghost use Rattle.deb_text.specs.Lists.{begins};
ghost use Rattle.wb_states.specs.Names.{is_arch_name, is_os_cpu_word, is_builder_name, is_label_text, has_length, is_builder_char};

use deb_relations::{is_arch_word, is_package_name};

/// Whether `text` is the name of a source package: 2 to 200 bytes, lower-case letters, digits, `+`,
/// `-` and `.`, of which the first is a letter or a digit (Debian Policy 5.6.1; the upper limit is
/// this project's own). Takes no memory.
pub fn is_source(text: &str) -> bool
    ensures value { result ≡ is_package_name text.now }
{
    is_package_name(text)
}

/// Whether `text` is the name of an architecture: 1 to 40 bytes, lower-case letters, digits and
/// `-`, of which the first is a letter or a digit, and not `all`, `any` or `source` (this project's
/// own). Takes no memory.
#[tactic(auto, unfolding(crate::specs::Names::is_arch_name))]
pub fn is_arch(text: &str) -> bool
    ensures value { result ≡ is_arch_name text.now }
{
    is_long_between(text, 1, 40)
        && is_arch_word(text)
        && !(text == "all" || text == "any" || text == "source")
}

/// Whether `text` is the word of an operating system or a processor: 1 to 20 lower-case letters and
/// digits, and not `any` (this project's own). Takes no memory.
#[tactic(auto, unfolding(crate::specs::Names::is_os_cpu_word))]
pub fn is_os_cpu(text: &str) -> bool
    ensures value { result ≡ is_os_cpu_word text.now }
{
    is_long_between(text, 1, 20) && is_all_lower_or_digit(text) && !(text == "any")
}

/// Whether `text` is the name of a builder: 1 to 64 bytes, letters, digits, `.`, `_` and `-`, of
/// which the first is a letter or a digit (this project's own). Takes no memory.
#[tactic(auto, unfolding(crate::specs::Names::is_builder_name))]
pub fn is_builder(text: &str) -> bool
    ensures value { result ≡ is_builder_name text.now }
{
    is_long_between(text, 1, 64) && begins_with_letter_or_digit(text) && is_all_builder(text)
}

/// Whether `text` is a priority or a section: 1 to 64 bytes from `!` to `~` (Debian Policy 2.5 and
/// 2.4; the form is this project's own). Takes no memory.
#[tactic(auto, unfolding(crate::specs::Names::is_label_text))]
pub fn is_label(text: &str) -> bool
    ensures value { result ≡ is_label_text text.now }
{
    is_long_between(text, 1, 64) && is_all_visible(text)
}

fn is_long_between(text: &str, least: usize, most: usize) -> bool
    ensures { result ≡ has_length least most text.now }
{
    least <= text.len() && text.len() <= most
}

#[tactic(auto, unfolding(deb_relations::specs::Names::is_lower_or_digit))]
fn is_lower_or_digit(c: u8) -> bool
    ensures { result ≡ is_lower_or_digit c }
{
    c.is_ascii_lowercase() || c.is_ascii_digit()
}

fn begins_with_letter_or_digit(text: &str) -> bool
    ensures { result ≡ begins is_ascii_alphanumeric text.now }
{
    match text.as_bytes() {
        [] => false,
        [first, ..] => first.is_ascii_alphanumeric(),
    }
}

fn is_all_lower_or_digit(text: &str) -> bool
    ensures { result ≡ list_all is_lower_or_digit text.now }
{
    text.bytes().all(|c| is_lower_or_digit(c))
}

fn is_all_builder(text: &str) -> bool
    ensures { result ≡ list_all is_builder_char text.now }
{
    text.bytes().all(|c| c.is_ascii_alphanumeric() || c == b'.' || c == b'_' || c == b'-')
}

fn is_all_visible(text: &str) -> bool
    ensures { result ≡ list_all is_ascii_graphic text.now }
{
    text.bytes().all(|c| c.is_ascii_graphic())
}
