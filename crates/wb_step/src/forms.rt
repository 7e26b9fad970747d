//! The forms of the names in commands, and whether a merge names an architecture twice.
ghost use Rattle.std.specs.Prelude.{◌≡◌, bytes_eq};
ghost use Rattle.std.specs.List.{list_any};
ghost use Rattle.wb_step.specs.Checks.{has_bad_arch, has_bad_builder, has_bad_entry, has_bad_part, has_bad_request, has_bad_take, has_repeated_arch};
ghost use Rattle.wb_states.specs.Names.{has_bad_key};

use deb_text::Text;
use wb_states::command::Part;
use wb_states::{is_arch, is_builder, is_label, is_os_cpu, is_source};

/// Whether a name in a command that adds an architecture is malformed.
pub(crate) fn has_bad_arch(name: &Text, os: &Text, cpu: &Text) -> bool
    ensures value { result ≡ has_bad_arch name.now os.now cpu.now }
{
    !(is_arch(name.as_str()) && (is_os_cpu(os.as_str()) && is_os_cpu(cpu.as_str())))
}

/// Whether a name in a command that lets a builder build for an architecture is malformed.
pub(crate) fn has_bad_builder(name: &Text, arch: &Text) -> bool
    ensures value { result ≡ has_bad_builder name.now arch.now }
{
    !(is_builder(name.as_str()) && is_arch(arch.as_str()))
}

/// Whether a name, the priority or the section of a source package that is entered is malformed.
pub(crate) fn has_bad_entry(arch: &Text, source: &Text, priority: &Text, section: &Text) -> bool
    ensures value { result ≡ has_bad_entry arch.now source.now priority.now section.now }
{
    !(is_arch(arch.as_str())
        && (is_source(source.as_str())
            && (is_label(priority.as_str()) && is_label(section.as_str()))))
}

/// Whether a name in a builder's command for the head of a queue is malformed.
pub(crate) fn has_bad_request(arch: &Text, builder: &Text) -> bool
    ensures value { result ≡ has_bad_request arch.now builder.now }
{
    !(is_arch(arch.as_str()) && is_builder(builder.as_str()))
}

/// Whether a name in a builder's command for a source package is malformed.
pub(crate) fn has_bad_take(arch: &Text, builder: &Text, source: &Text) -> bool
    ensures value { result ≡ has_bad_take arch.now builder.now source.now }
{
    !(is_arch(arch.as_str()) && (is_builder(builder.as_str()) && is_source(source.as_str())))
}

/// Whether the architecture or the source package that a command names is malformed.
pub(crate) fn has_bad_key(arch: &Text, source: &Text) -> bool
    ensures value { result ≡ has_bad_key arch.now source.now }
{
    !(is_arch(arch.as_str()) && is_source(source.as_str()))
}

/// Whether the name of the architecture of a merge's part is malformed.
pub(crate) fn has_bad_part(parts: &[Part]) -> bool
    ensures { result ≡ has_bad_part parts.now }
{
    parts.iter().any(|part| !is_arch(part.arch.as_str()))
}

/// Whether one of the parts is for the architecture.
fn is_part_for(parts: &[Part], arch: &Text) -> bool
    ensures { result ≡ list_any (λ other. bytes_eq arch.now other.arch) parts.now }
{
    parts.iter().any(|part| arch == &part.arch)
}

/// Whether two parts of a merge are for one architecture.
pub(crate) fn repeats_arch(parts: &[Part]) -> bool
    ensures { result ≡ has_repeated_arch parts.now }
{
    for place in 0..parts.len() {
        if is_part_for(&parts[place + 1..], &parts[place].arch) {
            return true;
        }
    }
    false
}
