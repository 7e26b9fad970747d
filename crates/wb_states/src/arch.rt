//! The words of an architecture.
use deb_text::Text;

/// The words of an architecture's operating system and processor, such as `linux` and `amd64`
/// (Debian Policy 11.1.1): each 1 to 20 lower-case letters and digits, and not `any`.
#[derive(Clone, Debug, Drop)]
pub struct OsCpu {
    /// The operating system.
    pub os: Text,
    /// The processor.
    pub cpu: Text,
}
