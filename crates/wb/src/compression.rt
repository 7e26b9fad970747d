//! By which program a file was compressed.

/// The name of the program that compressed a file which begins with these bytes, if one did. Each
/// begins as the program's own format says: xz, section 2.1.1.1; gzip, RFC 1952, section 2.3.1;
/// bzip2, whose first block follows at once; and zstd, RFC 8878, section 3.1.1.
pub(crate) fn compressor_of(bytes: &[u8]) -> Option<&'static str> {
    match bytes {
        [0xfd, b'7', b'z', b'X', b'Z', 0, ..] => Some("xz"),
        [0x1f, 0x8b, ..] => Some("gzip"),
        [
            b'B',
            b'Z',
            b'h',
            b'1'..=b'9',
            b'1',
            b'A',
            b'Y',
            b'&',
            b'S',
            b'Y',
            ..
        ] => Some("bzip2"),
        [0x28, 0xb5, 0x2f, 0xfd, ..] => Some("zstd"),
        _ => None,
    }
}
