//! What is said to a library before the C library that refuses one request for memory, `tools/tests/refuse_memory.c`.
//! Each is a request for more memory than there is, so without the library it changes nothing.

use std::alloc::{AllocError, Global};

const ARM: usize = 1 << 62;

const STOP: usize = 3 << 61;

const PAUSE: usize = STOP + 1;

const GO_ON: usize = STOP + 2;

const BEGIN: usize = STOP + 3;

/// In the next call that begins, the request of this number is refused, counted from 1; none if it is 0, and they are
/// counted.
pub(crate) fn arm(alloc: Global, number: u32) {
    ask(alloc, ARM + number as usize);
}

/// From here on requests count, if a number was said.
pub(crate) fn begin(alloc: Global) {
    ask(alloc, BEGIN);
}

/// From here on none counts, and the number is forgotten.
pub(crate) fn stop(alloc: Global) {
    ask(alloc, STOP);
}

/// None counts up to `go_on`. What stands for a device is then given its memory. Pauses may stand in pauses.
pub(crate) fn pause(alloc: Global) {
    ask(alloc, PAUSE);
}

/// Requests count as before the pause.
pub(crate) fn go_on(alloc: Global) {
    ask(alloc, GO_ON);
}

/// Asks for so many bytes, which are not given.
#[inline(never)]
fn ask(alloc: Global, bytes: usize) {
    let _room: Result<Vec<u8>, AllocError> = Vec::with_capacity(alloc, bytes);
}
