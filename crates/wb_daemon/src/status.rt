//! The exit statuses of a line and of a run (this project's own): a run has the greatest of its lines.

/// The office accepted the line's command or answered its query, or the line is blank.
pub const ACCEPTED: u8 = 0;

/// The office refused the line's command or query.
pub const REFUSED: u8 = 1;

/// The line is no command, or the program's own words are none.
pub const LINE_FAULT: u8 = 2;

/// A list that the line names cannot be opened, or its report cannot be read.
pub const FILE_FAULT: u8 = 3;

/// The run stopped before its input ended.
pub const STOPPED: u8 = 3;
