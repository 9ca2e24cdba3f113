/// The byte between two words of a line.
pub const SPACE: u8 = b' ';

/// The byte that ends a line.
pub const LINE_FEED: u8 = b'\n';

/// The byte that may come before a request's line feed, and is then part of the line's end.
pub const CARRIAGE_RETURN: u8 = b'\r';
