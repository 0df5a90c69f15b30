//! Lines of a text, and what of a text lies ahead.

/// A line of a text and its number, from 1 on.
#[derive(Clone, Copy)]
pub(crate) struct Line<'a> {
    pub(crate) number: u32,
    pub(crate) bytes: &'a [u8],
}

/// What of a text lies ahead, from the beginning of a line on, and that line's number.
#[derive(Clone, Copy)]
pub(crate) struct Cursor<'a> {
    pub(crate) rest: &'a [u8],
    pub(crate) line: u32,
}
