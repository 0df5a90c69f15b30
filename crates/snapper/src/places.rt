//! Keeps the places of standard streams that were closed from the files that are opened later.
use std::fs::OpenOptions;
use std::rt::Files;

/// Files that only keep their places among the program's open files.
#[derive(Drop)]
pub(crate) struct Places<F> {
    _first: Option<F>,
    _second: Option<F>,
    _third: Option<F>,
}

/// Takes the places of standard streams that were closed, so that no file that is opened later gets one of them:
/// else what is meant for the standard output would be written into a log. What is opened in their place is a
/// folder, from which every read and to which every write is a fault.
pub(crate) fn hold_places<R: Files>(rt: &R) -> Places<R::File> {
    let mut how = OpenOptions::new();
    how.read(true);
    Places {
        _first: how.open(rt, "/").ok(),
        _second: how.open(rt, "/").ok(),
        _third: how.open(rt, "/").ok(),
    }
}
