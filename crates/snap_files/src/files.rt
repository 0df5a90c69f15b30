//! A file that is opened by the first call that needs it.
use std::fs::OpenOptions;
use std::io;
use std::rt::Files;

/// A file that is opened where it is first asked for. Where that fails, the next time tries again.
#[derive(Drop)]
pub(crate) struct LateFile<'a, R: Files> {
    rt: &'a R,
    path: String,
    how: OpenOptions,
    opened: Option<R::File>,
}

impl<'a, R: Files> LateFile<'a, R> {
    pub(crate) fn new(rt: &'a R, path: String, how: OpenOptions) -> Self {
        LateFile {
            rt,
            path,
            how,
            opened: None,
        }
    }

    pub(crate) fn get(&mut self) -> io::Result<&mut R::File> {
        let file = match self.opened.take() {
            Some(file) => file,
            None => self.how.open(self.rt, self.path.as_str())?,
        };
        Ok(self.opened.insert(file))
    }
}
