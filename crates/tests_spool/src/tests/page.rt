//! A page that is written on, and read meanwhile.
use std::cell::RefCell;
use std::io::{self, ErrorKind, Write};

/// A page that a test reads while it is written on.
#[derive(Clone, Copy)]
pub(super) struct Page<'a> {
    text: &'a RefCell<Vec<u8>>,
}

impl<'a> Page<'a> {
    /// The page of this text.
    pub(super) fn new(text: &'a RefCell<Vec<u8>>) -> Page<'a> {
        Page { text }
    }

    /// Whether just this is on it.
    pub(super) fn shows(&self, text: &[u8]) -> bool {
        match self.text.try_borrow() {
            Ok(written) => written.as_slice() == text,
            Err(_) => false,
        }
    }

    /// Whether this is on it, among others.
    pub(super) fn has(&self, text: &[u8]) -> bool {
        let Ok(written) = self.text.try_borrow() else {
            return false;
        };
        for begin in 0..written.len() {
            if written
                .get(begin..)
                .is_some_and(|rest| rest.starts_with(text))
            {
                return true;
            }
        }
        false
    }

    /// Whether this is at its end.
    pub(super) fn ends_with(&self, text: &[u8]) -> bool {
        match self.text.try_borrow() {
            Ok(written) => written.ends_with(text),
            Err(_) => false,
        }
    }

    /// Takes away what is on it.
    pub(super) fn clear(&self) {
        if let Ok(mut written) = self.text.try_borrow_mut() {
            written.clear();
        }
    }
}

impl Write for Page<'_> {
    fn write(&mut self, buf: &[u8]) -> io::Result<usize> {
        match self.text.try_borrow_mut() {
            Ok(mut written) => {
                written.extend_from_slice(buf)?;
                Ok(buf.len())
            }
            Err(_) => Err(io::Error::from(ErrorKind::ResourceBusy)),
        }
    }

    fn flush(&mut self) -> io::Result<()> {
        Ok(())
    }
}
