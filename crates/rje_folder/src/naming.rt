//! Which names a file of a name may have got.
ghost use Rattle.std.specs.Prelude.{◌≡◌, true, IfOk};
ghost use Rattle.rje_folder.specs.FileNames.{IsNamedAfter};

use crate::file_names::{FileNames, ending_of};
use std::alloc::Global;
use std::io;

/// Whether a path is another one, or that one with a number, before its ending or at its end.
pub fn is_named_after(alloc: Global, first: &str, path: &str) -> io::Result<bool>
    ensures { IfOk result (λ is. is ≡ true → IsNamedAfter first.now path.now) }
{
    if path == first {
        return Ok(true);
    }
    if let Some(number) = number_before(path, ending_of(first)) {
        let numbered = FileNames::Of(first).name(alloc, number)?;
        if path == numbered.as_str() {
            return Ok(true);
        }
    }
    is_numbered_at_end(alloc, first, path)
}

/// Whether a path is another one with a number at its end.
fn is_numbered_at_end(alloc: Global, first: &str, path: &str) -> io::Result<bool>
    ensures { IfOk result (λ is. is ≡ true → IsNamedAfter first.now path.now) }
{
    let Some(number) = number_before(path, "") else {
        return Ok(false);
    };
    let numbered = format!(in alloc; "{first}.{number}")?;
    Ok(path == numbered.as_str())
}

/// Whether a name may be one that a file of another name has got: it begins alike, and is the same or has a number.
pub(crate) fn may_be_named_after(name: &str, other: &str) -> bool {
    name == other
        || name.as_bytes().first() == other.as_bytes().first()
            && (number_before(other, ending_of(name)).is_some()
                || number_before(other, "").is_some())
}

/// The names from which a name may have been made by a number in it: its own, and those without the number before its ending or at its end.
pub(crate) fn names_before(alloc: Global, name: &str) -> io::Result<Vec<String>> {
    let mut names = Vec::new(alloc);
    names.push(String::from_str(alloc, name)?)?;
    if let Some((stem, number)) = name.rsplit_once('.') {
        if number.parse::<u32>().is_ok() {
            names.push(String::from_str(alloc, stem)?)?;
        }
    }
    let ending = ending_of(name);
    if let Some((stem, number)) = parts_before(name, ending) {
        if number.parse::<u32>().is_ok() {
            names.push(format!(in alloc; "{stem}{ending}")?)?;
        }
    }
    Ok(names)
}

/// The number in a path before this ending, after a dot.
fn number_before(path: &str, ending: &str) -> Option<u32> {
    let (_, number) = parts_before(path, ending)?;
    number.parse::<u32>().ok()
}

/// What is in a path before this ending, before the last dot there and after it.
fn parts_before<'a>(path: &'a str, ending: &str) -> Option<(&'a str, &'a str)> {
    path.strip_suffix(ending)?.rsplit_once('.')
}
