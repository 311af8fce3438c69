//! The hidden names of files that are taken over.
ghost use Rattle.std.specs.Prelude.{IfOk, IfSome, string_bytes};
ghost use Rattle.rje_folder.specs.TakenName.{IsTakenName};

use std::alloc::Global;
use std::io;

/// The hidden name of this number, under which a file of this name in out/ is taken over.
pub(crate) fn taken_name(alloc: Global, name: &str, number: u32) -> io::Result<String>
    ensures { IfOk result (λ hidden. IsTakenName name.now (string_bytes hidden)) }
{
    Ok(format!(in alloc; ".{name}.taken-{number}")?)
}

/// The name that a file had which is taken over under this one, where it is such a name.
pub(crate) fn name_before<'a>(alloc: Global, hidden: &'a str) -> io::Result<Option<&'a str>>
    ensures { IfOk result (λ name. IfSome name (λ name. IsTakenName name.now hidden.now)) }
{
    let Some((name, number)) = parts_of(hidden) else {
        return Ok(None);
    };
    let again = taken_name(alloc, name, number)?;
    if hidden == again.as_str() {
        Ok(Some(name))
    } else {
        Ok(None)
    }
}

/// What is in such a hidden name, and its number.
fn parts_of(hidden: &str) -> Option<(&str, u32)> {
    let (name, number) = hidden.strip_prefix(".")?.rsplit_once(".taken-")?;
    match name {
        // (no file in out/ has such a name)
        "" | "." | ".." => None,
        _ => Some((name, number.parse::<u32>().ok()?)),
    }
}
