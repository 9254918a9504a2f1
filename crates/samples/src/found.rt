//! What must be there. An `ok_or(..)?` is proved at each place where it's used, which takes seconds
//! each time; a call of one of these isn't.
ghost use Rattle.std.specs.Prelude.{◌≡◌, IfOk, Some};

use std::test::Fail;

/// What is found, which must be there.
pub fn there<T>(found: Option<T>, what: &str) -> Result<T, Fail>
    ensures { IfOk result (λ it. found ≡ Some it) }
{
    match found {
        Some(found) => Ok(found),
        None => Err(Fail::from(what)),
    }
}

/// The text before and after this mark, which must be in it.
pub fn parted<'a>(text: &'a str, mark: &str) -> Result<(&'a str, &'a str), Fail> {
    there(text.split_once(mark), "a row isn't parted")
}
