//! The texts of moniker keys, by which dumps are joined. Each part comes after its length, so that
//! equal keys have equal texts, and no others do. `specs/KeyTexts`.
ghost use Rattle.std.specs.Prelude.{◌≡◌, ◌++◌, IfOk, OnOk, string_bytes, option_map};
ghost use Rattle.lsif.specs.Element.{moniker_value, package_value};
ghost use Rattle.dump.specs.Monikers.{MonikerKey};
ghost use Rattle.flatten.specs.KeyTexts.{counted, package_text, key_text, moniker_key};

use crate::fault::FlattenFault;
use lsif::{Moniker, Package};
use std::alloc::{AllocError, Global};
use std::fmt::Write;

/// Adds the number of bytes of a text, a colon and the text.
fn push_counted(text: &mut String, part: &str) -> Result<(), AllocError>
    ensures { OnOk result (string_bytes text.new ≡ string_bytes text.old ++ counted part.now) }
{
    write!(text, "{}:{}", part.len(), part)
}

/// Adds `0` where there is no package, and else `1` and the package.
fn push_package(text: &mut String, package: Option<&Package>) -> Result<(), AllocError>
    ensures { OnOk result (string_bytes text.new ≡ string_bytes text.old ++ package_text (option_map (λ p. package_value p.now) «package».entry)) }
{
    match package {
        Some(package) => {
            text.push_str("1")?;
            push_counted(text, package.manager.as_str())?;
            push_counted(text, package.name.as_str())?;
            push_counted(text, package.version.as_str())
        }
        None => text.push_str("0"),
    }
}

/// The text of the key of a moniker that has this package: its scheme and its identifier, each
/// after the number of its bytes and a colon. Then `0` where there is no package; else `1` and the
/// package's manager, name and version in the same way.
pub fn key_text(
    alloc: Global,
    moniker: &Moniker,
    package: Option<&Package>,
) -> Result<String, FlattenFault>
    ensures { IfOk result (λ text. string_bytes text ≡ key_text (moniker_key (moniker_value moniker.now)
        (option_map (λ p. package_value p.now) «package».entry))) }
{
    let mut text = String::new(alloc);
    push_counted(&mut text, moniker.scheme.as_str())?;
    push_counted(&mut text, moniker.identifier.as_str())?;
    push_package(&mut text, package)?;
    Ok(text)
}

/// Keys with equal texts are equal, so that texts can be compared in place of keys.
pub fn key_law()
    ensures { (a b : MonikerKey) → key_text a ≡ key_text b → a ≡ b }
{}
