//! The full names of skipped variables.

ghost use Rattle.std.specs.Prelude.{◌≡◌, ◌&&◌, IfOk, bytes_eq, map};
ghost use Rattle.std.specs.List.{list_any};
ghost use Rattle.vcd_core.specs.FullName.{name_bytes};
ghost use Rattle.vcd_text.specs.Grammar.{is_skipped};
ghost use Rattle.vcd_amend.specs.DeclaredVariables.{declaration_of_variable};
ghost use Rattle.vcd_amend_run.specs.NewNames.{skipped_names};
ghost use Rattle.vcd_text.specs.AsDeclared.{declared_name};
ghost use Rattle.vcd_amend_run.specs.inside.SkippedNames.{AreHashesOf};

use crate::name_hash::name_hash;
use std::alloc::Global;
use std::collections::HashSet;
use vcd_amend::DeclaredVariable;
use vcd_core::{FullName, NoMemory};

/// The full names of the skipped variables of a file.
///
/// It has a hash of each name, so that one look tells most other names apart, and no name is built.
#[derive(Drop)]
pub struct SkippedNames<'a> {
    declared: &'a [DeclaredVariable],
    hashes: HashSet<u64>,
    ghost hashed: { AreHashesOf hashes (skipped_names (map declaration_of_variable declared.now)) },
}

impl<'a> SkippedNames<'a> {
    /// The full names of the skipped variables among these.
    pub fn new(
        alloc: Global,
        declared: &'a [DeclaredVariable],
    ) -> Result<SkippedNames<'a>, NoMemory>
        ensures { IfOk result (λ names. names.declared.now ≡ declared.now) }
    {
        let hashes = skipped_hashes(alloc, declared)?;
        Ok(SkippedNames { declared, hashes })
    }

    /// Whether a skipped variable has this name.
    pub fn contains(&self, name: FullName<'_>) -> bool
        ensures { result ≡ list_any (bytes_eq (name_bytes name.entry))
            (skipped_names (map declaration_of_variable self.now.declared.now)) }
    {
        self.hashes.contains(&name_hash(name)) && is_skipped_name(name, self.declared)
    }
}

/// The hashes of the full names of the skipped variables among these.
fn skipped_hashes(alloc: Global, declared: &[DeclaredVariable]) -> Result<HashSet<u64>, NoMemory>
    ensures { IfOk result (λ hashes.
        AreHashesOf hashes (skipped_names (map declaration_of_variable declared.now))) }
{
    let mut hashes = HashSet::new(alloc);
    for variable in declared {
        if variable.is_skipped() {
            hashes.insert(name_hash(declared_name(variable)))?;
        }
    }
    Ok(hashes)
}

/// Whether one of these variables is skipped and has this name.
fn is_skipped_name(name: FullName<'_>, declared: &[DeclaredVariable]) -> bool
    ensures { result ≡ list_any (bytes_eq (name_bytes name.entry))
        (skipped_names (map declaration_of_variable declared.now)) }
{
    declared
        .iter()
        .any(|variable| is_skipped_with_name(variable, name))
}

/// Whether a variable is skipped and has this name.
fn is_skipped_with_name(variable: &DeclaredVariable, name: FullName<'_>) -> bool
    ensures { result ≡ (is_skipped (declaration_of_variable variable.now) && bytes_eq
        (name_bytes name.entry) (declared_name (declaration_of_variable variable.now))) }
{
    variable.is_skipped() && name.has_same_bytes(declared_name(variable))
}

/// The full name of a variable.
pub fn declared_name(variable: &DeclaredVariable) -> FullName<'_>
    ensures { name_bytes result ≡ declared_name (declaration_of_variable variable.now) }
{
    FullName::of_words(variable.scopes.as_slice(), variable.words.as_slice())
}
