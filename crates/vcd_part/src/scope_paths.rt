//! The scopes of variables, and which of them have none that is kept.

ghost use Rattle.std.specs.Prelude.{◌≡◌, ◌++◌, ◌∷◌, ◌||◌, [], ℕ, List, OnOk, filter, not, bytes_eq};
ghost use Rattle.std.specs.Prelude.{if◌then◌else◌};
ghost use Rattle.std.specs.List.{concat, flat_map};
ghost use Rattle.vcd_core.specs.Names.{scope_text};
ghost use Rattle.vcd_text.specs.Grammar.{VariableDeclaration};
ghost use Rattle.vcd_part.specs.declared.request.Request.{Request};
ghost use Rattle.vcd_part.specs.Requests.{keeps};
ghost use Rattle.vcd_part.specs.WrittenPart as spec;
ghost use Rattle.vcd_part.specs.inside.ScopePaths.{AreScopes};
ghost use Rattle.vcd_part.specs.inside.ScopePaths as inside;

use indexmap::IndexSet;
use std::alloc::Global;
use vcd_core::{NoMemory, ScopeName, Seq, Word, copy_word};

/// A set of the paths of scopes.
pub type PathSet = IndexSet<Vec<u8>>;

/// The scopes of the variables so far, by their paths.
#[derive(Drop)]
pub struct ScopePaths {
    pub alloc: Global,
    /// Those of variables that are kept.
    pub kept: PathSet,
    /// Those of variables that are left out.
    pub left_out: PathSet,
    /// The same, each once, in the order of the file.
    pub names: Vec<Word>,
    /// Room for a path.
    pub path: Vec<u8>,
}

impl ScopePaths {
    /// Before the first variable.
    pub fn new(alloc: Global) -> ScopePaths
        ensures { (r : Request) → AreScopes result r [] }
    {
        ScopePaths {
            alloc,
            kept: IndexSet::new(alloc),
            left_out: IndexSet::new(alloc),
            names: Vec::new(alloc),
            path: Vec::new(alloc),
        }
    }

    /// Notes the scopes of one more variable, which is kept or left out. It takes memory for a path
    /// that is new.
    pub fn note(&mut self, scopes: &[ScopeName], is_kept: bool) -> Result<(), NoMemory>
        ensures { OnOk result (
            (r : Request) (declared : List VariableDeclaration) (d : VariableDeclaration) →
            AreScopes self.old r declared → d.scopes ≡ scopes.now → is_kept ≡ keeps r d →
            AreScopes self.new r (declared ++ d ∷ [])) }
    {
        if scopes.is_empty() {
            return Ok(());
        }
        read_path(&mut self.path, scopes)?;
        let path = self.path.as_slice();
        if is_kept {
            return add_path(&mut self.kept, self.alloc, path);
        }
        add_name(&mut self.left_out, &mut self.names, self.alloc, path)
    }

    /// The scopes of variables that are left out, in which none is kept.
    pub fn emptied(self) -> Seq<Word>
        ensures { (r : Request) (declared : List VariableDeclaration) → AreScopes self r declared →
            result ≡ spec.emptied_scopes r declared }
    {
        let ScopePaths { kept, names, .. } = self;
        names_without(names, &kept)
    }
}

/// The names of scopes whose paths are none of these.
fn names_without(names: Vec<Word>, paths: &PathSet) -> Seq<Word>
    ensures { result ≡ filter (λ path. not (inside.has_path paths.now path)) names.items }
{
    let mut left = names;
    left.retain(|path| !has_path(paths, path.as_slice()));
    Seq::from_vec(left)
}

/// Whether a path is in the set.
fn has_path(paths: &PathSet, path: &[u8]) -> bool
    ensures { result ≡ inside.has_path paths.now path.now }
{
    paths.contains(path)
}

/// Puts a copy of a path into the set, unless it is there.
fn add_path(paths: &mut PathSet, alloc: Global, path: &[u8]) -> Result<(), NoMemory>
    ensures { OnOk result ((key : List ℕ) → inside.has_path paths.new key
        ≡ (bytes_eq key path.now || inside.has_path paths.old key)) }
{
    if has_path(paths, path) {
        return Ok(());
    }
    put_path(paths, alloc, path)
}

/// Puts a copy of a path into the set, and one among the names, unless it is there.
fn add_name(
    paths: &mut PathSet,
    names: &mut Vec<Word>,
    alloc: Global,
    path: &[u8],
) -> Result<(), NoMemory>
    ensures paths { OnOk result ((key : List ℕ) → inside.has_path paths.new key
        ≡ (bytes_eq key path.now || inside.has_path paths.old key)) }
    ensures names { OnOk result (names.new.items ≡ (if inside.has_path paths.old path.now
        then names.old.items else names.old.items ++ path.now ∷ [])) }
{
    if has_path(paths, path) {
        return Ok(());
    }
    names.push(copy_word(alloc, path)?)?;
    put_path(paths, alloc, path)
}

/// Puts a copy of a path into the set.
fn put_path(paths: &mut PathSet, alloc: Global, path: &[u8]) -> Result<(), NoMemory>
    ensures { OnOk result ((key : List ℕ) → inside.has_path paths.new key
        ≡ (bytes_eq key path.now || inside.has_path paths.old key)) }
{
    let copy = copy_word(alloc, path)?.into_vec();
    paths.insert(copy)?;
    Ok(())
}

/// Makes this the path of these scopes, outermost first; nothing if there is none.
fn read_path(path: &mut Vec<u8>, scopes: &[ScopeName]) -> Result<(), NoMemory>
    ensures { OnOk result (path.new.items ≡ inside.dotted_names scopes.now) }
{
    path.clear();
    match scopes {
        [first, inner @ ..] => {
            append_words(path, first.words.as_slice())?;
            append_inner(path, inner)
        }
        [] => Ok(()),
    }
}

/// Appends the names of scopes, each after a `.`.
fn append_inner(path: &mut Vec<u8>, scopes: &[ScopeName]) -> Result<(), NoMemory>
    ensures { OnOk result (path.new.items
        ≡ path.old.items ++ flat_map (λ scope. 46 ∷ scope_text scope) scopes.now) }
{
    for scope in scopes {
        path.push(b'.')?;
        append_words(path, scope.words.as_slice())?;
    }
    Ok(())
}

/// Appends words, run together.
fn append_words(path: &mut Vec<u8>, words: &[Word]) -> Result<(), NoMemory>
    ensures { OnOk result (path.new.items ≡ path.old.items ++ concat words.now) }
{
    for word in words {
        path.extend_from_slice(word.as_slice())?;
    }
    Ok(())
}
