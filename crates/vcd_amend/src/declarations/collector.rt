//! Collects the variables that a file declares, while it is copied.

ghost use Rattle.std.specs.Prelude.{◌≡◌, ◌++◌, ◌∷◌, [], ℕ, List, OnOk, IfOk, IfSome, IsTrue};
ghost use Rattle.vcd_core.specs.Decimal.{is_number};
ghost use Rattle.vcd_text.specs.Words.{words_of};
ghost use Rattle.vcd_text.specs.Items.{end_word};
ghost use Rattle.vcd_text.specs.Grammar.{word_texts};
ghost use Rattle.vcd_copy.specs.VariableWords.{IsVariable};
ghost use Rattle.vcd_amend.specs.inside.declarations.Collector.{HasCollected, IsDeclared};

use super::DeclaredVariable;
use super::variable_size::VariableSize;
use std::alloc::Global;
use vcd_copy::{AmendableItem, Amender, EndedItem, InPlace, VariableWords};
use vcd_core::{
    NameWords, NoMemory, ScopeName, ScopePath, Seq, Sink, Word, copy_scopes, copy_word,
};
use vcd_text::{Output, Words};

/// The variables that a file has declared so far.
#[derive(Drop)]
pub struct Collector {
    pub alloc: Global,
    pub declared: Vec<DeclaredVariable>,
    /// The open scopes, if the last variable is in them.
    pub path: Option<ScopePath>,
    /// Whether the declarations have ended.
    pub is_done: bool,
}

impl Collector {
    /// No variables. It takes no memory.
    pub fn new(alloc: Global) -> Collector
        ensures { HasCollected result [] }
    {
        Collector {
            alloc,
            declared: Vec::new(alloc),
            path: None,
            is_done: false,
        }
    }
}

impl<W: Sink> Amender<W> for Collector {
    ghost use Rattle.std.specs.Prelude.{[]};
    ghost use Rattle.vcd_amend.specs.inside.declarations.Collector.{HasCollected};

    ghost Given = { Unit {0} };

    ghost given = { λ _. tt };

    ghost rules = { λ _. record {
      in_place = λ _ _. [];
      before_others = λ _. [];
      at_end = λ _ _. [];
    } };

    ghost has_seen = { HasCollected };

    ghost has_ended = { HasCollected };

    ghost is_done = { λ collector. collector.is_done };

    fn settle(&mut self, _item: AmendableItem, _code: &[u8]) -> InPlace {
        InPlace::Other
    }

    fn take(&mut self, _output: &mut Output<W>, ended: &EndedItem) -> Result<(), NoMemory> {
        match ended.item {
            AmendableItem::Variable => {
                let (scopes, body) = (ended.scopes, ended.body);
                collect(self.alloc, &mut self.declared, &mut self.path, scopes, body)?;
                Ok(())
            }
            AmendableItem::EndDefinitions { .. } => {
                self.is_done = true;
                Ok(())
            }
            _ => Ok(()),
        }
    }

    fn write_before(&self, _output: &mut Output<W>) {}

    fn pass(&mut self, _is_comment_or_other: bool) {
        self.path = None;
    }

    fn is_done(&self) -> bool {
        self.is_done
    }

    fn finish(&mut self, _output: &mut Output<W>, _space: &[u8]) -> Result<(), NoMemory> {
        Ok(())
    }
}

/// Adds the variable of a `$var` in these scopes.
fn collect(
    alloc: Global,
    declared: &mut Vec<DeclaredVariable>,
    path: &mut Option<ScopePath>,
    scopes: &[ScopeName],
    body: &[u8],
) -> Result<(), NoMemory>
    requires variable { (kind size code : List ℕ) × (names : List (List ℕ))
        × IsVariable body.now kind size code names × IsTrue (is_number size) }
    requires path { IfSome path.old (λ known. known ≡ scopes.now) }
    ensures declared { OnOk result ((kind size code : List ℕ) (names : List (List ℕ)) →
        IsVariable body.now kind size code names → (variable : DeclaredVariable)
        × (declared.new.items ≡ declared.old.items ++ variable ∷ [])
        × IsDeclared variable scopes.now kind size code names) }
    ensures path { OnOk result (IfSome path.new (λ known. known ≡ scopes.now)) }
{
    let shared = shared_path(alloc, path, scopes)?;
    declared.push(variable_of(alloc, shared, body)?)?;
    Ok(())
}

/// The path of the open scopes: the known one, or a copy of them, which is then known.
fn shared_path(
    alloc: Global,
    path: &mut Option<ScopePath>,
    scopes: &[ScopeName],
) -> Result<ScopePath, NoMemory>
    requires { IfSome path.old (λ known. known ≡ scopes.now) }
    ensures shared { IfOk result (λ shared. shared ≡ scopes.now) }
    ensures known { OnOk result (IfSome path.new (λ known. known ≡ scopes.now)) }
{
    if let Some(known) = path {
        return known.share();
    }
    let made = ScopePath::shared(copy_scopes(alloc, scopes)?)?;
    let shared = made.share()?;
    *path = Some(made);
    Ok(shared)
}

/// The variable of a `$var` in these scopes.
fn variable_of(alloc: Global, scopes: ScopePath, body: &[u8]) -> Result<DeclaredVariable, NoMemory>
    requires { (kind size code : List ℕ) × (names : List (List ℕ))
        × IsVariable body.now kind size code names × IsTrue (is_number size) }
    ensures { IfOk result (λ variable. (kind size code : List ℕ) (names : List (List ℕ)) →
        IsVariable body.now kind size code names →
        IsDeclared variable scopes kind size code names) }
{
    match VariableWords::read(body) {
        Some(words) => Ok(DeclaredVariable {
            scopes,
            kind: copy_word(alloc, words.kind)?,
            size: VariableSize::new(alloc, words.size)?,
            code: copy_word(alloc, words.code)?,
            words: NameWords::new(name_words(alloc, words.names)?),
        }),
        None => unreachable!(),
    }
}

/// A copy of each word but the last.
fn name_words(alloc: Global, text: &[u8]) -> Result<Seq<Word>, NoMemory>
    ensures { IfOk result (λ copies. (names : List (List ℕ)) →
        word_texts (words_of text.now) ≡ names ++ end_word ∷ [] → copies ≡ names) }
{
    let mut copies = all_words(alloc, text)?;
    copies.pop();
    Ok(Seq::from_vec(copies))
}

/// A copy of each word.
fn all_words(alloc: Global, text: &[u8]) -> Result<Vec<Word>, NoMemory>
    ensures { IfOk result (λ copies. copies.items ≡ word_texts (words_of text.now)) }
{
    let mut copies = Vec::new(alloc);
    for word in Words::new(text) {
        copies.push(copy_word(alloc, word.text)?)?;
    }
    Ok(copies)
}
