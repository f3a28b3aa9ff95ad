//! The scopes that a file declares, and the places of variables in them.

ghost use Rattle.std.specs.Prelude.{◌≡◌, ◌≤◌, length};

use std::alloc::Global;
use std::mem::replace;
use vcd_core::{NoMemory, ScopeName, ScopePath, copy_scopes};

/// The scopes of a variable: the first ones of a chain.
#[derive(Clone, Copy, Debug, PartialEq, Eq)]
pub struct ScopePlace {
    /// The number of the chain.
    pub chain: usize,
    pub count: usize,
}

/// The declared scopes: those that are open, and those of each place.
///
/// They are kept in chains, where each scope is in the one before it, so nested scopes of any depth
/// are stored once. A scope that follows a closed one replaces it in the chain if no variable is in
/// the closed one. Otherwise it begins a new chain, with a copy of the open scopes. So many sibling
/// scopes at a great depth, each with a variable, take memory of their number times the depth.
#[derive(Drop)]
pub struct Scopes {
    /// The complete chains.
    pub chains: Vec<ScopePath>,
    /// The chain of the open scopes.
    pub chain: Vec<ScopeName>,
    /// The number of its scopes that are open.
    pub depth: usize,
    /// The greatest number of its scopes that a variable is in.
    pub reach: usize,
    ghost within: { depth ≤ length chain.items },
}

impl Scopes {
    ghost use Rattle.std.specs.Prelude.{◌-◌, ◌++◌, ◌∷◌, [], take, IfOk, OnOk};
    ghost use Rattle.vcd_text.specs.inside.reading.Chains.{chains_of, chain_at};
    ghost use Rattle.vcd_text.specs.inside.reading.Scopes.{open_scopes};
    ghost use Rattle.vcd_text.specs.inside.reading.Scopes.{IsPlaced};
    ghost use Rattle.vcd_text.specs.inside.reading.Scopes.{IsWithin, KeepsPlaces};

    /// No scopes. It takes no memory.
    pub fn new(alloc: Global) -> Scopes
        ensures { open_scopes result ≡ [] }
    {
        Scopes {
            chains: Vec::new(alloc),
            chain: Vec::new(alloc),
            depth: 0,
            reach: 0,
        }
    }

    /// Opens a scope in the innermost one. After a closed scope with a variable in it, it copies
    /// the open scopes.
    pub fn enter(&mut self, alloc: Global, scope: ScopeName) -> Result<(), NoMemory>
        ensures opened { OnOk result (open_scopes self.new ≡ open_scopes self.old ++ scope ∷ []) }
        ensures places { OnOk result (KeepsPlaces self.old self.new) }
    {
        self.go_to_end(alloc)?;
        self.chain.push(scope)?;
        self.depth += 1;
        Ok(())
    }

    /// Cuts the chain back to the open scopes if no variable is in the others, or begins another.
    fn go_to_end(&mut self, alloc: Global) -> Result<(), NoMemory>
        ensures opened { OnOk result (self.new.chain.items ≡ open_scopes self.old) }
        ensures depth { OnOk result (self.new.depth ≡ length self.new.chain.items) }
        ensures places { OnOk result (KeepsPlaces self.old self.new) }
    {
        if self.depth == self.chain.len() {
            return Ok(());
        }
        if self.reach <= self.depth {
            self.chain.truncate(self.depth);
            return Ok(());
        }
        self.begin_chain(alloc)?;
        Ok(())
    }

    /// Begins another chain, with a copy of the open scopes.
    fn begin_chain(&mut self, alloc: Global) -> Result<(), NoMemory>
        ensures opened { OnOk result (self.new.chain.items ≡ open_scopes self.old) }
        ensures depth { OnOk result (self.new.depth ≡ length self.new.chain.items) }
        ensures places { OnOk result (KeepsPlaces self.old self.new) }
    {
        let outer = copy_scopes(alloc, &self.chain[..self.depth])?;
        let chain = replace(&mut self.chain, outer);
        self.chains.push(ScopePath::shared(chain)?)?;
        self.reach = 0;
        Ok(())
    }

    /// Closes the innermost scope, if one is open.
    pub fn leave(&mut self)
        ensures opened { open_scopes self.new
            ≡ take (length (open_scopes self.old) - 1) (open_scopes self.old) }
        ensures places { KeepsPlaces self.old self.new }
    {
        self.depth = self.depth.saturating_sub(1);
    }

    /// The scopes of a place, outermost first.
    pub fn at(&self, place: ScopePlace) -> &[ScopeName]
        requires { IsWithin (chains_of self.now) place }
        ensures { result.now ≡ take place.count (chain_at (chains_of self.now) place.chain) }
    {
        if place.chain < self.chains.len() {
            return &self.chains[place.chain].as_slice()[..place.count];
        }
        &self.chain[..place.count]
    }

    /// The open scopes, outermost first.
    pub fn opened(&self) -> &[ScopeName]
        ensures { result.now ≡ open_scopes self.now }
    {
        &self.chain[..self.depth]
    }

    /// The place of a variable in the open scopes.
    pub fn place(&mut self) -> ScopePlace
        ensures opened { open_scopes self.new ≡ open_scopes self.old }
        ensures places { KeepsPlaces self.old self.new }
        ensures placed { IsPlaced self.new result (open_scopes self.new) }
    {
        self.reach = self.reach.max(self.depth);
        ScopePlace {
            chain: self.chains.len(),
            count: self.depth,
        }
    }

    /// The paths of all chains, each of which can be shared.
    pub fn into_chains(self) -> Result<Vec<ScopePath>, NoMemory>
        ensures { IfOk result (λ paths. paths.items ≡ chains_of self) }
    {
        let Scopes { chains, chain, .. } = self;
        let mut paths = chains;
        paths.push(ScopePath::shared(chain)?)?;
        Ok(paths)
    }
}
