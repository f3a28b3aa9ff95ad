//! The scopes of a signal, in memory that the signals of one scope share.

ghost use Rattle.std.specs.Prelude.{◌≡◌, ◌≤◌, IfOk, MatchResult, length, take};

use crate::capture::ScopeName;
use crate::copies::copy_scopes;
use crate::memory::NoMemory;
use std::marker::Model;
use std::rc::RcSlice;

/// The scopes of a signal, outermost first.
///
/// Several paths can share one list, each as a prefix of it. Contracts see the list of scope names,
/// shared or not.
#[derive(Drop)]
pub struct ScopePath {
    list: ScopeList,
    /// The number of scopes of the list that belong to the path.
    count: usize,
}

/// The list of scopes of a path.
#[derive(Drop)]
enum ScopeList {
    /// The list of this path alone.
    Own(Vec<ScopeName>),
    /// A list that several paths can share; it is freed with the last.
    Shared(RcSlice<ScopeName>),
}

impl Model for ScopePath {
    ghost use Rattle.std.specs.Prelude.{List, ◌≤◌, length, take};
    ghost use Rattle.vcd_core.specs.declared.capture.ScopeName.{ScopeName};

    ghost Value = { List ScopeName };

    ghost use Rattle.vcd_core.specs.inside.names.ScopePath.{scopes_of_list};

    ghost view = { λ p. take p.count (scopes_of_list p.list) };

    ghost invariant = { λ p. p.count ≤ length (scopes_of_list p.list) };
}

impl ScopePath {
    /// The path of these scopes, outermost first, not shared.
    pub fn from_vec(scopes: Vec<ScopeName>) -> ScopePath
        ensures { result ≡ scopes.items }
    {
        let count = scopes.len();
        ScopePath {
            list: ScopeList::Own(scopes),
            count,
        }
    }

    /// The path of these scopes, outermost first, which others can share. It takes one block of
    /// memory.
    pub fn shared(scopes: Vec<ScopeName>) -> Result<ScopePath, NoMemory>
        ensures { IfOk result (λ path. path ≡ scopes.items) }
    {
        let count = scopes.len();
        let list = ScopeList::Shared(RcSlice::from_vec(scopes)?);
        Ok(ScopePath { list, count })
    }

    /// The same path. It takes no memory if the list can be shared; otherwise it copies each
    /// scope.
    pub fn share(&self) -> Result<ScopePath, NoMemory>
        ensures { IfOk result (λ path. path ≡ self.now) }
    {
        self.prefix(self.count)
    }

    /// The path of the first `count` scopes. It takes no memory if the list can be shared;
    /// otherwise it copies each of these scopes.
    pub fn prefix(&self, count: usize) -> Result<ScopePath, NoMemory>
        requires { count ≤ length self.now }
        ensures { IfOk result (λ path. path ≡ take count self.now) }
    {
        match &self.list {
            ScopeList::Own(scopes) => {
                let alloc = *scopes.allocator();
                Ok(ScopePath::from_vec(copy_scopes(alloc, &scopes[..count])?))
            }
            ScopeList::Shared(scopes) => Ok(ScopePath {
                list: ScopeList::Shared(scopes.clone()?),
                count,
            }),
        }
    }

    /// The scopes, outermost first, if no other path can share them; otherwise the path as it is.
    pub fn into_vec(self) -> Result<Vec<ScopeName>, ScopePath>
        ensures { MatchResult result (λ scopes. scopes.items ≡ self) (λ path. path ≡ self) }
    {
        let ScopePath { list, count } = self;
        match list {
            ScopeList::Own(own) => {
                let mut scopes = own;
                scopes.truncate(count);
                Ok(scopes)
            }
            ScopeList::Shared(shared) => Err(ScopePath {
                list: ScopeList::Shared(shared),
                count,
            }),
        }
    }

    /// The scopes, outermost first.
    pub fn as_slice(&self) -> &[ScopeName]
        ensures { result.now ≡ self.now }
    {
        &self.list.as_slice()[..self.count]
    }
}

impl ScopeList {
    ghost use Rattle.vcd_core.specs.inside.names.ScopePath.{scopes_of_list};

    fn as_slice(&self) -> &[ScopeName]
        ensures { result.now ≡ scopes_of_list self.now }
    {
        match self {
            ScopeList::Own(scopes) => scopes.as_slice(),
            ScopeList::Shared(scopes) => scopes.as_slice(),
        }
    }
}
