//! Substitutions for free variables and for meta-variables.

ghost use Rattle.std.specs.Prelude.{◌≡◌, ◌≢◌, ℕ, [], ◌∷◌, ◌++◌, IfOk, OnOk, OnErr, All};

use crate::term::Term;
use std::alloc::{AllocError, Global};
use std::marker::Model;
use wh_types::SimpleType;

/// The tree that takes the place of one free variable.
#[derive(Drop)]
pub struct SubstEntry {
    /// The variable's number.
    pub number: u32,
    /// The variable's type.
    pub kind: SimpleType,
    /// What takes its place.
    pub value: Term,
}

/// A substitution: entries for free variables, told apart by number and type.
#[derive(Drop)]
pub struct Subst {
    items: Vec<SubstEntry>,
}

impl Model for Subst {
    ghost use Rattle.std.specs.Prelude.{List};
    ghost use Rattle.std.specs.Coded.{coded_list};
    ghost use Rattle.wh_terms.specs.contracts.subst.SubstEntry as subst_entry;
    ghost use Rattle.wh_terms.specs.declared.subst.SubstEntry.{SubstEntry};

    ghost Value = { List SubstEntry };

    ghost coded = { coded_list subst_entry.the_row.coded };

    ghost view = { λ subst. subst.items.items };
}

impl Subst {
    ghost use Rattle.wh_terms.specs.Entries.{IsAnotherVariable};

    /// The empty substitution, which changes nothing.
    pub fn new(alloc: Global) -> Subst
        ensures { result ≡ [] }
    {
        Subst {
            items: Vec::new(alloc),
        }
    }

    /// The entry joins at the end; without memory the list stays as it was. No entry may be for the same variable.
    pub fn push(&mut self, item: SubstEntry) -> Result<(), AllocError>
        requires { All (IsAnotherVariable item) self.old }
        ensures ok { OnOk result (self.new ≡ self.old ++ item ∷ []) }
        ensures err { OnErr result (self.new ≡ self.old) }
    {
        self.items.push(item)?;
        Ok(())
    }

    /// The entries in order.
    pub fn as_slice(&self) -> &[SubstEntry]
        ensures { result.now ≡ self.now }
    {
        self.items.as_slice()
    }
}

/// The body that takes the place of one meta-variable.
#[derive(Drop)]
pub struct MetaBody {
    /// The meta-variable's number.
    pub meta: u32,
    /// How many arguments it has.
    pub arity: u32,
    /// A tree below `arity` parameters. The parameters are its nearest loose variables: outside all of the body's own
    /// binders `Bound(0)` is the last one.
    pub body: Term,
}

/// A meta-substitution: bodies for meta-variables.
#[derive(Drop)]
pub struct MetaSubst {
    items: Vec<MetaBody>,
}

impl Model for MetaSubst {
    ghost use Rattle.std.specs.Prelude.{List};
    ghost use Rattle.std.specs.Coded.{coded_list};
    ghost use Rattle.wh_terms.specs.contracts.subst.MetaBody as meta_body;
    ghost use Rattle.wh_terms.specs.declared.subst.MetaBody.{MetaBody};

    ghost Value = { List MetaBody };

    ghost coded = { coded_list meta_body.the_row.coded };

    ghost view = { λ subst. subst.items.items };
}

impl MetaSubst {
    /// The empty meta-substitution.
    pub fn new(alloc: Global) -> MetaSubst
        ensures { result ≡ [] }
    {
        MetaSubst {
            items: Vec::new(alloc),
        }
    }

    /// The body joins at the end; without memory the list stays as it was. No body may be for the same meta-variable.
    pub fn push(&mut self, item: MetaBody) -> Result<(), AllocError>
        requires { All (λ other. other.meta ≢ item.meta) self.old }
        ensures ok { OnOk result (self.new ≡ self.old ++ item ∷ []) }
        ensures err { OnErr result (self.new ≡ self.old) }
    {
        self.items.push(item)?;
        Ok(())
    }

    /// The bodies in order.
    pub fn as_slice(&self) -> &[MetaBody]
        ensures { result.now ≡ self.now }
    {
        self.items.as_slice()
    }
}
