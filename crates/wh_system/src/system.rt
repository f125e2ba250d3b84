//! Systems. A `System` can be made only of data that is well made, so no caller has to test one.

ghost use Rattle.std.specs.Prelude.{◌≡◌, ℕ, Option, Some, length, slice_get};
ghost use Rattle.wh_terms.specs.Erase.{rewrite_rules};
ghost use Rattle.wh_system.specs.DataOf.{data_of};
ghost use Rattle.wh_system.specs.Needs.{need_of};
ghost use Rattle.wh_system.specs.WellMade.{IsWellMadeSystem};

use crate::names::SystemNames;
use wh_terms::{Rule, Signature};
use wh_text::Name;

/// A system: its sorts, its symbols and its rules, with the names that they have. Every system is well made.
#[derive(Drop)]
pub struct System {
    names: SystemNames,
    signature: Signature,
    rules: Vec<Rule>,
    needs: Vec<Option<u32>>,
    ghost each_need: { length needs.items ≡ length names.funs },
    ghost needs_known: { (f : ℕ) (n : Option ℕ) → slice_get needs.items f ≡ Some n → n ≡ need_of (rewrite_rules rules.items) f },
    ghost made: { ∥ IsWellMadeSystem (data_of names signature rules.items) ∥₁ },
}

impl System {
    ghost use Rattle.std.specs.Prelude.{◌≡◌, ◌<◌, ℕ, Option, Some, None, length, slice_get, get_or, [], option_and_then};
    ghost use Rattle.wh_terms.specs.Erase.{symbols, rewrite_rules};
    ghost use Rattle.wh_system.specs.DataOf.{data_of};
    ghost use Rattle.wh_system.specs.SystemView.{system_data};
    ghost use Rattle.wh_system.specs.Needs.{need_of};
    ghost use Rattle.wh_system.specs.WellMade.{IsWellMadeSystem};

    /// The well-made system of these names, this signature and these rules. `needs` has for each symbol the number of
    /// arguments that its rules have on the left, if it has rules.
    pub fn new(
        names: SystemNames,
        signature: Signature,
        rules: Vec<Rule>,
        needs: Vec<Option<u32>>,
    ) -> System
        requires made { IsWellMadeSystem (data_of names signature rules.items) }
        requires each_need { length needs.items ≡ length names.funs }
        requires needs_known { (f : ℕ) (n : Option ℕ) → slice_get needs.items f ≡ Some n → n ≡ need_of (rewrite_rules rules.items) f }
        ensures { system_data result ≡ data_of names signature rules.items }
    {
        System {
            names,
            signature,
            rules,
            needs,
        }
    }

    /// What terms are built over: the number of sorts and the types of the symbols.
    pub fn signature(&self) -> &Signature
        ensures { symbols result.now ≡ (system_data self.now).symbols }
    {
        &self.signature
    }

    /// The rules in order.
    pub fn rules(&self) -> &[Rule]
        ensures { rewrite_rules result.now ≡ (system_data self.now).rules }
    {
        self.rules.as_slice()
    }

    /// The name of the sort with that number.
    pub fn sort_name(&self, k: u32) -> &Name
        requires { k < length (system_data self.now).sort_names }
        ensures { slice_get (system_data self.now).sort_names k ≡ Some result.now }
    {
        &self.names.sorts.as_slice()[k as usize]
    }

    /// The name of the symbol with that number.
    pub fn fun_name(&self, k: u32) -> &Name
        requires { k < length (system_data self.now).fun_names }
        ensures { slice_get (system_data self.now).fun_names k ≡ Some result.now }
    {
        &self.names.funs.as_slice()[k as usize]
    }

    /// The name of the meta-variable number `k` of a rule.
    pub fn meta_name(&self, rule: u32, k: u32) -> &Name
        requires rule { rule < length (system_data self.now).meta_names }
        requires meta { k < length (get_or (system_data self.now).meta_names rule []) }
        ensures { option_and_then (λ names. slice_get names k) (slice_get (system_data self.now).meta_names rule) ≡ Some result.now }
    {
        &self.names.metas[rule as usize].as_slice()[k as usize]
    }

    /// How many arguments the left sides of the rules of symbol `k` have; `None` exactly where it has no rules. A
    /// number that is no symbol's has none either.
    pub fn need(&self, k: u32) -> Option<u32>
        ensures { result ≡ need_of (system_data self.now).rules k }
    {
        self.is_well_made();
        if (k as usize) < self.needs.len() {
            self.needs[k as usize]
        } else {
            None
        }
    }

    /// The names of the sorts, by number.
    pub fn sort_names(&self) -> &[Name]
        ensures { result.now ≡ (system_data self.now).sort_names }
    {
        self.names.sorts.as_slice()
    }

    /// The names of the symbols, by number.
    pub fn fun_names(&self) -> &[Name]
        ensures { result.now ≡ (system_data self.now).fun_names }
    {
        self.names.funs.as_slice()
    }

    /// The names of a rule's meta-variables, by number.
    pub fn meta_names(&self, rule: u32) -> &[Name]
        requires { rule < length (system_data self.now).meta_names }
        ensures { slice_get (system_data self.now).meta_names rule ≡ Some result.now }
    {
        self.names.metas[rule as usize].as_slice()
    }

    /// Every system is well made.
    pub fn is_well_made(&self)
        ensures { IsWellMadeSystem (system_data self.now) }
    {}
}
