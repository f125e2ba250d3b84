//! The search for the term that is put for a variable, among entries with increasing numbers.

ghost use Rattle.std.specs.Prelude.{◌≡◌, ◌↔◌, ◌<◌, ◌≤◌, ℕ, Some, IsTrue, length, slice_get, AllPairs, MatchOption};
ghost use Rattle.wh_types.specs.Erase.{ty};
ghost use Rattle.wh_terms.specs.Tree.{free};
ghost use Rattle.wh_terms.specs.Erase.{tm};
ghost use Rattle.wh_terms.specs.declared.subst.SubstEntry as entry;
ghost use Rattle.wh_no.specs.Claim.{put_for};
ghost use Rattle.wh_no.specs.Entry.{entry_puts};
ghost use Rattle.wh_no.specs.Valid.{IsBelow};

use wh_terms::{SubstEntry, Term};
use wh_types::{SimpleType, same_type};

// The first entry whose number is not below `number`, or the number of the entries.
fn first_from(entries: &[SubstEntry], number: u32) -> usize
    requires { AllPairs IsBelow (entry_puts entries.now) }
    ensures within { result ≤ length entries.now }
    ensures before { (i : ℕ) (e : entry.SubstEntry) → i < result → slice_get entries.now i ≡ Some e → e.number < number }
    ensures after { (i : ℕ) (e : entry.SubstEntry) → result ≤ i → slice_get entries.now i ≡ Some e → number ≤ e.number }
{
    let mut low = 0;
    let mut high = entries.len();
    while low < high {
        let middle = low + (high - low) / 2;
        if entries[middle].number < number {
            low = middle + 1;
        } else {
            high = middle;
        }
    }
    low
}

// Whether the entry is for the variable of that number and type.
fn is_for(entry: &SubstEntry, number: u32, kind: &SimpleType) -> bool
    ensures { IsTrue result ↔ (entry.now.number ≡ number) × (ty entry.now.kind ≡ ty kind.now) }
{
    entry.number == number && same_type(&entry.kind, kind)
}

/// The term that the entries put for the variable of that number and type.
pub fn value_for<'a>(entries: &'a [SubstEntry], number: u32, kind: &SimpleType) -> Option<&'a Term>
    requires { AllPairs IsBelow (entry_puts entries.now) }
    ensures { MatchOption result
        (put_for (entry_puts entries.now) number (ty kind.now) ≡ free number (ty kind.now))
        (λ value. put_for (entry_puts entries.now) number (ty kind.now) ≡ tm value.now) }
{
    let place = first_from(entries, number);
    if place == entries.len() {
        return None;
    }
    let entry = &entries[place];
    if is_for(entry, number, kind) {
        Some(&entry.value)
    } else {
        None
    }
}
