//! The names that lines define, in the order of their bytes.

ghost use Rattle.std.specs.Prelude.{◌≡◌, ◌≤◌, ℕ, List, [], OnOk, IfSome, if◌then◌else◌, None, Some};
ghost use Rattle.std.specs.List.Sorted.{IsStrictlySortedBy};
ghost use Rattle.std.specs.Map.{keys_of};
ghost use Rattle.std.specs.Ordering.{nat_cmp};
ghost use Rattle.std.specs.Cmp.Lexicographic.{slice_cmp};
ghost use Rattle.std.specs.Str.{bytes_eq};
ghost use Rattle.asm_lex.specs.Names.{Names, value_in, value_at, with_name, number_named, register_from, register_named, IsValue, HasValues, HasRegisters};

use crate::SymbolValue;
use std::alloc::{AllocError, Global};
use std::collections::BTreeMap;
use std::collections::btree_map::Iter;
use std::marker::Model;

/// Names with their values.
#[derive(Drop)]
pub struct Symbols {
    tree: BTreeMap<Vec<u8>, SymbolValue>,
    // The names that were given a register. They are few, so that a name that stands for none is soon known.
    registers: BTreeMap<Vec<u8>, SymbolValue>,
}

impl Model for Symbols {
    ghost use Rattle.std.specs.Prelude.{ℕ, List, map};
    ghost use Rattle.asm_lex.specs.declared.shape.SymbolValue.{SymbolValue};
    ghost use Rattle.asm_lex.specs.Names.{value_at, HasValues, HasRegisters};

    ghost Value = { List (List ℕ × SymbolValue) };

    ghost view = { λ symbols. map {B = List ℕ × SymbolValue} (λ entry. (entry.0.items, entry.1)) symbols.tree.entries };

    ghost invariant = { λ symbols. HasValues (value_at symbols.tree.entries) × HasRegisters (value_at symbols.registers.entries) (value_at symbols.tree.entries) };
}

// Adds a name to those that were given a register, where its value is one.
fn note_register(
    alloc: Global,
    registers: &mut BTreeMap<Vec<u8>, SymbolValue>,
    name: &[u8],
    value: SymbolValue,
) -> Result<(), AllocError>
    ensures others { (names : Names) → HasRegisters (value_at registers.old.entries) names → HasRegisters (value_at registers.new.entries) names }
    ensures name { OnOk result (value_at registers.new.entries name.now ≡ None → register_from (Some value) ≡ None) }
{
    if let SymbolValue::Register(_) = value {
        let key = Vec::from_slice(alloc, name)?;
        registers.insert(key, value)?;
    }
    Ok(())
}

impl Symbols {
    /// No names.
    pub fn new(alloc: Global) -> Self
        ensures { result ≡ [] }
    {
        Symbols {
            tree: BTreeMap::new(alloc),
            registers: BTreeMap::new(alloc),
        }
    }

    /// The value of a name, or nothing where it has none.
    pub fn get(&self, name: &[u8]) -> Option<SymbolValue>
        ensures value { result ≡ value_in self.now name.now }
        ensures within { IfSome result IsValue }
    {
        self.tree.get(name).copied()
    }

    /// The number that a name stands for, or nothing where it stands for none.
    pub fn number(&self, name: &[u8]) -> Option<u16>
        ensures { result ≡ number_named (value_in self.now) name.now }
    {
        match self.get(name) {
            Some(SymbolValue::Number(number)) => Some(number),
            _ => None,
        }
    }

    /// The number, 0 to 15, of the register that a name stands for, or nothing where it stands for none.
    pub fn register(&self, name: &[u8]) -> Option<u8>
        ensures number { result ≡ register_named (value_in self.now) name.now }
        ensures within { IfSome result (λ register. register ≤ 15) }
    {
        if !self.registers.contains_key(name) {
            return None;
        }
        match self.get(name) {
            Some(SymbolValue::Register(register)) => Some(register),
            _ => None,
        }
    }

    /// A name stands for a number or for one of 16 registers. A call does nothing: the fact is its contract.
    pub(crate) fn have_values(&self)
        ensures { HasValues (value_in self.now) }
    {
        let _ = &self.tree;
    }

    /// Gives a name a value.
    pub fn define(
        &mut self,
        alloc: Global,
        name: &[u8],
        value: SymbolValue,
    ) -> Result<(), AllocError>
        requires { IsValue value }
        ensures { OnOk result ((other : List ℕ) → value_in self.new other ≡ with_name (value_in self.old) name.now value other) }
    {
        let key = Vec::from_slice(alloc, name)?;
        note_register(alloc, &mut self.registers, name, value)?;
        self.tree.insert(key, value)?;
        Ok(())
    }

    /// The names with their values, in the order of their bytes.
    pub fn iter(&self) -> SymbolIter<'_>
        ensures names { result ≡ self.now }
        ensures ordered { IsStrictlySortedBy (slice_cmp nat_cmp) (keys_of self.now) }
    {
        SymbolIter {
            entries: self.tree.iter(),
        }
    }
}

/// Goes over names with their values, in the order of their bytes.
#[derive(Drop)]
pub struct SymbolIter<'a> {
    entries: Iter<'a, Vec<u8>, SymbolValue>,
}

impl<'a> Model for SymbolIter<'a> {
    ghost use Rattle.std.specs.Prelude.{ℕ, List, map};
    ghost use Rattle.asm_lex.specs.declared.shape.SymbolValue.{SymbolValue};

    ghost Value = { List (List ℕ × SymbolValue) };

    ghost view = { λ left. map {B = List ℕ × SymbolValue} (λ entry. (entry.0.items, entry.1)) left.entries };
}

impl<'a> Iterator for SymbolIter<'a> {
    ghost use Rattle.std.specs.Iterator.{YieldsFirstBy, item_count};

    type Item = (&'a [u8], SymbolValue);

    ghost next_gives = { YieldsFirstBy (λ symbol. (symbol.0.now, symbol.1)) (λ left. left) };

    ghost remaining = { item_count (λ left. left) };

    fn next(&mut self) -> Option<(&'a [u8], SymbolValue)> {
        match self.entries.next() {
            Some((name, value)) => Some((name.as_slice(), *value)),
            None => None,
        }
    }
}
