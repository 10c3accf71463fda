//! The growth of the graph: the rules are asked until none adds a fact.
ghost use Rattle.std.specs.Prelude.{◌≡◌, ◌^◌, ◌<◌, length, IfOk, Contains};
ghost use Rattle.mdg_scan.specs.declared.first.fact.Fact.{Fact};
ghost use Rattle.mdg_scan.specs.Graph.{GivenBy, IsGraph, Led};
ghost use Rattle.mdg_scan.specs.Parts.{Adds, Within};

use crate::first::{Code, Fact, Facts, Rule, given, rules_of};
use mdg_base::NoMemory;
use std::alloc::Global;

// The facts, and those of the others that are not among them.
fn add_all(facts: Facts, more: &[Fact]) -> Result<Facts, NoMemory>
    ensures adds { IfOk result (λ new. Adds facts more.now new) }
    ensures all { IfOk result (Within more.now) }
{
    let mut facts = facts;
    for fact in more {
        if !facts.has(fact) {
            facts = facts.with(*fact)?;
        }
    }
    Ok(facts)
}

// The facts with what each rule gives, each from what those before it gave.
fn pass(alloc: Global, rules: &[Rule], facts: Facts) -> Result<Facts, NoMemory>
    ensures led { IfOk result (Led rules.now facts) }
    ensures all { IfOk result (λ new. (f : Fact) → GivenBy rules.now facts f → Contains new f) }
{
    let mut facts = facts;
    for rule in rules {
        let more = given(alloc, *rule, &facts)?;
        facts = add_all(facts, more.as_slice())?;
    }
    Ok(facts)
}

/// The least graph of the code.
pub fn grow(alloc: Global, code: &Code) -> Result<Facts, NoMemory>
    requires lines { length code.now.lines < 2 ^ 31 }
    requires functions { length code.now.functions < 2 ^ 32 }
    requires shared { length code.now.shared < 2 ^ 32 }
    ensures { IfOk result (IsGraph code.now) }
{
    let rules = rules_of(alloc, code)?;
    let mut facts = Facts::create(alloc);
    loop {
        let known = facts.as_slice().len();
        facts = pass(alloc, rules.as_slice(), facts)?;
        if facts.as_slice().len() == known {
            return Ok(facts);
        }
    }
}
