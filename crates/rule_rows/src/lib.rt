// The rows of a list of rules, one after the other, each in its slot of the work area.
#![tactic(auto)]

ghost use Rattle.rule_rows.specs.Next.{NextTo, NextBuildable};
ghost use Rattle.rule_rows.specs.Lists.{FinishesTo, AllBuildable};

use limits::Limits;
use machine_rows::{OverLimit, Plan, build_slot};
use rules::NodeRule;

// The first node whose rule is over a limit, and which one.
#[derive(Clone, Copy, PartialEq, Eq)]
pub struct NodeOverLimit {
    pub node: usize,
    pub limit: OverLimit,
}

// Builds node n where it is a rule; else nothing is built.
fn build_next(
    node: Option<NodeRule>,
    n: usize,
    actions: usize,
    limits: Limits,
    work: &mut [u8],
    values: &mut [u64],
) -> Result<usize, OverLimit>
    requires { NextBuildable node work.old n actions limits values.old }
    ensures { NextTo node actions limits n result work.old work.new }
{
    let Some(rule) = node else {
        return Ok(0);
    };
    let plan = Plan {
        slot: n,
        actions,
        limits,
    };
    build_slot(rule, plan, work, values)
}

// Builds each rule of a list in its order, each in its own slot. Gives the number of rows of the last one.
pub fn build_all(
    rules: [Option<NodeRule>; 64],
    count: usize,
    actions: usize,
    limits: Limits,
    work: &mut [u8],
    values: &mut [u64],
) -> Result<usize, NodeOverLimit>
    requires { AllBuildable rules count actions limits work.old values.old }
    ensures { FinishesTo rules count actions limits result work.new }
{
    let mut last = 0;
    for node in 0..count {
        match build_next(rules[node], node, actions, limits, work, values) {
            Ok(rows) => last = rows,
            Err(limit) => return Err(NodeOverLimit { node, limit }),
        }
    }
    Ok(last)
}
