//! A person's own floor.
use crate::options::Options;
use crate::problem::Problem;
use crate::restrictor::{Restrictor, Visitor};
use crate::show::{count_passages, count_shut, show_plan, show_shut};
use plan::{Closure, FiledPlan, GridPlan, Plan, Sheet};
use std::fs;

/// Where a floor comes from.
#[derive(Drop)]
pub enum Source {
    Grid(u8, u8),
    File(String),
}

/// A floor that was opened.
#[derive(Clone, Copy)]
pub enum Floor {
    Filed(FiledPlan),
    Grid(GridPlan),
}

impl Floor {
    pub(crate) fn open(rt: &HostRuntime, source: Source) -> Result<Floor, Problem> {
        match source {
            Source::Grid(rows, columns) => Ok(Floor::Grid(GridPlan::new(rows, columns)?)),
            Source::File(path) => {
                let bytes = fs::read(rt, path.as_str()).map_err(|error| Problem::Unreadable(
                    path, error,
                ))?;
                Ok(Floor::Filed(FiledPlan::open(bytes.as_slice())?))
            }
        }
    }

    /// Does it with the plan, what is shut on it and the rule.
    pub(crate) fn lend<V: Visitor>(
        self,
        sheet: Sheet,
        rule: Restrictor,
        visitor: V,
    ) -> Result<V::Out, Problem> {
        match self {
            Floor::Filed(below) => rule.lend(Closure { below, sheet }, visitor),
            Floor::Grid(below) => rule.lend(Closure { below, sheet }, visitor),
        }
    }

    /// Prints the floor, then the same with passages shut. This asks for no rule, so it does not go through `lend`.
    pub(crate) fn describe(self, rt: &HostRuntime, shut: Option<Sheet>) -> Result<(), Problem> {
        match self {
            Floor::Filed(plan) => describe_plan(rt, plan, shut),
            Floor::Grid(plan) => describe_plan(rt, plan, shut),
        }
    }
}

fn describe_plan<P: Plan + Drop>(
    rt: &HostRuntime,
    plan: P,
    shut: Option<Sheet>,
) -> Result<(), Problem> {
    show_plan(rt, &plan)?;
    let zones = plan.zones();
    let passages = count_passages(&plan);
    let Some(sheet) = shut else {
        println!(rt; "{zones} zones, {passages} passages")?;
        return Ok(());
    };
    let closed = Closure { below: plan, sheet };
    let missing = count_shut(&closed);
    show_shut(rt, &closed)?;
    show_plan(rt, &closed)?;
    println!(rt; "{zones} zones, {passages} passages, {missing} of them shut")?;
    Ok(())
}

/// Prints the floor that the options name and, where passages are shut, what changes.
pub(crate) fn describe(rt: &HostRuntime, mut options: Options) -> Result<(), Problem> {
    let source = options.source()?;
    Floor::open(rt, source)?.describe(rt, options.shut)
}
