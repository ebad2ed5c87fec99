//! The rules that a person can choose.
use crate::problem::{Misread, Problem};
use plan::Plan;
use route::{Acyclic, Rule, Simple, Trail};
use std::str::FromStr;

/// One of the three rules.
#[derive(Clone, Copy)]
pub enum Restrictor {
    Trail,
    Acyclic,
    Simple,
}

impl FromStr for Restrictor {
    type Err = Misread;

    fn from_str(word: &str) -> Result<Restrictor, Misread> {
        match word {
            "trail" => Ok(Restrictor::Trail),
            "acyclic" => Ok(Restrictor::Acyclic),
            "simple" => Ok(Restrictor::Simple),
            _ => Err(Misread::Words),
        }
    }
}

/// What is done with a plan and a rule of any kind. One enum that is itself a plan, and one that is itself a rule, made
/// listings a seventh slower.
pub trait Visitor {
    type Out;

    fn visit<P: Plan + Drop, R: Rule + Drop>(self, plan: P, rule: R) -> Result<Self::Out, Problem>;
}

impl Restrictor {
    /// Does it with the plan and the rule.
    pub(crate) fn lend<P: Plan + Drop, V: Visitor>(
        self,
        plan: P,
        visitor: V,
    ) -> Result<V::Out, Problem> {
        match self {
            Restrictor::Trail => visitor.visit(plan, Trail),
            Restrictor::Acyclic => visitor.visit(plan, Acyclic),
            Restrictor::Simple => visitor.visit(plan, Simple),
        }
    }
}
