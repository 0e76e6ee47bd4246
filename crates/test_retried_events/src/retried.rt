//! A system whose events are retried if they run out of memory.
use crate::asked::{Asked, Request};
use crate::plans::{Plan, Store};
use iol_core::events::{Event, Reply};
use iol_core::refusals::Refusal;
use iol_system::Report;
use iol_system::system::System;
use std::marker::Model;

// Only one growth is refused, so the next try has memory.
const TRIES: u32 = 3;

/// The result of a request.
#[derive(Debug, Drop)]
pub enum Answer {
    Reply(Reply),
    Report(Report),

    /// A report ran out of memory.
    NoReport,
}

/// A system, as a type without contracts.
#[derive(Drop)]
pub struct Retried {
    system: System<Store>,
}

impl Model for Retried {
    ghost Value = { Unit {0} };

    ghost view = { λ _. tt };
}

impl Retried {
    /// The system of a plan.
    pub fn of(plan: Plan) -> Result<Retried, Refusal> {
        let system = match System::new(plan.alloc, plan.config, plan.first) {
            Err(Refusal::Memory) => System::new(plan.alloc, plan.config, plan.second)?,
            made => made?,
        };
        Ok(Retried { system })
    }

    fn step(&mut self, event: &Event) -> Reply {
        self.system.step_ref(event)
    }

    fn report(&self) -> Answer {
        match self.system.report() {
            Ok(report) => Answer::Report(report),
            Err(_) => Answer::NoReport,
        }
    }

    fn answer_once(&mut self, request: &Request) -> Answer {
        match request {
            Request::Event(event) => Answer::Reply(self.step(event)),
            Request::Report => self.report(),
        }
    }

    /// Executes a request, with retries, and appends the result of each try. Results for which
    /// there is no memory are lost.
    pub fn answer(&mut self, asked: &Asked, answers: &mut Vec<Answer>) {
        for _ in 0..TRIES {
            let answer = self.answer_once(&asked.request);
            let is_last = !is_retried(&answer, asked.is_retried_at_a_fault);
            let _kept = answers.push(answer);
            if is_last {
                return;
            }
        }
    }
}

// Returns whether a request with this result is retried.
fn is_retried(answer: &Answer, at_a_fault: bool) -> bool {
    match answer {
        Answer::NoReport | Answer::Reply(Reply::Refused(Refusal::Memory)) => true,
        Answer::Reply(Reply::Refused(Refusal::Fault { .. })) => at_a_fault,
        _ => false,
    }
}
