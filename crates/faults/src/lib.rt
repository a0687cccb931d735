//! Why a call, a record or a trace is refused, and where: the numbered refusals, their layers, and the line that tells a fault.
#![tactic(auto)]

pub mod fault;
pub mod refusal;
