//! The stages of a session as types beside it. Each type has only the calls of its stage; a call takes the stage and hands on the next one,
//! or hands it back with the refusal. A derivation cannot be let go: it is stored or abandoned.
#![tactic(auto)]

pub mod stage;
