//! A constraint: a list of codes from 2 to 1,025 whose variables strictly rise. It may be empty, and no value can be otherwise.
ghost use Rattle.std.specs.Prelude.{◌≡◌, ◌≤◌, true, vec_capacity};
ghost use Rattle.qbf.specs.Qbf.{formed as is_formed};

pub mod methods;

/// The codes of a clause or a cube. There is room for one literal of each of 512 variables, so adding one never allocates.
#[derive(Drop)]
pub struct Constraint {
    codes: Vec<u16>,
    ghost formed: { is_formed codes.items ≡ true },
    ghost room: { 512 ≤ vec_capacity codes },
}

/// Why a code cannot follow a constraint's last.
#[derive(Clone, Copy)]
pub enum NotPushed {
    /// It is no code from 2 to 1,025.
    NoCode,
    /// Its variable is not above the last one.
    NotAbove,
}
