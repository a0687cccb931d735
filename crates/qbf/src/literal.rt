//! Literal codes: 2v is the code of variable v, 2v + 1 that of its negation.
ghost use Rattle.qbf.specs.Literals.{setting_of};
ghost use Rattle.qbf.specs.Qbf.{complement as flipped, is_code as is_a_code, variable as variable_of};
ghost use Rattle.std.specs.Prelude.{◌≡◌};

/// The most variables that a prefix can have.
pub const MOST_VARIABLES: u16 = 512;

/// Whether a number is the code of a literal, from 2 to 1,025.
pub fn is_code(code: u16) -> bool
    ensures { result ≡ is_a_code code }
{
    (2..=1025).contains(&code)
}

/// The variable of a code.
pub fn variable(code: u16) -> u16
    ensures { result ≡ variable_of code }
{
    code / 2
}

/// The code of the same variable with the other sign.
pub fn complement(code: u16) -> u16
    ensures { result ≡ flipped code }
{
    if code % 2 == 0 { code + 1 } else { code - 1 }
}

/// The code that sets a variable to a value; none where the variable is not from 1 to 512.
pub fn setting(variable: u16, value: bool) -> Option<u16>
    ensures { result ≡ setting_of variable value }
{
    if !(1..=MOST_VARIABLES).contains(&variable) {
        return None;
    }
    Some(if value {
        2 * variable
    } else {
        2 * variable + 1
    })
}
