//! Laws of the value of a number text (RFC 8259, section 6). Nothing here runs.

ghost use Rattle.jv_number.specs.laws.Numbers.{ShiftedDigitsSolve, TestIsTheGrammar, ValueSolves};

/// The test for a number is true exactly for the texts of the grammar.
pub fn number_test_is_the_grammar()
    ensures { TestIsTheGrammar }
{}

/// The digits of a text with the point moved by its exponent are the only solution of the equation of the digits and the
/// exponent, and there is no solution if a digit after the point is not 0.
pub fn shifted_digits_solve_the_equation()
    ensures { ShiftedDigitsSolve }
{}

/// The law of `number_value`: it is the only whole number of 64 bits that solves the equation of the number's digits and
/// exponent, and None if there is no such number.
pub fn value_solves_the_equation()
    ensures { ValueSolves }
{}
