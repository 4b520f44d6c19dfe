//! Laws of the outcomes of filters.

ghost use Rattle.jq_syntax.specs.laws.Outcomes.{OneOutcome};

use crate::prelude_laws::prelude_is_accepted;
use jq_parser::laws::one_tree;
use jq_tree::lexing::one_reading;

/// A text has at most one outcome under the options of a command, so the contract of `compile` determines its result.
pub fn one_outcome()
    ensures { OneOutcome }
{
    prelude_is_accepted();
    one_reading();
    one_tree();
}
