//! The binders of names: laws.

ghost use Rattle.jq_tree.specs.laws.Binders.{BindingKeepsTheTree};
ghost use Rattle.jq_tree.specs.laws.OneBinder.{BoundNamesHaveABinder, OnlyBoundNamesHaveABinder, OneBinder, UnboundNamesStandNowhere, BoundNamesHaveAPreludeBinder, OnePreludeBinder, UnboundNamesAreNotThePreludes};

/// Without its binders, a bound tree is the tree again.
pub fn binding_keeps_the_tree()
    ensures { BindingKeepsTheTree }
{}

/// A name has a binder exactly when its scope or the language binds it, and only one: the innermost.
pub fn names_have_one_binder()
    ensures where_bound { BoundNamesHaveABinder }
    ensures only_where_bound { OnlyBoundNamesHaveABinder }
    ensures one { OneBinder }
    ensures nowhere { UnboundNamesStandNowhere }
{}

/// The prelude's own function of a name is the outermost one.
pub fn prelude_names_have_one_binder()
    ensures where_bound { BoundNamesHaveAPreludeBinder }
    ensures one { OnePreludeBinder }
    ensures nowhere { UnboundNamesAreNotThePreludes }
{}
