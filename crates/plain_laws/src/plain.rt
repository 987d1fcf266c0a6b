//! Laws of names and numbers.
ghost use Rattle.plain_laws.specs.Laws.{LessIsDecided, LimitsFit, SameNameIsEqual};

/// Names that are found the same are equal.
pub fn same_name_is_equal()
    ensures { SameNameIsEqual }
{}

/// The test of a number below another decides it.
pub fn less_is_decided()
    ensures { LessIsDecided }
{}

/// The limits of numbers leave room for all that a script adds, and fit a `u32`.
pub fn limits_fit()
    ensures { LimitsFit }
{}
