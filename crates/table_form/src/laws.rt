//! The law by which the values of a table are numbers of JSON: the function does nothing and proves it.

ghost use Rattle.table_form.specs.Values.{ValuesAreNumbers};

/// Tells that what an aggregate prints is a number of JSON, if it is not empty.
pub fn values_are_numbers()
    ensures { ValuesAreNumbers }
{}
