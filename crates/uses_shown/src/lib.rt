//! Callers of `table_order`, `table_form` and `numbered_rows`: rows of tables in another order, tables in each form, and tables
//! without a header, as tables of worked rows.

#![tactic(auto)]

#[cfg(test)]
mod forms;
#[cfg(test)]
mod numbers;
#[cfg(test)]
mod rows;
