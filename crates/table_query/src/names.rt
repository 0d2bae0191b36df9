//! What a line says of a refused row.
//!
//! It names a column of a plan: that of an aggregate or of a filter, by its place. The text is made at once, since the
//! line is written after the plan is gone.

ghost use Rattle.std.specs.Prelude.{◌≡◌, ◌⊎◌, ◌++◌, IfOk, OnOk, string_bytes};
ghost use Rattle.table_query.specs.Lines.{number_kind, refusal_text};
ghost use Rattle.table_query.specs.Stops.{IsRefusedRow};
ghost use Rattle.table_query.specs.declared.stop.Stop.TheVariants as stop;

use crate::stop::Stop;
use par_model::{ITEM_CAUSE, KEY_CAUSE, Refusal, WIDTH_CAUSE};
use plan_spec::Plan;
use std::alloc::{AllocError, Global};

/// The reason that this row is refused, or no memory.
pub fn stop_of_row(alloc: Global, plan: &Plan, row: u64, why: Refusal) -> Stop
    ensures { IsRefusedRow plan.now.plan row why result ⊎ (result ≡ stop.Memory) }
{
    match refusal_text(alloc, plan, why) {
        Ok(cause) => Stop::Refused(row, cause),
        Err(AllocError) => Stop::Memory,
    }
}

/// What a line says of the cause of a refusal.
pub fn refusal_text(alloc: Global, plan: &Plan, why: Refusal) -> Result<String, AllocError>
    ensures { IfOk result (λ text. string_bytes text ≡ refusal_text plan.now.plan why) }
{
    if why.cause == WIDTH_CAUSE {
        return String::from_str(alloc, "wrong number of fields");
    }
    if why.cause == KEY_CAUSE {
        return String::from_str(alloc, "group key is longer than 248 bytes");
    }
    if why.cause == ITEM_CAUSE {
        let name = plan.item_name(why.item).unwrap_or("");
        return no_number(alloc, "column ", name, plan.item_places(why.item));
    }
    let name = plan.filter_name(why.item).unwrap_or("");
    no_number(alloc, "filter column ", name, plan.filter_places(why.item))
}

/// What a line says of a field that is no number of at most this many places: a text, the name of its column, and what the
/// field is not.
fn no_number(alloc: Global, front: &str, name: &str, places: u32) -> Result<String, AllocError>
    ensures { IfOk result (λ text. string_bytes text ≡ front.now ++ (name.now ++ number_kind places)) }
{
    let mut text = String::from_str(alloc, front)?;
    text.push_str(name)?;
    push_kind(&mut text, places)?;
    Ok(text)
}

/// What a field is not that is no number of at most this many places.
fn push_kind(text: &mut String, places: u32) -> Result<(), AllocError>
    ensures { OnOk result (string_bytes text.new ≡ string_bytes text.old ++ number_kind places) }
{
    if places == 0 {
        return text.push_str(" is not an integer");
    }
    if places == 1 {
        return text.push_str(" is not a decimal with at most 1 place");
    }
    text.push_str(" is not a decimal with at most ")?;
    text.push_str(itoa::Buffer::new().format(places))?;
    text.push_str(" places")?;
    Ok(())
}
