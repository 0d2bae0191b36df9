//! The word of a plan at each place of its descriptor.

ghost use Rattle.std.specs.Prelude.{◌≡◌, ◌<◌, ◌≤◌, ◌-◌, ◌/◌, ◌^◌, FitsSigned, length, slice_index_or};
ghost use Rattle.std.specs.Int.{w64};
ghost use Rattle.std.specs.Option.{ForSome};
ghost use Rattle.par_model.specs.PlanLayout.{unused};
ghost use Rattle.plan_descriptor.specs.Descriptor.{HasRoom, column_word, filter_of, filter_word, head_word, item_word, kind_word, plan_word, relation_word};

use par_model::{BoundPlan, FilterOp, FilterTest, Item, ItemKind};

/// A filter of numbers, which a descriptor may have.
#[derive(Clone, Copy, Debug)]
pub struct NumberFilter {
    pub column: u32,
    pub op: FilterOp,
    pub value: i64,
    pub places: u32,
}

/// The word at a place of a plan's descriptor of version 2.
pub(crate) fn plan_word(plan: &BoundPlan, place: u64) -> u64
    requires { place < 32 }
    ensures word { result ≡ plan_word 2 plan.now place }
    ensures narrow { place < 12 → result < 2 ^ 32 }
    ensures item { 12 ≤ place → place < 28 → (slice_index_or plan.now.items ((place - 12) / 2) unused).column < 2 ^ 32 }
    ensures value { 28 ≤ place → ForSome (filter_of plan.now) (λ filter. (filter.column < 2 ^ 32) × FitsSigned w64 filter.value) }
{
    if place < 4 {
        return head_word(plan, place);
    }
    if place < 12 {
        return u64::from(plan.groups[place as usize - 4]);
    }
    if place < 28 {
        let item = plan.items[(place as usize - 12) / 2];
        return item_word(item, place % 2);
    }
    filter_word(filter_of(plan), place - 28)
}

/// The first filter of a plan, if it is one of numbers.
fn filter_of(plan: &BoundPlan) -> Option<NumberFilter>
    ensures { result ≡ filter_of plan.now }
{
    let filter = plan.filters().first()?;
    match filter.test {
        FilterTest::Number(op, value) => Some(NumberFilter {
            column: filter.column,
            op,
            value,
            places: filter.places,
        }),
        FilterTest::Is(_) | FilterTest::IsNot(_) => None,
    }
}

/// Tells how long a plan's lists are. It does nothing.
pub(crate) fn has_room(plan: &BoundPlan)
    ensures { HasRoom plan.now }
{
    has_eight(&plan.items);
}

/// Tells how many places the array of a plan's aggregates has. It does nothing.
fn has_eight(items: &[Item; 8])
    ensures { length items.now ≡ 8 }
{}

fn head_word(plan: &BoundPlan, place: u64) -> u64
    requires { place < 4 }
    ensures word { result ≡ head_word 2 plan.now place }
    ensures narrow { result < 2 ^ 32 }
{
    match place {
        0 => 2,
        1 => plan.group_columns().len() as u64,
        2 => plan.items().len() as u64,
        _ => u64::from(plan.hash),
    }
}

fn item_word(item: Item, place: u64) -> u64
    ensures word { result ≡ item_word item place }
    ensures column { item.column < 2 ^ 32 }
{
    match place {
        0 => kind_word(item.kind),
        _ => column_word(item.column, item.places),
    }
}

/// A column, and how many places its numbers have.
fn column_word(column: u32, places: u32) -> u64
    ensures { result ≡ column_word column places }
{
    u64::from(column) + (u64::from(places) << 32)
}

fn kind_word(kind: ItemKind) -> u64
    ensures word { result ≡ kind_word kind }
    ensures narrow { result < 6 }
{
    match kind {
        ItemKind::Rows => 0,
        ItemKind::Count => 1,
        ItemKind::Sum => 2,
        ItemKind::Min => 3,
        ItemKind::Max => 4,
        ItemKind::Avg => 5,
    }
}

fn filter_word(filter: Option<NumberFilter>, place: u64) -> u64
    ensures word { result ≡ filter_word filter place }
    ensures value { ForSome filter (λ filter. (filter.column < 2 ^ 32) × FitsSigned w64 filter.value) }
{
    match filter {
        None => 0,
        Some(filter) => word_of_filter(filter, place),
    }
}

fn word_of_filter(filter: NumberFilter, place: u64) -> u64
    ensures word { result ≡ filter_word (Some filter) place }
    ensures value { (filter.column < 2 ^ 32) × FitsSigned w64 filter.value }
{
    match place {
        0 => relation_word(filter.op),
        1 => column_word(filter.column, filter.places),
        2 => filter.value.cast_unsigned(),
        _ => 0,
    }
}

fn relation_word(op: FilterOp) -> u64
    ensures word { result ≡ relation_word op }
    ensures narrow { result < 7 }
{
    match op {
        FilterOp::Equal => 1,
        FilterOp::NotEqual => 2,
        FilterOp::Less => 3,
        FilterOp::LessEqual => 4,
        FilterOp::Greater => 5,
        FilterOp::GreaterEqual => 6,
    }
}
