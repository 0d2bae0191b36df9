//! The lines of a table, one after the other, as the crate `csv` writes them.
//!
//! Between two lines the writer has no field of a record (`IsBetween`). After an error the lines can only be dropped.

ghost use Rattle.std.specs.Prelude.{◌≡◌, ◌<◌, ◌++◌, [], All, IfOk, OnOk, length, map};
ghost use Rattle.csv.specs.Records.{fields_of};
ghost use Rattle.csv.specs.Writing.{default_writer, row_text};
ghost use Rattle.par_model.specs.Table.{table_header, table_text, values_text};
ghost use Rattle.result_text.specs.KeyColumns.{columns_in};
ghost use Rattle.result_text.specs.Printable.{IsBoundFrom, IsSmallSlot};
ghost use Rattle.result_text.specs.GroupOrder.{line_of};
ghost use Rattle.result_text.specs.Text.{line_record, shown};
ghost use Rattle.result_text.specs.Written.{IsBetween, written};

use crate::order::GroupRef;
use crate::values::{group_count, push_columns, push_header, push_values};
use csv::{ByteRecord, Writer, WriterBuilder};
use par_model::{AggState, BoundPlan};
use partial_agg::{Groups, empty};
use plan_spec::Plan;
use std::alloc::{AllocError, Global};

/// A table of which some lines are written. The record and the text of a number with places are filled anew for each
/// line, in the same memory.
#[derive(Drop)]
pub(crate) struct TableWriter {
    writer: Writer<Vec<u8>>,
    row: ByteRecord,
    text: Vec<u8>,
}

impl TableWriter {
    /// No lines yet.
    pub(crate) fn new(alloc: Global) -> TableWriter
        ensures empty { written result.writer ≡ [] }
        ensures between { IsBetween result.writer }
    {
        TableWriter {
            writer: WriterBuilder::new().from_writer(Vec::new(alloc)),
            row: ByteRecord::new(alloc),
            text: Vec::new(alloc),
        }
    }

    /// The line of the names of the output columns.
    pub(crate) fn write_header(&mut self, plan: &Plan, bound: &BoundPlan) -> Result<(), AllocError>
        requires between { IsBetween self.old.writer }
        requires bound { IsBoundFrom plan.now.plan bound.now }
        ensures text { OnOk result (written self.new.writer ≡ written self.old.writer ++ row_text default_writer (table_header plan.now.plan)) }
        ensures between { OnOk result (IsBetween self.new.writer) }
    {
        self.row.clear();
        push_header(&mut self.row, plan, bound)?;
        self.write_record()
    }

    /// The lines of the groups in this order, or that of no rows if there is no column to group by and no group.
    pub(crate) fn write_groups(
        &mut self,
        bound: &BoundPlan,
        groups: &Groups,
        refs: &[GroupRef<'_>],
    ) -> Result<(), AllocError>
        requires between { IsBetween self.old.writer }
        requires small { All (λ group. All IsSmallSlot group.state.slots) groups.now }
        requires within { All (λ group. group.at < length groups.now) refs.now }
        ensures text { OnOk result (written self.new.writer ≡ written self.old.writer ++ table_text (map (line_record bound.now) (shown bound.now (map (line_of (length bound.now.groups) groups.now) refs.now)))) }
    {
        if group_count(bound) == 0 && refs.is_empty() {
            return self.write_group(bound, &[], &empty());
        }
        self.write_each(bound, groups, refs)
    }

    /// A line for each group.
    pub(crate) fn write_each(
        &mut self,
        bound: &BoundPlan,
        groups: &Groups,
        refs: &[GroupRef<'_>],
    ) -> Result<(), AllocError>
        requires between { IsBetween self.old.writer }
        requires small { All (λ group. All IsSmallSlot group.state.slots) groups.now }
        requires within { All (λ group. group.at < length groups.now) refs.now }
        ensures text { OnOk result (written self.new.writer ≡ written self.old.writer ++ table_text (map (line_record bound.now) (map (line_of (length bound.now.groups) groups.now) refs.now))) }
    {
        let lent = groups.lent();
        let mut state = empty();
        for group in refs {
            lent.read_state(group.at, &mut state, bound.items().len() as u32);
            self.write_group(bound, group.key, &state)?;
        }
        Ok(())
    }

    /// The line of a group with this key.
    fn write_group(
        &mut self,
        bound: &BoundPlan,
        key: &[u8],
        state: &AggState,
    ) -> Result<(), AllocError>
        requires between { IsBetween self.old.writer }
        requires small { All IsSmallSlot state.now.slots }
        ensures text { OnOk result (written self.new.writer ≡ written self.old.writer ++ row_text default_writer (columns_in (length bound.now.groups) key.now ++ values_text bound.now state.now)) }
        ensures between { OnOk result (IsBetween self.new.writer) }
    {
        self.row.clear();
        push_columns(&mut self.row, key, group_count(bound))?;
        push_values(&mut self.row, &mut self.text, bound, state)?;
        self.write_record()
    }

    /// Writes the record. Over memory it fails only if memory runs out, since all lines have the same number of fields.
    fn write_record(&mut self) -> Result<(), AllocError>
        requires { IsBetween self.old.writer }
        ensures text { OnOk result (written self.new.writer ≡ written self.old.writer ++ row_text default_writer (fields_of self.old.row)) }
        ensures between { OnOk result (IsBetween self.new.writer) }
    {
        self.writer
            .write_byte_record(&self.row)
            .map_err(|_| AllocError)
    }

    /// The text of the lines.
    pub(crate) fn into_text(self) -> Result<Vec<u8>, AllocError>
        ensures { IfOk result (λ text. text.items ≡ written self.writer) }
    {
        self.writer.into_inner().map_err(|_| AllocError)
    }
}
