//! The report as a text.
ghost use Rattle.std.specs.Prelude.{◌≡◌};

use crate::entities::put_entity;
use crate::queues::{Tally, put_tally};
use crate::report_rows::ReportRows;
use crate::sheet::Sheet;
use std::alloc::AllocError;
use yard_model::{Charter, EntityName, ProducerNo, Record, ShardNo};

impl ReportRows for Sheet {
    ghost use Rattle.std.specs.Prelude.{ℕ, refl};
    ghost use Rattle.yard_model.specs.Text.{entity_lines};
    ghost use Rattle.trace_text.specs.Rows.{tally_text};

    ghost Part = { ℕ };

    ghost parts = { λ text. text };

    ghost entity_parts = { entity_lines };

    ghost pair_parts = { tally_text };

    fn push_entity(
        &mut self,
        charter: &Charter,
        s: ShardNo,
        name: &EntityName,
        records: &[&Record],
    ) -> Result<(), AllocError> {
        self.len = put_entity(&mut self.cells, self.len, charter, s, name, records)?;
        Ok(())
    }

    fn push_pair(
        &mut self,
        p: ProducerNo,
        name: &EntityName,
        tally: &Tally,
    ) -> Result<(), AllocError> {
        self.len = put_tally(&mut self.cells, self.len, p, name, tally)?;
        Ok(())
    }
}
