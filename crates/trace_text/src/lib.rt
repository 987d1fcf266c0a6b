//! What is printed: facts and the report, appended to a text byte by byte as `yard_model` defines it;
//! the lists of slots; and the report as JSON.
//!
//! A line of a fact is spelled into cells and then appended at once: functions named `put` write into
//! the cells and can't fail, those named `push` append.
#![tactic(auto)]

mod basics;
mod bodies;
mod entities;
mod entries;
mod entry_lines;
mod facts;
mod journals;
mod json_rows;
mod json_sheet;
mod json_text;
mod number;
mod parts;
mod pieces;
mod queues;
mod records;
mod report;
mod report_pieces;
mod report_rows;
mod room;
mod shards;
mod sheet;
mod slots;
mod text_rows;
mod values;

pub use entities::{apply_events, put_record_line};
pub use facts::{push_fact, push_facts};
pub use parts::{ReportNames, count_of_parts, parts_law};
pub use pieces::{CELLS, Piece, put_coordinator_lines, put_head, put_queue_lines, put_shard_lines};
pub use report::{push_json, push_report, report_value};
pub use report_pieces::{RECORD_CELLS, put_entity, put_pair};
pub use shards::names_by_shard;
pub use sheet::Sheet;
pub use slots::push_lists;
