//! The control lines of the NATS client protocol: where one ends, its fields, and the operation that a field names (NATS
//! documentation, "Client Protocol").

mod field;
mod line;
mod operation;

pub use field::{FieldsAt, Place, cut, cut_if, fields_of, first_place, text_at, trim};
pub use line::{FoundLine, MAX_CONTROL_LINE, find_line, len_without_cr};
pub use operation::{Operation, find_operation};
